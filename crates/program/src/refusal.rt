// What a call refuses: the first question answered no, with its item where it has one. All calls share the numbers of the
// questions, so that one type says which it was.
ghost use Rattle.std.specs.Prelude.{◌≡◌};
ghost use Rattle.program.specs.Refusals.{question_number, fault_in};

#[derive(Clone, Copy, Debug, PartialEq, Eq)]
pub enum Refusal {
    // 1: the sizes of the lists.
    Sizes,
    // 2: an expression.
    Expr(u16),
    // 3: a node.
    Node(u16),
    // 4: a node that names what the program does not have.
    Reference(u16),
    // 5: the lengths of the lists of a state.
    Lengths,
    // 6: the state.
    State,
    // 7: the entries of a cycle.
    Entries,
    // 8: two active IN or two active OUT on one channel.
    Channels,
    // 9: two stores to one variable.
    Stores,
    // 10: a loop that takes no time.
    Loop,
    // 11: the width of a variable; variable 0 where there are not as many widths as variables, since the rules give 0 as the
    // item then. A number, as the other items are: a `VarId` would only be opened by `item`.
    Width(u16),
    // 12: the bytes of a file.
    File,
    // 13: a buffer that is too short.
    Room,
}

impl Refusal {
    // The number of the question.
    pub fn number(self) -> u16
        ensures { result ≡ question_number self }
    {
        match self {
            Refusal::Sizes => 1,
            Refusal::Expr(_) => 2,
            Refusal::Node(_) => 3,
            Refusal::Reference(_) => 4,
            Refusal::Lengths => 5,
            Refusal::State => 6,
            Refusal::Entries => 7,
            Refusal::Channels => 8,
            Refusal::Stores => 9,
            Refusal::Loop => 10,
            Refusal::Width(_) => 11,
            Refusal::File => 12,
            Refusal::Room => 13,
        }
    }

    // The first fault, or 0 with a question that has none: the item of C's word, which the rules have as 0 there.
    pub fn item(self) -> u16
        ensures { result ≡ fault_in self }
    {
        match self {
            Refusal::Expr(i) | Refusal::Node(i) | Refusal::Reference(i) | Refusal::Width(i) => i,
            _ => 0,
        }
    }
}
