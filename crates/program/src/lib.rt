// The program lists: what their words mean, which programs are accepted, and what the ops of their expressions give.
// Tests are joined by `&`, which asks all of them: they are cheap, and none depends on another.
// Numbers pass between u16 and usize by `as`, which the contracts prove to lose nothing: `try_from` would give an error that
// never comes, and `usize::from` would be no plainer.
#![tactic(auto)]

mod accepted; // an accepted program
mod expressions; // question 2
pub mod kinds; // the kinds of nodes, and their numbers
pub mod limits; // the limits of an accepted program
mod nodes; // question 3 at one node
pub mod ops; // the ops of expressions, and their numbers
mod parents; // the parent of a node
mod ranges; // question 4
mod records; // the records of the lists
mod refusal; // what a call refuses
mod sizes; // question 1
mod tree; // question 3 at all nodes
mod values; // what an op gives
mod widths; // question 11
pub mod word; // the word that C gets for an answer

ghost use Rattle.std.specs.Prelude.{◌≡◌, IfOk};
ghost use Rattle.program.specs.Answer.{program_in, CheckAnswer, number_of, item_of};

pub use accepted::Accepted;
use expressions::ask_exprs;
pub use kinds::{Kind, Leaf, UnknownKind};
pub use ops::{Binary, Op, UnknownOp};
use ranges::ask_ranges;
pub use records::{Expr, Node, word_at};
pub use refusal::Refusal;
use sizes::ask_sizes;
use tree::ask_nodes;
pub use values::apply_op;
use widths::ask_widths;

// A program as it is lent: its lists, and how many variables and channels it has.
#[derive(Clone, Copy, Debug)]
pub struct Program<'a> {
    pub exprs: &'a [u16],
    pub nodes: &'a [u16],
    pub widths: &'a [u16],
    pub vars: u16,
    pub chans: u16,
}

// The number of a variable. It is a type of its own, as a channel's is, so that neither is taken for the other. It has a
// default, since what lists variables may ask for a blank one.
#[derive(Clone, Copy, Debug, Default, PartialEq, Eq)]
pub struct VarId(pub u16);

// The number of a channel.
#[derive(Clone, Copy, Debug, PartialEq, Eq)]
pub struct ChanId(pub u16);

// Asks questions 1 to 4 and 11, in time linear in the lengths of the lists.
pub fn check(program: Program) -> Result<(), Refusal>
    ensures { CheckAnswer (program_in program.entry) (number_of result) (item_of result) }
{
    accept(program).map(|_| ())
}

// The same, and hands the program on as an accepted one. While that is kept, its lists are lent.
#[tactic(auto, using(crate::proofs::CheckLaws::none_no))]
pub fn accept<'a>(program: Program<'a>) -> Result<Accepted<'a>, Refusal>
    ensures answer { CheckAnswer (program_in program.entry) (number_of result) (item_of result) }
    ensures same { IfOk result (λ it. it.lists ≡ program.entry) }
{
    ask_sizes(&program)?;
    ask_exprs(&program)?;
    ask_nodes(&program)?;
    ask_ranges(&program)?;
    ask_widths(&program)?;
    Ok(Accepted { lists: program })
}
