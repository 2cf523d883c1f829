// The sizes of a paper, and the lengths of its parts in words.
ghost use Rattle.std.specs.Prelude.{◌≡◌, ◌*◌};
ghost use Rattle.semantics.specs.File.{sizes_of};
ghost use Rattle.program.specs.Accepted.{accepted_in};
ghost use Rattle.paper.specs.Sizes.{sizes_in_code};

use program::Accepted;

// How many nodes, expressions, variables and channels a paper has.
#[derive(Clone, Copy, Debug, Default, PartialEq, Eq)]
pub struct FileSizes {
    pub nodes: u16,
    pub exprs: u16,
    pub vars: u16,
    pub chans: u16,
}

// How many words the lists of expressions and nodes take, and the values and the widths each. `FileSizes` has numbers of
// records, and `Distances` words from a part to the trailer: in one struct for all a field would have three meanings.
#[derive(Clone, Copy, Debug)]
pub struct Lengths {
    pub exprs: usize,
    pub nodes: usize,
    pub vars: usize,
}

impl From<&Accepted<'_>> for FileSizes {
    ghost from_gives = { λ program sizes. sizes_in_code sizes ≡ sizes_of (accepted_in program.now) };

    #[tactic(auto, using(crate::proofs::WriterLaws::limits))]
    fn from(program: &Accepted<'_>) -> FileSizes {
        FileSizes {
            nodes: program.lists.node_count() as u16,
            exprs: program.lists.expr_count() as u16,
            vars: program.lists.vars,
            chans: program.lists.chans,
        }
    }
}

impl FileSizes {
    // A method and no `From`, since callers in other crates then need not name `Lengths`.
    pub fn lengths(self) -> Lengths
        ensures exprs { result.exprs ≡ 3 * self.exprs }
        ensures nodes { result.nodes ≡ 5 * self.nodes }
        ensures vars { result.vars ≡ self.vars }
    {
        Lengths {
            exprs: 3 * (self.exprs as usize),
            nodes: 5 * (self.nodes as usize),
            vars: self.vars as usize,
        }
    }
}
