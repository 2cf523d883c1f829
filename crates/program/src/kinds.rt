// The kinds of nodes. A node's first word is the number of its kind.
ghost use Rattle.program.specs.Kinds.{KindOfWord};

// ---- the numbers

pub const SEQ: u16 = 1;

pub const PAR: u16 = 2;

pub const ASG: u16 = 3;

pub const IN: u16 = 4;

pub const OUT: u16 = 5;

pub const IF: u16 = 6;

pub const WHL: u16 = 7;

pub const DLY: u16 = 8;

// ---- the kinds

// The kinds with no child: the atomic statements.
#[derive(Clone, Copy, Debug, PartialEq, Eq)]
pub enum Leaf {
    Asg,
    In,
    Out,
    Dly,
}

#[derive(Clone, Copy, Debug, PartialEq, Eq)]
pub enum Kind {
    Seq,
    Par,
    If,
    Whl,
    Leaf(Leaf),
}

// A word is no kind. A type of its own says so in a signature, and of which list the word is, where `()` would say nothing.
#[derive(Clone, Copy, Debug, PartialEq, Eq)]
pub struct UnknownKind;

impl TryFrom<u16> for Kind {
    type Error = UnknownKind;

    ghost try_from_gives = { KindOfWord };

    #[tactic(auto, unfolding(semantics::specs::Program::kind_of))]
    fn try_from(word: u16) -> Result<Kind, UnknownKind> {
        match word {
            SEQ => Ok(Kind::Seq),
            PAR => Ok(Kind::Par),
            ASG => Ok(Kind::Leaf(Leaf::Asg)),
            IN => Ok(Kind::Leaf(Leaf::In)),
            OUT => Ok(Kind::Leaf(Leaf::Out)),
            IF => Ok(Kind::If),
            WHL => Ok(Kind::Whl),
            DLY => Ok(Kind::Leaf(Leaf::Dly)),
            _ => Err(UnknownKind),
        }
    }
}
