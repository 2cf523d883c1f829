// The ops of expressions. An expression's first word is the number of its op.
ghost use Rattle.program.specs.Ops.{OpOfWord};

// ---- the numbers

pub const NUMBER: u16 = 0;

pub const VARIABLE: u16 = 1;

pub const ADD: u16 = 2;

pub const SUB: u16 = 3;

pub const MUL: u16 = 4;

pub const AND: u16 = 5;

pub const EQUAL: u16 = 6;

pub const BELOW: u16 = 7;

// ---- the ops

// The ops on two operand expressions.
#[derive(Clone, Copy, Debug, PartialEq, Eq)]
pub enum Binary {
    Add,
    Sub,
    Mul,
    And,
    Equal,
    Below,
}

#[derive(Clone, Copy, Debug, PartialEq, Eq)]
pub enum Op {
    Number,
    Variable,
    Binary(Binary),
}

// A word is no op. A type of its own says so in a signature, and of which list the word is, where `()` would say nothing.
#[derive(Clone, Copy, Debug, PartialEq, Eq)]
pub struct UnknownOp;

impl TryFrom<u16> for Op {
    type Error = UnknownOp;

    ghost try_from_gives = { OpOfWord };

    #[tactic(auto, unfolding(semantics::specs::Program::op_of))]
    fn try_from(word: u16) -> Result<Op, UnknownOp> {
        match word {
            NUMBER => Ok(Op::Number),
            VARIABLE => Ok(Op::Variable),
            ADD => Ok(Op::Binary(Binary::Add)),
            SUB => Ok(Op::Binary(Binary::Sub)),
            MUL => Ok(Op::Binary(Binary::Mul)),
            AND => Ok(Op::Binary(Binary::And)),
            EQUAL => Ok(Op::Binary(Binary::Equal)),
            BELOW => Ok(Op::Binary(Binary::Below)),
            _ => Err(UnknownOp),
        }
    }
}
