// What an op gives at the values of its two operands.
ghost use Rattle.std.specs.Prelude.{◌≡◌};
ghost use Rattle.semantics.specs.Program.{op_of};
ghost use Rattle.semantics.specs.Expressions.{apply};
ghost use Rattle.program.specs.Ops.{rule_binary};
ghost use Rattle.program.specs.Values.{applied};

use super::{Binary, Op};

impl Binary {
    #[tactic(auto, unfolding(semantics::specs::Expressions::apply))]
    pub fn apply(self, x: u16, y: u16) -> u16
        ensures { result ≡ apply (rule_binary self) x y }
    {
        match self {
            Binary::Add => x.wrapping_add(y),
            Binary::Sub => x.wrapping_sub(y),
            Binary::Mul => x.wrapping_mul(y),
            Binary::And => x & y,
            Binary::Equal => u16::from(x == y),
            Binary::Below => u16::from(x < y),
        }
    }
}

// An op by its word, at the values of its operands; what has no two operands gives 0. By the word, since with a `Binary` a
// pass over a chain took an eighth more instructions.
pub fn apply_op(op: u16, x: u16, y: u16) -> u16
    ensures { result ≡ applied (op_of op) x y }
{
    match Op::try_from(op) {
        Ok(Op::Binary(op)) => op.apply(x, y),
        _ => 0,
    }
}
