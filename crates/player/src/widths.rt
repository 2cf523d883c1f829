// The widths of the variables: the greatest value of each, and the values' part of question 6.
ghost use Rattle.std.specs.Prelude.{◌≡◌, ◌-◌, ◌^◌, ◌<◌, length};
ghost use Rattle.semantics.specs.Widths.{width_at, values_in_range};
ghost use Rattle.program.specs.Accepted.{accepted_in};

use program::limits::WIDTH_MAX;
use program::{Accepted, VarId};

// The greatest value of a variable.
#[tactic(auto, using(crate::proofs::MaskLaws::greatest_value))]
pub fn greatest(program: &Accepted, v: VarId) -> u16
    requires { v.0 < (accepted_in program.now).variables }
    ensures { result ≡ 2 ^ width_at (accepted_in program.now).widths v.0 - 1 }
{
    u16::MAX >> (WIDTH_MAX - program.lists.width(v))
}

// Whether every value is in the range of its variable.
pub fn values_in_range(program: &Accepted, values: &[u16]) -> bool
    requires { length values.now ≡ (accepted_in program.now).variables }
    ensures { result ≡ values_in_range (accepted_in program.now).widths values.now }
{
    (0..program.lists.vars).all(|v| values[v as usize] <= greatest(program, VarId(v)))
}
