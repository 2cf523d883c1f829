// Question 11: a width for each variable, from 1 to 16.
ghost use Rattle.std.specs.Prelude.{◌≡◌};
ghost use Rattle.semantics.specs.Widths.{width_ok, widths_ok};
ghost use Rattle.program.specs.Answer.{program_in, Asked};

use super::limits::WIDTH_MAX;
use super::{Program, Refusal, VarId};

#[tactic(auto, unfolding(semantics::specs::Widths::width_ok))]
fn width_ok(width: u16) -> bool
    ensures { result ≡ width_ok width }
{
    (1..=WIDTH_MAX).contains(&width)
}

// Refuses the first variable whose width is outside 1 to 16, or variable 0 where there are not as many widths as variables; the
// form is that of `ask_exprs`.
pub fn ask_widths(program: &Program) -> Result<(), Refusal>
    ensures { Asked (program_in program.now) 11 (widths_ok (program_in program.now)) result }
{
    if program.widths.len() != program.vars as usize {
        return Err(Refusal::Width(0));
    }
    (0..program.vars)
        .find(|&v| !width_ok(program.width(VarId(v))))
        .map_or(Ok(()), |v| Err(Refusal::Width(v)))
}
