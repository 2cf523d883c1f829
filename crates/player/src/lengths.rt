// Question 5: the three lists of a state are as long as the program asks.
ghost use Rattle.std.specs.Prelude.{◌≡◌};
ghost use Rattle.semantics.specs.State.{lengths_ok};
ghost use Rattle.program.specs.Accepted.{accepted_in};
ghost use Rattle.program.specs.Answer.{answer_to};
ghost use Rattle.player.specs.Begin.{state_of};

use program::{Accepted, Refusal};

#[tactic(auto, unfolding(semantics::specs::State::lengths_ok))]
pub fn ask_lengths(
    program: &Accepted,
    values: &[u16],
    marks: &[u8],
    counts: &[u16],
) -> Result<(), Refusal>
    ensures { result ≡ answer_to
        (lengths_ok (accepted_in program.now) (state_of values.now marks.now counts.now)) Refusal.Lengths }
{
    let nodes = program.lists.node_count();
    let fit = (values.len() == program.lists.vars as usize)
        & (marks.len() == nodes)
        & (counts.len() == nodes);
    fit.then_some(()).ok_or(Refusal::Lengths)
}
