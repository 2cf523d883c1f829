// Question 6, is the state well formed: the values are in range, and marks and counts are right, in one pass from the
// last node to the first. The table `live` has for each node the number of its live children, those that hold a mark:
// their numbers are higher, so they are counted first.
ghost use Rattle.std.specs.Prelude.{◌≡◌, length};
ghost use Rattle.semantics.specs.State.{control_formed, well_formed};
ghost use Rattle.semantics.specs.Widths.{values_in_range};
ghost use Rattle.semantics.specs.Facts.{LengthsFit, node_well_formed};
ghost use Rattle.program.specs.Kinds.{rule_kind};
ghost use Rattle.program.specs.Accepted.{accepted_in};
ghost use Rattle.program.specs.Answer.{answer_to};
ghost use Rattle.player.specs.Begin.{state_of};
ghost use Rattle.player.specs.WellFormed.{ListsFit, added_to_parent, ParentFits};

use crate::records;
use crate::widths::values_in_range;
use program::limits::NODES_MAX;
use program::{Accepted, Kind, Refusal};

// What question 6 asks of one node, of whose children `live` have a marked leaf at or below them.
#[tactic(auto, unfolding(semantics::specs::Facts::node_well_formed))]
fn node_well_formed(kind: Kind, mark: u8, count: u16, live: u16) -> bool
    ensures { result ≡ node_well_formed (rule_kind kind) mark count live }
{
    match kind {
        Kind::Par => (mark == 0) & (count == live),
        Kind::Seq | Kind::If | Kind::Whl => (mark == 0) & (count == 0) & (live <= 1),
        Kind::Leaf(_) => (mark <= 1) & (count == 0),
    }
}

// Where a mark stands at or below node i, its parent has one more such child. Node 0 has no parent.
pub fn add_to_parent(program: &Accepted, i: u16, holds: bool, live: &mut [u16])
    requires { ParentFits (accepted_in program.now).nodes i live.old }
    ensures { live.new ≡ added_to_parent (accepted_in program.now).nodes i holds live.old }
{
    if holds & (0 < i) {
        live[records::node(program, i).parent as usize] += 1;
    }
}

// What question 6 asks of marks and counts, where they fit the program. The loop has an index, for `live` is written at a parent
// too. `recount` has such a table and loop; one function for both would hand three lists to a closure that asks or writes: no
// plainer.
fn control_formed(program: &Accepted, marks: &[u8], counts: &[u16]) -> bool
    requires { ListsFit (accepted_in program.now) marks.now counts.now }
    ensures { result ≡ control_formed (accepted_in program.now).nodes marks.now counts.now }
{
    // As long as any program needs, for the player has no heap.
    let mut live = [0u16; NODES_MAX];
    for at in (0..marks.len()).rev() {
        let i = at as u16;
        let mark = marks[at];
        let own = live[at];
        if !node_well_formed(records::kind(program, i), mark, counts[at], own) {
            return false;
        }
        add_to_parent(program, i, (mark == 1) | (0 < own), &mut live);
    }
    true
}

// Question 6 of the values alone, which is all that begin asks. One function for this and `ask_state` would be told whether there
// are marks and counts to be asked for, and be no plainer.
pub fn ask_values(program: &Accepted, values: &[u16]) -> Result<(), Refusal>
    requires { length values.now ≡ (accepted_in program.now).variables }
    ensures { result ≡ answer_to (values_in_range (accepted_in program.now).widths values.now) Refusal.State }
{
    values_in_range(program, values)
        .then_some(())
        .ok_or(Refusal::State)
}

// Question 6 of a state whose lists fit an accepted program.
#[tactic(auto, unfolding(semantics::specs::State::well_formed))]
pub fn ask_state(
    program: &Accepted,
    values: &[u16],
    marks: &[u8],
    counts: &[u16],
) -> Result<(), Refusal>
    requires { LengthsFit (accepted_in program.now) (state_of values.now marks.now counts.now) }
    ensures { result ≡ answer_to
        (well_formed (accepted_in program.now) (state_of values.now marks.now counts.now)) Refusal.State }
{
    (values_in_range(program, values) && control_formed(program, marks, counts))
        .then_some(())
        .ok_or(Refusal::State)
}
