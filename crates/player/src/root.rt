// Entering node 0 of an accepted program, whatever stood in marks and counts.
ghost use Rattle.semantics.specs.Facts.{LengthsFit};
ghost use Rattle.semantics.specs.Calls.{root_walk};
ghost use Rattle.program.specs.Accepted.{accepted_in};
ghost use Rattle.player.specs.Begin.{state_of};
ghost use Rattle.player.specs.Root.{WrittenUnlessLooped};

use crate::work::Work;
use crate::{enter, start};
use program::limits::NODES_MAX;
use program::{Accepted, Refusal};

// Enters node 0, and writes what that leaves into both lists unless a zero-time loop was met.
pub fn enter_root(
    program: &Accepted,
    values: &[u16],
    marks: &mut [u8],
    counts: &mut [u16],
) -> Result<(), Refusal>
    requires { LengthsFit (accepted_in program.now) (state_of values.now marks.old counts.old) }
    ensures { WrittenUnlessLooped (root_walk (accepted_in program.now) values.now) marks.old counts.old
        result marks.new counts.new }
{
    let mut work = Work::new();
    start::fill_values(values, &mut work);
    // As long as any program needs, for the player has no heap.
    let mut new_marks = [0u8; NODES_MAX];
    let mut new_counts = [0u16; NODES_MAX];
    let n = marks.len();
    enter::enter_node(
        program,
        &mut work,
        &mut new_marks[..n],
        &mut new_counts[..n],
        0,
    );
    if work.looped {
        return Err(Refusal::Loop);
    }
    marks.copy_from_slice(&new_marks[..n]);
    counts.copy_from_slice(&new_counts[..n]);
    Ok(())
}
