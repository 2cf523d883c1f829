// The cycles of a run, until as many are worked as asked, no mark stands, or a cycle is refused.
ghost use Rattle.std.specs.Prelude.{◌≡◌};
ghost use Rattle.program.specs.Accepted.{accepted_in};
ghost use Rattle.player.specs.Begin.{state_of};
ghost use Rattle.player.specs.Cycle.{Runnable};
ghost use Rattle.player.specs.Run.{RunAnswer, number_of_run, item_of_run, worked_by};

use crate::scratch::Scratch;
use crate::{Stopped, cycle, start};
use program::Accepted;

// Works the cycles of a run from a state that the questions before the first cycle let by. Each cycle is handed the
// part of the book that starts at the entries already read.
pub fn work_cycles(
    program: &Accepted,
    values: &mut [u16],
    marks: &mut [u8],
    counts: &mut [u16],
    book: &[u16],
    cycles: u16,
) -> Result<u16, Stopped>
    requires { Runnable (accepted_in program.now) (state_of values.old marks.old counts.old) }
    ensures { RunAnswer (accepted_in program.now) cycles (state_of values.old marks.old counts.old) book.now
        (number_of_run result) (item_of_run result) (worked_by result) (state_of values.new marks.new counts.new) }
{
    if cycles == 0 {
        return Ok(0);
    }
    let mut scratch = Scratch::new();
    start::fill(program, values, marks, &mut scratch.work);
    let mut rest = book;
    for worked in 0..cycles {
        let m = scratch.work.tally as usize;
        if m == 0 {
            return Ok(worked);
        }
        scratch.claims.stamp = worked + 1;
        if let Err(refusal) = cycle::work_cycle(
            program,
            values,
            marks,
            counts,
            rest,
            &mut scratch,
        ) {
            return Err(Stopped { refusal, worked });
        }
        rest = &rest[m..];
    }
    Ok(cycles)
}
