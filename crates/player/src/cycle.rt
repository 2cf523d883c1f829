// One cycle, by the next entries of the book. It works in the lent lists; a refused cycle is taken back. `Fresh` holds of claims
// at its start alone, and `Runnable` and `Carried` are said of a program and what is lent: so no field says them.
ghost use Rattle.std.specs.Prelude.{◌≡◌, cond, ltb, length, replicate};
ghost use Rattle.semantics.specs.Program.{node_count};
ghost use Rattle.program.specs.Accepted.{accepted_in};
ghost use Rattle.player.specs.Begin.{state_of};
ghost use Rattle.player.specs.Entries.{crossable, uncrossed, CrossedOut};
ghost use Rattle.player.specs.Memo.{Known};
ghost use Rattle.player.specs.Claims.{Fresh};
ghost use Rattle.player.specs.Channels.{marks_of};
ghost use Rattle.player.specs.Stores.{Started};
ghost use Rattle.player.specs.Cycle.{Runnable, Carried, CycleFrom, AskAnswer, AdvanceAnswer, WorkedCycle};

use crate::scratch::Scratch;
use crate::{channels, entries, stores, undo, visits};
use program::{Accepted, Refusal};

// Which question refuses, where the pass of questions 7 and 8 stopped after `passed` entries. Question 7 comes first: so the
// other entries are crossed out too, and 8 refuses only where they all can be. The marks are as they were again.
#[tactic(auto, using(crate::proofs::EntryLaws::refusing))]
fn refused_by(marks: &mut [u8], entries: &[u16], passed: usize) -> Refusal
    requires { CrossedOut entries.now (uncrossed entries.now passed marks.old) passed marks.old }
    ensures marks_after { marks.new ≡ uncrossed entries.now passed marks.old }
    ensures question { result
        ≡ cond (ltb (crossable (uncrossed entries.now passed marks.old) entries.now) (length entries.now))
        Refusal.Entries Refusal.Channels }
{
    let crossed = passed + entries::cross_out(marks, &entries[passed..]);
    entries::mark_again(marks, &entries[..crossed]);
    if crossed < entries.len() {
        Refusal::Entries
    } else {
        Refusal::Channels
    }
}

// Questions 7 to 9 of as many entries as there are marks, and the marks stay as they were where one is answered no.
fn ask(
    program: &Accepted,
    marks: &mut [u8],
    entries: &[u16],
    scratch: &mut Scratch,
) -> Result<(), Refusal>
    requires from { CycleFrom (accepted_in program.now) marks.old entries.now }
    requires known { Known (accepted_in program.now).exprs scratch.old.work.memo }
    requires fresh { Fresh scratch.old.claims }
    ensures { AskAnswer (accepted_in program.now) marks.old entries.now scratch.old result marks.new scratch.new }
{
    if let Err(passed) = channels::pair_entries(program, marks, entries, &mut scratch.claims) {
        return Err(refused_by(marks, entries, passed));
    }
    if let Err(refusal) = stores::work_right_sides(program, scratch, entries) {
        entries::mark_again(marks, entries);
        return Err(refusal);
    }
    Ok(())
}

// The stores and the walks, once questions 7 to 9 are answered yes and the marks, those of the entries, are cleared, and
// question 10: where a zero-time loop was met, all three lists are as before the cycle again.
fn advance(
    program: &Accepted,
    values: &mut [u16],
    marks: &mut [u8],
    counts: &mut [u16],
    entries: &[u16],
    scratch: &mut Scratch,
) -> Result<(), Refusal>
    requires runnable { Runnable (accepted_in program.now)
        (state_of values.old (marks_of (accepted_in program.now) entries.now) counts.old) }
    requires carried { Carried (accepted_in program.now) values.old (marks_of (accepted_in program.now) entries.now)
        scratch.old.work }
    requires started { Started (accepted_in program.now) entries.now scratch.old }
    requires cleared { marks.old ≡ replicate (node_count (accepted_in program.now).nodes) 0 }
    ensures { AdvanceAnswer (accepted_in program.now)
        (state_of values.old (marks_of (accepted_in program.now) entries.now) counts.old) entries.now scratch.old result
        (state_of values.new marks.new counts.new) scratch.new }
{
    stores::store_all(values, &mut scratch.work, &mut scratch.stores);
    scratch.work.tally = 0;
    visits::visit_all(
        program,
        &mut scratch.work,
        marks,
        counts,
        &scratch.claims,
        entries,
    );
    if scratch.work.looped {
        stores::restore_all(values, &scratch.stores);
        undo::undo_walks(program, entries, marks, counts);
        return Err(Refusal::Loop);
    }
    Ok(())
}

// `book` starts at the entries not yet read; the cycle takes as many as there are marks, whose number `scratch` has.
pub fn work_cycle(
    program: &Accepted,
    values: &mut [u16],
    marks: &mut [u8],
    counts: &mut [u16],
    book: &[u16],
    scratch: &mut Scratch,
) -> Result<(), Refusal>
    requires runnable { Runnable (accepted_in program.now) (state_of values.old marks.old counts.old) }
    requires carried { Carried (accepted_in program.now) values.old marks.old scratch.old.work }
    requires fresh { Fresh scratch.old.claims }
    ensures { WorkedCycle (accepted_in program.now) (state_of values.old marks.old counts.old) book.now scratch.old
        result (state_of values.new marks.new counts.new) scratch.new }
{
    let Some(entries) = book.get(..scratch.work.tally as usize) else {
        return Err(Refusal::Entries);
    };
    ask(program, marks, entries, scratch)?;
    advance(program, values, marks, counts, entries, scratch)
}
