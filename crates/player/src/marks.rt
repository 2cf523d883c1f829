// Marks, and how many stand: `work` has their number. A mark is the byte 1, as C lends it:
// an enum would not be the same list.
ghost use Rattle.std.specs.Prelude.{◌≡◌, ◌≤◌, ◌<◌, length, set};
ghost use Rattle.semantics.specs.State.{mark_count};
ghost use Rattle.player.specs.Work.{Tallied};

use crate::work::Work;

// The number of marks.
pub fn count_marks(marks: &[u8]) -> u16
    requires { length marks.now ≤ 1024 }
    ensures { result ≡ mark_count marks.now }
{
    marks.iter().filter(|mark| **mark == 1).count() as u16
}

// Marks node i. A node that has a mark already is not counted again.
#[tactic(auto, using(crate::proofs::MarkLaws::marking))]
pub fn mark(work: &mut Work, marks: &mut [u8], i: u16)
    requires { Tallied marks.old work.old × (i < length marks.old) }
    ensures marks_after { marks.new ≡ set marks.old i 1 }
    ensures work_after { work.new ≡ record work.old { tally = mark_count marks.new } }
{
    let at = i as usize;
    if marks[at] != 1 {
        work.tally += 1;
        marks[at] = 1;
    }
}
