// What a run, a turn by itself, or the entering of node 0 starts with in `work`.
ghost use Rattle.std.specs.Prelude.{◌≡◌, ◌≤◌, length, replicate, ℕ, List};
ghost use Rattle.semantics.specs.Program.{node_count};
ghost use Rattle.program.specs.Accepted.{accepted_in};
ghost use Rattle.player.specs.Memo.{Known, Holds};
ghost use Rattle.player.specs.Work.{Climbing, Masks, new_work};
ghost use Rattle.player.specs.Cycle.{Carried};

use crate::work::Work;
use crate::{marks, records, widths};
use program::{Accepted, VarId};

// The values of the variables, at the first moment, at which nothing is worked. So it is known of any expressions, and no
// program is handed over to say of which.
#[tactic(auto, using(crate::proofs::StartLaws::value_written))]
pub fn fill_values(values: &[u16], work: &mut Work)
    requires values_len { length values.now ≤ 256 }
    requires new { work.old ≡ new_work }
    ensures known { (exprs : List ℕ) → Known exprs work.new.memo }
    ensures holds { Holds values.now work.new.memo }
    ensures kept { work.new ≡ record new_work { memo = work.new.memo } }
{
    work.memo.variables[..values.len()].copy_from_slice(values);
}

// The parents of the nodes, over zeros. One function for this and `fill_masks` would be handed the list, its length and a closure
// that reads an entry, which is all that the two loops say: no plainer.
#[tactic(auto, using(crate::proofs::StartLaws::parents_filled))]
fn fill_parents(program: &Accepted, work: &mut Work)
    requires { work.old.parents ≡ replicate 1024 0 }
    ensures climbing { Climbing (accepted_in program.now).nodes work.new }
    ensures kept { work.new ≡ record work.old { parents = work.new.parents } }
{
    let count = program.lists.node_count() as u16;
    for i in 0..count {
        work.parents[i as usize] = records::node(program, i).parent;
    }
}

// The masks of the variables, over zeros.
#[tactic(auto, using(crate::proofs::StartLaws::masks_filled))]
fn fill_masks(program: &Accepted, work: &mut Work)
    requires { work.old.masks ≡ replicate 256 0 }
    ensures masks { Masks (accepted_in program.now).widths work.new }
    ensures kept { work.new ≡ record work.old { masks = work.new.masks } }
{
    for v in 0..program.lists.vars {
        work.masks[v as usize] = widths::greatest(program, VarId(v));
    }
}

// All that a run hands to its first cycle, and a turn by itself starts with.
#[tactic(auto, using(crate::proofs::AcceptedLaws::sizes_fit))]
pub fn fill(program: &Accepted, values: &[u16], marks: &[u8], work: &mut Work)
    requires values_len { length values.now ≡ (accepted_in program.now).variables }
    requires marks_len { length marks.now ≡ node_count (accepted_in program.now).nodes }
    requires new { work.old ≡ new_work }
    ensures { Carried (accepted_in program.now) values.now marks.now work.new }
{
    fill_values(values, work);
    fill_masks(program, work);
    fill_parents(program, work);
    work.tally = marks::count_marks(marks);
}
