// The walks of a cycle, entry after entry: a leaf that waits is marked again, and one that completes is left. The lent lists stay
// parameters beside `work`: of a struct that holds a `&mut` each function would have to say that it is still the same list.
ghost use mathlib.Core.List.{foldl};
ghost use Rattle.program.specs.Accepted.{accepted_in};
ghost use Rattle.player.specs.Work.{Climbing};
ghost use Rattle.player.specs.Walks.{walk_in, holds_now, Walking, Walks};
ghost use Rattle.player.specs.Channels.{CycleOf, Paired, PairedEntry};
ghost use Rattle.player.specs.Cycle.{visit_in};

use crate::claims::Claims;
use crate::work::Work;
use crate::{channels, leave, marks};
use program::Accepted;

// Entry i. The entries of the cycle are not handed over, for the claims tell all that is asked of them: what it ensures
// names them by an x, whose entries are those that the claims are made of.
#[tactic(auto, unfolding(semantics::specs::Cycle::visit))]
fn visit(
    program: &Accepted,
    work: &mut Work,
    marks: &mut [u8],
    counts: &mut [u16],
    claims: &Claims,
    i: u16,
)
    requires walking { Walking (accepted_in program.now) marks.old counts.old work.old }
    requires paired_entry { PairedEntry (accepted_in program.now) claims.now i }
    requires climbing { Climbing (accepted_in program.now).nodes work.old }
    ensures { (x : PairedEntry (accepted_in program.now) claims.now i) → Walks (accepted_in program.now) work.old
        (visit_in (accepted_in program.now) x.entries (holds_now (accepted_in program.now) work.old.memo)
        (walk_in marks.old counts.old work.old) i)
        marks.new counts.new work.new }
{
    if channels::waits(program, claims, i) {
        marks::mark(work, marks, i);
    } else {
        leave::leave(program, work, marks, counts, i);
    }
}

// All entries.
pub fn visit_all(
    program: &Accepted,
    work: &mut Work,
    marks: &mut [u8],
    counts: &mut [u16],
    claims: &Claims,
    entries: &[u16],
)
    requires walking { Walking (accepted_in program.now) marks.old counts.old work.old }
    requires cycle { CycleOf (accepted_in program.now) entries.now }
    requires paired { Paired (accepted_in program.now) entries.now claims.now }
    requires climbing { Climbing (accepted_in program.now).nodes work.old }
    ensures { Walks (accepted_in program.now) work.old
        (foldl (visit_in (accepted_in program.now) entries.now (holds_now (accepted_in program.now) work.old.memo))
        (walk_in marks.old counts.old work.old) entries.now)
        marks.new counts.new work.new }
{
    for &i in entries {
        visit(program, work, marks, counts, claims, i);
    }
}
