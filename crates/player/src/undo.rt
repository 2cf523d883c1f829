// The marks and counts before a cycle that question 10 refuses. The entries were the marked nodes, and in a well-formed
// state the counts follow from the marks: neither has to be kept. `ListsFit` is said of a program and lent lists: no field says
// it.
ghost use Rattle.std.specs.Prelude.{◌≡◌, cond, ℕ, ◌<◌, length, get_or, replicate};
ghost use Rattle.semantics.specs.Program.{node_count, is_par};
ghost use Rattle.program.specs.Kinds.{rule_kind};
ghost use Rattle.program.specs.Accepted.{accepted_in};
ghost use Rattle.player.specs.Entries.{set_all};
ghost use Rattle.player.specs.WellFormed.{ListsFit, count_from};

use crate::{entries, records, well_formed};
use program::limits::NODES_MAX;
use program::{Accepted, Kind};

// The count of a node of a kind, of whose children so many are live.
fn count_for(kind: Kind, live: u16) -> u16
    ensures { result ≡ cond (is_par (rule_kind kind)) live 0 }
{
    if kind == Kind::Par { live } else { 0 }
}

// The counts of all nodes, from the last to the first. The loop has an index, for `live` is written at a parent too.
// `control_formed` has such a table and loop; one function for both would hand three lists to a closure that writes or
// asks: no plainer.
fn recount(program: &Accepted, marks: &[u8], counts: &mut [u16])
    requires { ListsFit (accepted_in program.now) marks.now counts.old }
    ensures { (i : ℕ) → i < node_count (accepted_in program.now).nodes
        → get_or counts.new i 0 ≡ count_from (accepted_in program.now).nodes marks.now i }
{
    // As long as any program needs, for the player has no heap.
    let mut live = [0u16; NODES_MAX];
    for at in (0..marks.len()).rev() {
        let i = at as u16;
        let own = live[at];
        counts[at] = count_for(records::kind(program, i), own);
        let holds = entries::is_marked(marks, i) | (0 < own);
        well_formed::add_to_parent(program, i, holds, &mut live);
    }
}

// Marks the entries alone, and counts the threads anew.
pub fn undo_walks(program: &Accepted, entries: &[u16], marks: &mut [u8], counts: &mut [u16])
    requires lists_fit { ListsFit (accepted_in program.now) marks.old counts.old }
    requires entries_fit { (k : ℕ) → k < length entries.now → get_or entries.now k 0 < length marks.old }
    ensures marks_after { marks.new ≡ set_all 1 (replicate (length marks.old) 0) entries.now }
    ensures counts_after { (i : ℕ) → i < node_count (accepted_in program.now).nodes
        → get_or counts.new i 0 ≡ count_from (accepted_in program.now).nodes marks.new i }
{
    marks.fill(0);
    entries::mark_again(marks, entries);
    recount(program, marks, counts);
}
