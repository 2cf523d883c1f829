// Question 7: each entry is crossed out of the lent marks. When all are crossed out no mark is left, for there are as many
// entries as marks: so the marks are cleared for the walks. Each pass over the entries of a cycle, here and in channels.rt,
// stores.rt and visits.rt, has its own loop: one for all would be handed what to do at an entry as a closure: no plainer.
ghost use Rattle.std.specs.Prelude.{◌≡◌, ℕ, ◌<◌, length, get_or, set, take};
ghost use Rattle.semantics.specs.State.{marked};
ghost use Rattle.player.specs.Entries.{crossable, set_all};

// Whether node i has a mark.
pub fn is_marked(marks: &[u8], i: u16) -> bool
    ensures { result ≡ marked marks.now i }
{
    marks.get(i as usize) == Some(&1)
}

// Crosses node i out.
pub fn cross(marks: &mut [u8], i: u16)
    requires { i < length marks.old }
    ensures { marks.new ≡ set marks.old i 0 }
{
    marks[i as usize] = 0;
}

// Crosses entries out up to the first that has no mark, or none any more. Gives the number of entries before it, `entries.len()`
// where all are crossed out: no Result, for its caller goes on with the number in both cases. It goes on where `pair_entries`
// stopped. One function for both would be told by a closure what else is asked of an entry, and its contract would have to say
// of any closure what the closure of `pair_entries` did to the claims: no plainer.
pub fn cross_out(marks: &mut [u8], entries: &[u16]) -> usize
    ensures value { result ≡ crossable marks.old entries.now }
    ensures marks_after { marks.new ≡ set_all 0 marks.old (take result entries.now) }
{
    for (k, &i) in entries.iter().enumerate() {
        if !is_marked(marks, i) {
            return k;
        }
        cross(marks, i);
    }
    entries.len()
}

// Marks the entries again: what crossing them out undid.
pub fn mark_again(marks: &mut [u8], entries: &[u16])
    requires { (k : ℕ) → k < length entries.now → get_or entries.now k 0 < length marks.old }
    ensures { marks.new ≡ set_all 1 marks.old entries.now }
{
    for &i in entries {
        marks[i as usize] = 1;
    }
}
