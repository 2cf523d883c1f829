// Stores: question 9, whether two completing leaves store to one variable, the right sides in the old values, and the
// stores of a cycle. An IN stores when an OUT is marked on its channel.
ghost use Rattle.std.specs.Prelude.{◌≡◌, false, not, eqb, ◌<◌, length, get_or, set, ℕ, ◌≤◌, MatchOption};
ghost use Rattle.semantics.specs.Completion.{stores};
ghost use Rattle.program.specs.Accepted.{accepted_in};
ghost use Rattle.player.specs.Memo.{Holds};
ghost use Rattle.player.specs.Channels.{marks_of, PairedEntry};
ghost use Rattle.player.specs.Stores.{comes_to, taken_back, HeldFit, Storing, StoresAt, RightSides, Stored};

use crate::claims::Claims;
use crate::scratch::Scratch;
use crate::work::Work;
use crate::{expressions, records};
use arrayvec::ArrayVec;
use program::limits::NODES_MAX;
use program::{Accepted, ChanId, Kind, Leaf, Node, Refusal, VarId};

// A store: its variable, and of the new value and the old one that which the variable does not have now: the new one until the
// store is made, and the old one from then on. The old one is not asked before, nor the new one after: so it is one field.
#[derive(Clone, Copy, Debug, Default)]
pub struct Store {
    variable: VarId,
    value: u16,
}

// The stores of a cycle, at most one for each entry, in the order of the entries.
pub type Stores = ArrayVec<Store, NODES_MAX>;

// The variable that node i, a marked one, stores to, and the expression whose value it stores, where it stores: an ASG
// has both; an IN for which an OUT is marked has the variable, and the OUT the expression.
// The clause is for any entries x.entries of the cycle; they are not handed over, since the claims tell all that is asked.
#[tactic(auto, using(crate::proofs::EntryPairingLaws::channel_slots))]
fn target_and_source(program: &Accepted, claims: &Claims, i: u16) -> Option<(VarId, u16)>
    requires { PairedEntry (accepted_in program.now) claims.now i }
    ensures { (x : PairedEntry (accepted_in program.now) claims.now i)
        → MatchOption result (stores (accepted_in program.now) (marks_of (accepted_in program.now) x.entries) i ≡ false)
        (λ s. StoresAt (accepted_in program.now) (marks_of (accepted_in program.now) x.entries) i s.0.0 s.1) }
{
    let Node { a, b, .. } = records::node(program, i);
    match records::kind(program, i) {
        Kind::Leaf(Leaf::Asg) => Some((VarId(a), b)),
        Kind::Leaf(Leaf::In) => {
            let sender = claims.sender(ChanId(a))?;
            Some((VarId(b), records::node(program, sender).b))
        }
        _ => None,
    }
}

// ---- question 9, and the right sides

// Question 9 of all entries, and their right sides, all in the old values. The stores of the cycle are listed, so that
// making them and taking them back goes over them alone.
pub fn work_right_sides(
    program: &Accepted,
    scratch: &mut Scratch,
    entries: &[u16],
) -> Result<(), Refusal>
    requires { Storing (accepted_in program.now) entries.now scratch.old.work.memo scratch.old.claims }
    ensures { RightSides (accepted_in program.now) entries.now scratch.old result scratch.new }
{
    scratch.stores.clear();
    for &i in entries {
        if let Some((variable, source)) = target_and_source(program, &scratch.claims, i) {
            if !scratch.claims.claim_variable(variable, i) {
                return Err(Refusal::Stores);
            }
            let value = expressions::right_side(program, &mut scratch.work.memo, source);
            scratch.stores.push(Store { variable, value });
        }
    }
    Ok(())
}

// ---- the stores

// The one place that stores: of the value the variable keeps as many bits as it has. Its old value is held from then on.
// Whether the value changed.
fn store_one(values: &mut [u16], work: &mut Work, store: &mut Store) -> bool
    requires { (store.old.variable.0 < length values.old) × (store.old.variable.0 < 256) }
    ensures changed { result
        ≡ not (eqb (get_or values.old store.old.variable.0 0) (comes_to work.old store.old)) }
    ensures values_after { values.new ≡ set values.old store.old.variable.0 (comes_to work.old store.old) }
    ensures work_after { work.new ≡ record work.old {
      memo = record work.old.memo {
        variables = set work.old.memo.variables store.old.variable.0 (comes_to work.old store.old);
      };
    } }
    ensures held { store.new ≡ record store.old { value = get_or values.old store.old.variable.0 0 } }
{
    let value = work.kept(store.variable, store.value);
    let at = store.variable.0 as usize;
    let old = values[at];
    values[at] = value;
    work.memo.variables[at] = value;
    store.value = old;
    old != value
}

// All stores of the cycle. A moment ends where a value changes.
pub fn store_all(values: &mut [u16], work: &mut Work, stores: &mut Stores)
    requires held_fit { HeldFit values.old stores.old.items }
    requires holds { Holds values.old work.old.memo }
    requires past { (e : ℕ) → e < 1024 → get_or work.old.memo.moments e 0 ≤ work.old.memo.present }
    ensures { Stored values.old work.old stores.old.items values.new work.new stores.new.items }
{
    let mut changed = false;
    for store in stores.as_mut_slice() {
        changed = store_one(values, work, store) | changed;
    }
    if changed {
        work.memo.next_moment();
    }
}

// Takes the stores back, the last first. What `work` has of the values stays as it is: no cycle follows.
pub fn restore_all(values: &mut [u16], stores: &Stores)
    requires { HeldFit values.old stores.now.items }
    ensures { values.new ≡ taken_back stores.now.items values.old }
{
    for store in stores.as_slice().iter().rev() {
        values[store.variable.0 as usize] = store.value;
    }
}
