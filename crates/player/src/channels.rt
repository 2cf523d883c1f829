// Channels: question 8, whether a channel has two marked IN or two marked OUT, and which leaves wait.
ghost use Rattle.std.specs.Prelude.{◌≡◌, ◌<◌, length};
ghost use Rattle.semantics.specs.Program.{node_count, a_at};
ghost use Rattle.semantics.specs.Completion.{waits};
ghost use Rattle.program.specs.Accepted.{accepted_in};
ghost use Rattle.player.specs.Claims.{Fresh};
ghost use Rattle.player.specs.Channels.{marks_of, PairedEntry, EntryPairing, CrossedTo};

use crate::claims::Claims;
use crate::{entries, records};
use program::{Accepted, ChanId, Kind, Leaf};

// The channel of an IN or OUT.
fn channel_of(program: &Accepted, i: u16) -> ChanId
    requires { i < node_count (accepted_in program.now).nodes }
    ensures { result.0 ≡ a_at (accepted_in program.now).nodes i }
{
    ChanId(records::node(program, i).a)
}

// Node i claims its channel, for input if it is an IN and for output if it is an OUT: whether it was free, a bool as in `claim`.
// `PairedEntry`, here and in stores.rt and visits.rt, is said of a program, claims and a number, of which none has the others.
#[tactic(auto, using(crate::proofs::EntryPairingLaws::pairing_one))]
fn pair_one(program: &Accepted, i: u16, claims: &mut Claims) -> bool
    requires { i < node_count (accepted_in program.now).nodes }
    ensures { EntryPairing (accepted_in program.now).nodes i result claims.old claims.new }
{
    let channel = channel_of(program, i);
    match records::kind(program, i) {
        Kind::Leaf(Leaf::In) => claims.claim_input(channel, i),
        Kind::Leaf(Leaf::Out) => claims.claim_output(channel, i),
        _ => true,
    }
}

// Questions 7 and 8 in one pass: each entry is crossed out of the marks and claims its channel. The pass stops at the first entry
// that has no mark any more, or whose channel is claimed already, and gives the number of entries before it.
pub fn pair_entries(
    program: &Accepted,
    marks: &mut [u8],
    entries: &[u16],
    claims: &mut Claims,
) -> Result<(), usize>
    requires marks_len { length marks.old ≡ node_count (accepted_in program.now).nodes }
    requires fresh { Fresh claims.old }
    ensures { CrossedTo (accepted_in program.now) entries.now marks.old claims.old result marks.new claims.new }
{
    for (k, &i) in entries.iter().enumerate() {
        if !entries::is_marked(marks, i) {
            return Err(k);
        }
        if !pair_one(program, i, claims) {
            return Err(k);
        }
        entries::cross(marks, i);
    }
    Ok(())
}

// Whether node i, a marked one, waits: an IN with no OUT marked on its channel, or an OUT with no IN.
// The clause is for any entries x.entries of the cycle; they are not handed over, since the claims tell all that is asked.
#[tactic(auto, using(crate::proofs::EntryPairingLaws::channel_slots, crate::proofs::PairingLaws::never_waits))]
pub fn waits(program: &Accepted, claims: &Claims, i: u16) -> bool
    requires { PairedEntry (accepted_in program.now) claims.now i }
    ensures { (x : PairedEntry (accepted_in program.now) claims.now i)
        → result ≡ waits (accepted_in program.now) (marks_of (accepted_in program.now) x.entries) i }
{
    match records::kind(program, i) {
        Kind::Leaf(Leaf::In) => claims.sender(channel_of(program, i)).is_none(),
        Kind::Leaf(Leaf::Out) => claims.receiver(channel_of(program, i)).is_none(),
        _ => false,
    }
}
