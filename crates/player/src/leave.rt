// Leaving a node, a climb: each turn leaves one node. `Climbing` is said of a program and a `Work`, `Walking` of the lent lists
// besides: none has the others, so that no field says it. The lists stay parameters beside `work`: of a struct that holds a
// `&mut` each function would have to say that it is still the same list.
ghost use Rattle.std.specs.Prelude.{◌≡◌, ◌<◌, ◌≤◌, ℕ};
ghost use Rattle.std.proofs.Math.Option.{some};
ghost use Rattle.semantics.specs.Program.{node_count, kind_at};
ghost use Rattle.semantics.specs.Program.Kind.{SEQ};
ghost use Rattle.semantics.specs.Parents.{parent};
ghost use Rattle.semantics.specs.Walk.{leave};
ghost use Rattle.semantics.specs.Climb.{Climbs};
ghost use Rattle.program.specs.Accepted.{accepted_in};
ghost use Rattle.player.specs.Work.{Climbing};
ghost use Rattle.player.specs.Walks.{walk_in, holds_now, Walking, Walks, Turned, Branches};

use crate::work::Work;
use crate::{enter, records, threads};
use program::limits::NO_PARENT;
use program::{Accepted, Kind};

// Node i, a child of SEQ h, is left: the next child is entered alone; if it stays, the climb is over, and if it finishes,
// the next turn leaves it. With no next child the next turn leaves the SEQ.
#[tactic(auto, using(crate::proofs::AcceptedNodeLaws::seq_left))]
fn after_child(
    program: &Accepted,
    work: &mut Work,
    marks: &mut [u8],
    counts: &mut [u16],
    i: u16,
    h: u16,
) -> Option<u16>
    requires walking { Walking (accepted_in program.now) marks.old counts.old work.old }
    requires i_bound { (i < node_count (accepted_in program.now).nodes)
        × (parent (accepted_in program.now).nodes i ≡ some h) × (kind_at (accepted_in program.now).nodes h ≡ SEQ) }
    ensures { Turned (accepted_in program.now) work.old i (walk_in marks.old counts.old work.old)
        result marks.new counts.new work.new }
{
    let next = records::node(program, i).end;
    if records::node(program, h).end <= next {
        return Some(h);
    }
    enter::enter_child(program, work, marks, counts, next).finished(next)
}

// A child of node h, an IF or a WHL, is left. An IF is left in the next turn, and so is a WHL that is false. A WHL that is
// true enters its child again, which is a zero-time loop if the child finishes.
#[tactic(auto, using(crate::proofs::AcceptedNodeLaws::body_left))]
fn after_body(
    program: &Accepted,
    work: &mut Work,
    marks: &mut [u8],
    counts: &mut [u16],
    h: u16,
) -> Option<u16>
    requires walking { Walking (accepted_in program.now) marks.old counts.old work.old }
    requires h_bound { (h < node_count (accepted_in program.now).nodes) × Branches (accepted_in program.now).nodes h }
    ensures { (i : ℕ) → i < node_count (accepted_in program.now).nodes → parent (accepted_in program.now).nodes i ≡ some h
        → Turned (accepted_in program.now) work.old i (walk_in marks.old counts.old work.old)
        result marks.new counts.new work.new }
{
    if records::kind(program, h) == Kind::If {
        return Some(h);
    }
    if !enter::holds(program, &mut work.memo, h) {
        return Some(h);
    }
    let outcome = enter::enter_child(program, work, marks, counts, h + 1);
    enter::pass(work, true, outcome).finished(h)
}

// One turn: node i is left. Gives the node that the next turn leaves, or none where the climb is over: leaving node 0, which
// has no parent, does nothing. A PAR counts one thread fewer, and is left with the last. A leaf is no parent.
#[tactic(auto, using(crate::proofs::AcceptedNodeLaws::child_left))]
pub fn turn(
    program: &Accepted,
    work: &mut Work,
    marks: &mut [u8],
    counts: &mut [u16],
    i: u16,
) -> Option<u16>
    requires walking { Walking (accepted_in program.now) marks.old counts.old work.old }
    requires i_bound { (i < node_count (accepted_in program.now).nodes) × Climbing (accepted_in program.now).nodes work.old }
    ensures { Turned (accepted_in program.now) work.old i (walk_in marks.old counts.old work.old)
        result marks.new counts.new work.new }
{
    let h = work.parents[i as usize];
    if h == NO_PARENT {
        return None;
    }
    match records::kind(program, h) {
        Kind::If | Kind::Whl => after_body(program, work, marks, counts, h),
        Kind::Seq => after_child(program, work, marks, counts, i, h),
        Kind::Par => {
            threads::lower(counts, h);
            threads::outcome(counts, h).finished(h)
        }
        Kind::Leaf(_) => None,
    }
}

// Leave node i. Gives the number of turns, which is N at most: after each turn the node that is left next has a later place in
// the order in which a walk of the whole tree leaves the nodes. By `successors` the step would be a closure that writes the lent
// lists: no plainer.
#[tactic(auto, using(crate::proofs::TurnLaws::climb_turns))]
pub fn leave(
    program: &Accepted,
    work: &mut Work,
    marks: &mut [u8],
    counts: &mut [u16],
    i: u16,
) -> u16
    requires walking { Walking (accepted_in program.now) marks.old counts.old work.old }
    requires i_bound { (i < node_count (accepted_in program.now).nodes) × Climbing (accepted_in program.now).nodes work.old }
    ensures walks { Walks (accepted_in program.now) work.old
        (leave (holds_now (accepted_in program.now) work.old.memo) (accepted_in program.now).nodes i
        (walk_in marks.old counts.old work.old))
        marks.new counts.new work.new }
    ensures turns { Climbs (holds_now (accepted_in program.now) work.old.memo) (accepted_in program.now).nodes i
        (walk_in marks.old counts.old work.old) result (walk_in marks.new counts.new work.new) }
    ensures few { result ≤ node_count (accepted_in program.now).nodes }
{
    let mut next = Some(i);
    let mut turns = 0;
    while let Some(node) = next {
        next = turn(program, work, marks, counts, node);
        turns += 1;
    }
    turns
}
