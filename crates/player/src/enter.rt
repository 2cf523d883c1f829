// Entering a node. `Walking` is said of a program, two lent lists and a `Work`, of which none has the others (work.rt says why):
// so no field says it, nor `Branches`, of a number and a program. The lists stay parameters beside `work`: of a struct that
// holds a `&mut` each function would have to say that it is still the same list.
ghost use Rattle.std.specs.Prelude.{◌≡◌, ◌<◌};
ghost use Rattle.semantics.specs.Program.{node_count, kind_at, a_at};
ghost use Rattle.semantics.specs.Program.Kind.{SEQ, PAR};
ghost use Rattle.program.specs.Accepted.{accepted_in};
ghost use Rattle.player.specs.Memo.{Known, SameMoment};
ghost use Rattle.player.specs.Walks.{entering, holds_now, Walking, Enters, ButLast, Chosen, Branches, passed_by};

use crate::memo::Memo;
use crate::outcome::Outcome;
use crate::work::Work;
use crate::{expressions, marks, records, threads};
use program::{Accepted, Kind};

// Whether the condition of node i is true in the values of the moment.
#[tactic(auto, using(crate::proofs::ChosenLaws::condition_within))]
pub fn holds(program: &Accepted, memo: &mut Memo, i: u16) -> bool
    requires i_bound { (i < node_count (accepted_in program.now).nodes) × Branches (accepted_in program.now).nodes i }
    requires known { Known (accepted_in program.now).exprs memo.old }
    ensures value { result ≡ holds_now (accepted_in program.now) memo.old (a_at (accepted_in program.now).nodes i) }
    ensures known { Known (accepted_in program.now).exprs memo.new × SameMoment memo.old memo.new }
{
    expressions::value(program, memo, records::node(program, i).a) != 0
}

// Where a WHL was passed, finishing is a zero-time loop. Gives the outcome as it is. The loop sets a flag and gives no Err: the
// walk goes on after it, as the rules do, so that the contract of each walk is an equation without a case for it.
pub fn pass(work: &mut Work, looping: bool, outcome: Outcome) -> Outcome
    ensures value { result ≡ outcome }
    ensures work_after { work.new ≡ passed_by looping outcome work.old }
{
    if looping & (outcome == Outcome::Finished) {
        work.looped = true;
    }
    outcome
}

// The child that node i, an IF or a WHL, enters, if it enters one.
#[tactic(auto, using(crate::proofs::ChosenLaws::branching))]
fn chosen(program: &Accepted, memo: &mut Memo, i: u16) -> Option<u16>
    requires i_bound { (i < node_count (accepted_in program.now).nodes) × Branches (accepted_in program.now).nodes i }
    requires known { Known (accepted_in program.now).exprs memo.old }
    ensures chosen { Chosen (accepted_in program.now) memo.old i result }
    ensures known { Known (accepted_in program.now).exprs memo.new × SameMoment memo.old memo.new }
{
    if holds(program, memo, i) {
        return Some(i + 1);
    }
    if records::kind(program, i) == Kind::If {
        let second = records::node(program, i + 1).end;
        if second < records::node(program, i).end {
            return Some(second);
        }
    }
    None
}

// Enter node i. What an IF, a WHL or a SEQ at its last child goes on with is entered in the next turn of the loop, and not by a
// call, so that calls nest only at children of PARs and at those of SEQs that are not the last. `looping` says whether a WHL was
// passed on the way.
#[tactic(auto, using(crate::proofs::AcceptedNodeLaws::one_node), unfolding(crate::specs::Walks::passed))]
#[cycle(enter_but_last_enter_child_enter_each_enter_node)]
pub fn enter_node(
    program: &Accepted,
    work: &mut Work,
    marks: &mut [u8],
    counts: &mut [u16],
    i: u16,
) -> Outcome
    requires walking { Walking (accepted_in program.now) marks.old counts.old work.old }
    requires i_bound { i < node_count (accepted_in program.now).nodes }
    ensures { Enters (accepted_in program.now) work.old
        (entering (accepted_in program.now) marks.old counts.old work.old i)
        result marks.new counts.new work.new }
{
    let mut node = i;
    let mut looping = false;
    loop {
        let kind = records::kind(program, node);
        match kind {
            Kind::Leaf(_) => {
                marks::mark(work, marks, node);
                return Outcome::Stays;
            }
            Kind::Seq => match enter_but_last(program, work, marks, counts, node) {
                Some(last) => node = last,
                None => return Outcome::Stays,
            },
            Kind::Par => {
                let outcome = enter_each(program, work, marks, counts, node);
                return pass(work, looping, outcome);
            }
            Kind::If | Kind::Whl => match chosen(program, &mut work.memo, node) {
                Some(child) => {
                    looping |= kind == Kind::Whl;
                    node = child;
                }
                None => return pass(work, looping, Outcome::Finished),
            },
        }
    }
}

// Enter node i; a leaf at once, without a call. With a call for a leaf too most cycles took 16 to 37 % more instructions.
#[tactic(auto, using(crate::proofs::AcceptedNodeLaws::leaf_entered))]
#[cycle(enter_but_last_enter_child_enter_each_enter_node)]
pub fn enter_child(
    program: &Accepted,
    work: &mut Work,
    marks: &mut [u8],
    counts: &mut [u16],
    i: u16,
) -> Outcome
    requires walking { Walking (accepted_in program.now) marks.old counts.old work.old }
    requires i_bound { i < node_count (accepted_in program.now).nodes }
    ensures { Enters (accepted_in program.now) work.old
        (entering (accepted_in program.now) marks.old counts.old work.old i)
        result marks.new counts.new work.new }
{
    if let Kind::Leaf(_) = records::kind(program, i) {
        marks::mark(work, marks, i);
        return Outcome::Stays;
    }
    enter_node(program, work, marks, counts, i)
}

// Enter the children of SEQ h in turn until one stays, but for the last. The last, if none stays. By `successors` the step would
// be a closure that is asked for what follows `end` too, where there may be no node, and the last child would have to be kept
// back besides: no plainer.
#[tactic(auto, using(crate::proofs::AcceptedNodeLaws::but_last))]
#[cycle(enter_but_last_enter_child_enter_each_enter_node)]
fn enter_but_last(
    program: &Accepted,
    work: &mut Work,
    marks: &mut [u8],
    counts: &mut [u16],
    h: u16,
) -> Option<u16>
    requires walking { Walking (accepted_in program.now) marks.old counts.old work.old }
    requires h_bound { (h < node_count (accepted_in program.now).nodes) × (kind_at (accepted_in program.now).nodes h ≡ SEQ) }
    ensures { ButLast (accepted_in program.now) work.old h
        (entering (accepted_in program.now) marks.old counts.old work.old h)
        result marks.new counts.new work.new }
{
    let end = records::node(program, h).end;
    let mut child = h + 1;
    let mut next = records::node(program, child).end;
    while next < end {
        if enter_child(program, work, marks, counts, child) == Outcome::Stays {
            return None;
        }
        child = next;
        next = records::node(program, child).end;
    }
    Some(child)
}

// Enter every child of PAR h, first child first. Each that finishes lowers the count; the PAR is finished at 0. By
// `successors` the step would be a closure that is asked for what follows `end` too, where there may be no node: no plainer.
#[tactic(auto, using(crate::proofs::AcceptedNodeLaws::each))]
#[cycle(enter_but_last_enter_child_enter_each_enter_node)]
fn enter_each(
    program: &Accepted,
    work: &mut Work,
    marks: &mut [u8],
    counts: &mut [u16],
    h: u16,
) -> Outcome
    requires walking { Walking (accepted_in program.now) marks.old counts.old work.old }
    requires h_bound { (h < node_count (accepted_in program.now).nodes) × (kind_at (accepted_in program.now).nodes h ≡ PAR) }
    ensures { Enters (accepted_in program.now) work.old
        (entering (accepted_in program.now) marks.old counts.old work.old h)
        result marks.new counts.new work.new }
{
    counts[h as usize] = threads::count_children(program, h);
    let end = records::node(program, h).end;
    let mut child = h + 1;
    while child < end {
        if enter_child(program, work, marks, counts, child) == Outcome::Finished {
            threads::lower(counts, h);
        }
        child = records::node(program, child).end;
    }
    threads::outcome(counts, h)
}
