// Thread counts: the count of a PAR is the number of its children that have not finished.
ghost use Rattle.std.specs.Prelude.{◌≡◌, suc, ◌<◌, length};
ghost use Rattle.semantics.specs.Program.{node_count, end_at};
ghost use Rattle.semantics.specs.Tree.{statements};
ghost use Rattle.semantics.specs.Walk.{child_count};
ghost use Rattle.program.specs.Accepted.{accepted_in};
ghost use Rattle.player.specs.Walks.{lowered, outcome_at};

use crate::outcome::Outcome;
use crate::records;
use program::Accepted;

// PAR h is finished at count 0.
pub fn outcome(counts: &[u16], h: u16) -> Outcome
    requires { h < length counts.now }
    ensures { result ≡ outcome_at counts.now h }
{
    if counts[h as usize] == 0 {
        Outcome::Finished
    } else {
        Outcome::Stays
    }
}

// The number of children of node h. By `successors` the step `child = node(child).end` would be a closure that is asked for what
// follows `end` too, where there may be no node: it would have a test of its own besides, and the law of its chain: no plainer.
// An `Iterator` of our own would need a type, its laws and its chain, for three loops of four lines.
#[tactic(auto, using(crate::proofs::AcceptedNodeLaws::counting_children))]
pub fn count_children(program: &Accepted, h: u16) -> u16
    requires { h < node_count (accepted_in program.now).nodes }
    ensures { result
        ≡ child_count (statements (accepted_in program.now).nodes (suc h) (end_at (accepted_in program.now).nodes h)) }
{
    let end = records::node(program, h).end;
    let mut count = 0;
    let mut child = h + 1;
    while child < end {
        count += 1;
        child = records::node(program, child).end;
    }
    count
}

// One less; a count of 0 stays.
pub fn lower(counts: &mut [u16], h: u16)
    requires { h < length counts.old }
    ensures { counts.new ≡ lowered counts.old h }
{
    let at = h as usize;
    counts[at] = counts[at].saturating_sub(1);
}
