// Question 3 at one node, whose place in the tree is known.
ghost use Rattle.std.specs.Prelude.{◌≡◌, ◌+◌, cond, true, nat_eq};
ghost use Rattle.semantics.specs.Program.{node_count, is_leaf};
ghost use Rattle.semantics.specs.Check.{kind_ok, end_within, end_ok, parent_ok, children_ok, unused_ok, node_ok};
ghost use Rattle.program.specs.Kinds.{rule_kind};
ghost use Rattle.program.specs.Places.{parent_in, IsPlace};

use super::limits::{DEPTH_MAX, NO_PARENT};
use super::tree::Place;
use super::{Kind, Leaf, Node, Program};

// A node without a parent ends with the list.
#[tactic(auto, unfolding(semantics::specs::Check::end_within))]
fn end_within(program: &Program, i: u16, above: Option<u16>) -> bool
    ensures { result ≡ end_within program.now.nodes.now i (parent_in above) }
{
    let end = program.node(i).end;
    match above {
        Some(h) => end <= program.node(h).end,
        None => (end as usize) == program.node_count(),
    }
}

// Only node 0 may have no parent.
#[tactic(auto, unfolding(semantics::specs::Check::parent_ok))]
fn parent_ok(i: u16, word: u16, above: Option<u16>) -> bool
    ensures { result ≡ parent_ok i word (parent_in above) }
{
    match above {
        Some(h) => word == h,
        None => (i == 0) & (word == NO_PARENT),
    }
}

#[tactic(auto, unfolding(semantics::specs::Check::children_ok))]
fn children_ok(kind: Kind, n: u16) -> bool
    ensures { result ≡ children_ok (rule_kind kind) n }
{
    match kind {
        Kind::Seq => 1 <= n,
        Kind::Par => 2 <= n,
        Kind::If => (1..=2).contains(&n),
        Kind::Whl => n == 1,
        Kind::Leaf(_) => n == 0,
    }
}

#[tactic(auto, unfolding(semantics::specs::Check::unused_ok))]
fn unused_ok(kind: Kind, a: u16, b: u16) -> bool
    ensures { result ≡ unused_ok (rule_kind kind) a b }
{
    match kind {
        Kind::Seq | Kind::Par | Kind::Leaf(Leaf::Dly) => (a == 0) & (b == 0),
        Kind::If | Kind::Whl => b == 0,
        Kind::Leaf(_) => true,
    }
}

fn leaf_end_ok(kind: Kind, i: u16, end: u16) -> bool
    ensures { result ≡ cond (is_leaf (rule_kind kind)) (nat_eq end (i + 1)) true }
{
    match kind {
        Kind::Leaf(_) => (end as usize) == (i as usize) + 1,
        _ => true,
    }
}

// Node i has no fault of question 3.
#[tactic(auto, unfolding(semantics::specs::Check::node_ok, semantics::specs::Check::kind_ok, semantics::specs::Check::end_ok))]
pub fn node_ok(program: &Program, i: u16, place: Place) -> bool
    requires { IsPlace program.now.nodes.now (node_count program.now.nodes.now) i place }
    ensures { result ≡ node_ok program.now.nodes.now i }
{
    let Node {
        kind,
        parent,
        end,
        a,
        b,
    } = program.node(i);
    let Ok(kind) = Kind::try_from(kind) else {
        return false;
    };
    let above = place.above();
    ((i < end) & end_within(program, i, above) & leaf_end_ok(kind, i, end))
        & parent_ok(i, parent, above)
        & (place.depth <= DEPTH_MAX)
        & children_ok(kind, place.child_count)
        & unused_ok(kind, a, b)
}
