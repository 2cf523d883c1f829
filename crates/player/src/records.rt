// The records of an accepted program, read without a test: the caller knows that there is such a record. With the readers of
// `Program`, which test, most cycles took a fifth to three fifths more instructions. Indices are cast by `as`, which is proved
// to lose nothing: `usize::from` would say no more. The lists are words, three to an expression and five to a node, as C lends
// them. That an index is below the count is asked in each contract, here and wherever a node, an expression or a variable is
// handed over: a type of such numbers would be made at each call, by a proof of the same: no plainer.
ghost use Rattle.std.specs.Prelude.{◌≡◌, ◌*◌, ◌<◌, get_or};
ghost use Rattle.semantics.specs.Program.{expr_count, node_count, kind_at, op_at, p_at, q_at, parent_at, end_at, a_at, b_at};
ghost use Rattle.program.specs.Accepted.{accepted_in};
ghost use Rattle.program.specs.Kinds.{rule_kind};
ghost use Rattle.program.specs.Ops.{rule_op};

use program::{Accepted, Binary, Expr, Kind, Leaf, Node, Op};

// Expression e.
pub fn expr(program: &Accepted, e: u16) -> Expr
    requires { e < expr_count (accepted_in program.now).exprs }
    ensures op { result.op ≡ get_or (accepted_in program.now).exprs (3 * e) 0 }
    ensures p { result.p ≡ p_at (accepted_in program.now).exprs e }
    ensures q { result.q ≡ q_at (accepted_in program.now).exprs e }
{
    let at = 3 * (e as usize);
    let exprs = program.lists.exprs;
    Expr {
        op: exprs[at],
        p: exprs[at + 1],
        q: exprs[at + 2],
    }
}

// The op of expression e. An accepted program has no word that is no op, so that `Below` never stands for one. With
// `unwrap`, which keeps a test for such a word, here and in `kind`, most cycles took a tenth to a fifth more instructions.
#[tactic(auto, using(crate::proofs::AcceptedLaws::op_there))]
pub fn op(program: &Accepted, e: u16) -> Op
    requires { e < expr_count (accepted_in program.now).exprs }
    ensures { rule_op result ≡ op_at (accepted_in program.now).exprs e }
{
    Op::try_from(expr(program, e).op).unwrap_or(Op::Binary(Binary::Below))
}

// Node i.
pub fn node(program: &Accepted, i: u16) -> Node
    requires { i < node_count (accepted_in program.now).nodes }
    ensures kind { result.kind ≡ get_or (accepted_in program.now).nodes (5 * i) 0 }
    ensures parent { result.parent ≡ parent_at (accepted_in program.now).nodes i }
    ensures end { result.end ≡ end_at (accepted_in program.now).nodes i }
    ensures a { result.a ≡ a_at (accepted_in program.now).nodes i }
    ensures b { result.b ≡ b_at (accepted_in program.now).nodes i }
{
    let at = 5 * (i as usize);
    let nodes = program.lists.nodes;
    Node {
        kind: nodes[at],
        parent: nodes[at + 1],
        end: nodes[at + 2],
        a: nodes[at + 3],
        b: nodes[at + 4],
    }
}

// The kind of node i. As in `op`, no other word stands for a delay. One function for both would ask for a trait whose laws
// say which list a word is of, and what it is read as: no plainer.
#[tactic(auto, using(crate::proofs::AcceptedLaws::kind_there))]
pub fn kind(program: &Accepted, i: u16) -> Kind
    requires { i < node_count (accepted_in program.now).nodes }
    ensures { rule_kind result ≡ kind_at (accepted_in program.now).nodes i }
{
    Kind::try_from(node(program, i).kind).unwrap_or(Kind::Leaf(Leaf::Dly))
}
