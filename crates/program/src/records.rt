// The records of the program lists, and the widths. The lists are those of C: flat lists of words, in which an index names a
// record. A word past the end of a list reads as 0, as the rules read it (`slice_index`), and no reader asks anything of its
// caller.
ghost use Rattle.std.specs.Prelude.{◌≡◌, ◌*◌, slice_index, nat_lt};
ghost use Rattle.semantics.specs.Program.{p_at, q_at, parent_at, end_at, a_at, b_at, expr_count, node_count};
ghost use Rattle.semantics.specs.Widths.{width_at};

use super::{ChanId, Program, VarId};

// The words of an expression, as C's lists have them. The op is a word, since question 2 asks whether it is that of an op.
#[derive(Clone, Copy, Debug, PartialEq, Eq)]
pub struct Expr {
    pub op: u16,
    pub p: u16,
    pub q: u16,
}

// The words of a node, as C's lists have them. The kind is a word, since question 3 asks whether it is that of a kind.
#[derive(Clone, Copy, Debug, PartialEq, Eq)]
pub struct Node {
    pub kind: u16,
    pub parent: u16,
    pub end: u16,
    pub a: u16,
    pub b: u16,
}

// Word `at` of any list.
pub fn word_at(list: &[u16], at: usize) -> u16
    ensures { result ≡ slice_index list.now at }
{
    list.get(at).copied().unwrap_or(0)
}

impl Program<'_> {
    pub fn expr(&self, i: u16) -> Expr
        ensures op { result.op ≡ slice_index self.now.exprs.now (3 * i) }
        ensures p { result.p ≡ p_at self.now.exprs.now i }
        ensures q { result.q ≡ q_at self.now.exprs.now i }
    {
        let at = 3 * (i as usize);
        Expr {
            op: word_at(self.exprs, at),
            p: word_at(self.exprs, at + 1),
            q: word_at(self.exprs, at + 2),
        }
    }

    pub fn node(&self, i: u16) -> Node
        ensures kind { result.kind ≡ slice_index self.now.nodes.now (5 * i) }
        ensures parent { result.parent ≡ parent_at self.now.nodes.now i }
        ensures end { result.end ≡ end_at self.now.nodes.now i }
        ensures a { result.a ≡ a_at self.now.nodes.now i }
        ensures b { result.b ≡ b_at self.now.nodes.now i }
    {
        let at = 5 * (i as usize);
        Node {
            kind: word_at(self.nodes, at),
            parent: word_at(self.nodes, at + 1),
            end: word_at(self.nodes, at + 2),
            a: word_at(self.nodes, at + 3),
            b: word_at(self.nodes, at + 4),
        }
    }

    pub fn width(&self, v: VarId) -> u16
        ensures { result ≡ width_at self.now.widths.now v.0 }
    {
        word_at(self.widths, v.0 as usize)
    }

    // How many expressions and nodes the lists hold. One method would be told the list and the words of a record: no plainer.
    pub fn expr_count(&self) -> usize
        ensures { result ≡ expr_count self.now.exprs.now }
    {
        self.exprs.len() / 3
    }

    pub fn node_count(&self) -> usize
        ensures { result ≡ node_count self.now.nodes.now }
    {
        self.nodes.len() / 5
    }

    // Which numbers name a variable, a channel or an expression of the program. One method would be told which: no plainer.
    pub fn has_var(&self, v: VarId) -> bool
        ensures { result ≡ nat_lt v.0 self.now.vars }
    {
        v.0 < self.vars
    }

    pub fn has_chan(&self, c: ChanId) -> bool
        ensures { result ≡ nat_lt c.0 self.now.chans }
    {
        c.0 < self.chans
    }

    pub fn has_expr(&self, e: u16) -> bool
        ensures { result ≡ nat_lt e (expr_count self.now.exprs.now) }
    {
        (e as usize) < self.expr_count()
    }
}
