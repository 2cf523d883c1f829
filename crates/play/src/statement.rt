// A statement of a program.
use program::{Kind, Leaf, Node, UnknownKind};
use std::fmt;

#[derive(Clone, Copy)]
pub struct Statement(pub Node);

impl Statement {
    pub fn kind(self) -> Result<Kind, UnknownKind> {
        Kind::try_from(self.0.kind)
    }

    // The node above it, where it is node i.
    pub fn parent(self, i: u16) -> Option<u16> {
        (self.0.parent < i).then_some(self.0.parent)
    }

    pub fn is_if(self) -> bool {
        self.kind() == Ok(Kind::If)
    }

    pub fn is_leaf(self) -> bool {
        matches!(self.kind(), Ok(Kind::Leaf(_)))
    }

    // Whether it is an IN or an OUT.
    pub fn is_on_channel(self) -> bool {
        matches!(self.kind(), Ok(Kind::Leaf(Leaf::In | Leaf::Out)))
    }

    // Whether the two are an IN and an OUT on one channel.
    pub fn meets(self, other: Statement) -> bool {
        let are_partners = matches!(
            (self.kind(), other.kind()),
            (Ok(Kind::Leaf(Leaf::In)), Ok(Kind::Leaf(Leaf::Out)))
                | (Ok(Kind::Leaf(Leaf::Out)), Ok(Kind::Leaf(Leaf::In)))
        );
        are_partners & (self.0.a == other.0.a)
    }

    // The expression at its end.
    pub fn expression(self) -> Option<u16> {
        match self.kind() {
            Ok(Kind::Leaf(Leaf::Asg | Leaf::Out)) => Some(self.0.b),
            Ok(Kind::If | Kind::Whl) => Some(self.0.a),
            _ => None,
        }
    }

    fn put_leaf<W: fmt::Write>(self, leaf: Leaf, f: &mut fmt::Formatter<W>) -> fmt::Result {
        let Node { a, b, .. } = self.0;
        match leaf {
            Leaf::Asg => write!(f, "v{a} := "),
            Leaf::In => write!(f, "IN c{a} v{b}"),
            Leaf::Out => write!(f, "OUT c{a} "),
            Leaf::Dly => f.write_str("DLY"),
        }
    }
}

// What stands before the expression.
impl fmt::Display for Statement {
    fn fmt<W: fmt::Write>(&self, f: &mut fmt::Formatter<W>) -> fmt::Result {
        match self.kind() {
            Ok(Kind::Leaf(leaf)) => self.put_leaf(leaf, f),
            Ok(Kind::Seq) => f.write_str("SEQ"),
            Ok(Kind::Par) => f.write_str("PAR"),
            Ok(Kind::If) => f.write_str("IF "),
            Ok(Kind::Whl) => f.write_str("WHL "),
            Err(UnknownKind) => write!(f, "kind {}", self.0.kind),
        }
    }
}
