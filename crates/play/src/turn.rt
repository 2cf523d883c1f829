// A turn of a climb, told by the parent of the node that it leaves.
use super::line::{Line, Output, length_of};
use super::state::State;
use super::statement::Statement;
use super::text::{Counted, Joined};
use program::{Kind, Program, UnknownKind};
use std::fmt;

// Where the line of a turn starts.
const START: usize = 12;

// Where the lines of climbs end at most.
pub const END: usize = 80;

// A turn that is taken: the node that it left, the one that the next turn leaves, and the walk after it.
#[derive(Drop)]
pub struct Turn<'a> {
    pub out: Output,
    pub program: Program<'a>,
    pub node: u16,
    pub next: Option<u16>,
    pub walk: &'a State,
}

// The numbers of leaves, or how many they are where there is no room for the numbers.
fn put_leaves(leaves: &[u16], line: &mut Line) -> fmt::Result {
    let numbers = Joined::new(leaves, leaves.len(), " ");
    if length_of(&numbers)? <= line.room_to(END) {
        line.put(numbers);
    } else {
        line.put(format_args!("{} leaves", leaves.len()));
    }
    Ok(())
}

impl Turn<'_> {
    fn statement(&self, i: u16) -> Statement {
        Statement(self.program.node(i))
    }

    // What entering a child came to: a child that finished is left next, and one that stays has marked leaves.
    fn put_entered(&self, child: u16, line: &mut Line) -> fmt::Result {
        line.put(format_args!("enters {child}: "));
        if self.next == Some(child) {
            line.put("finishes");
            return Ok(());
        }
        let nodes = child..self.statement(child).0.end;
        let marked = self.walk.active_in(self.out.alloc, nodes)?;
        line.put("stays, marks ");
        put_leaves(&marked, line)
    }

    // A SEQ goes on where the node ends, if its next child stands there.
    fn put_seq(&self, seq: u16, line: &mut Line) -> fmt::Result {
        line.put(format_args!("SEQ {seq} "));
        let next_child = self.statement(self.node).0.end;
        if next_child < self.statement(seq).0.end {
            self.put_entered(next_child, line)
        } else {
            line.put("has no next child");
            Ok(())
        }
    }

    // A WHL that is left next is false: where it is true, its child stays, or the cycle would not be worked.
    fn put_whl(&self, whl: u16, line: &mut Line) -> fmt::Result {
        line.put(format_args!("WHL {whl} "));
        if self.next == Some(whl) {
            line.put("is false");
            return Ok(());
        }
        line.put("is true, ");
        self.put_entered(self.node, line)
    }

    fn put_par(&self, par: u16, line: &mut Line) {
        let threads = Counted::new(self.walk.threads(par), "thread");
        line.put(format_args!("PAR {par} has {threads} still at work"));
    }

    // What follows under a parent. No other kind is one.
    fn put_under(&self, parent: u16, line: &mut Line) -> fmt::Result {
        match self.statement(parent).kind() {
            Ok(Kind::Seq) => self.put_seq(parent, line)?,
            Ok(Kind::Whl) => self.put_whl(parent, line)?,
            Ok(Kind::Par) => self.put_par(parent, line),
            Ok(Kind::If) => line.put(format_args!("IF {parent} is over")),
            Ok(Kind::Leaf(_)) | Err(UnknownKind) => {}
        }
        Ok(())
    }

    pub fn print(&self) -> fmt::Result {
        let mut line = self.out.line();
        line.put_at(START, format_args!("leave {}: ", self.node));
        match self.statement(self.node).parent(self.node) {
            Some(parent) => self.put_under(parent, &mut line)?,
            None => line.put("it has no parent"),
        }
        self.out.end(&mut line)
    }
}
