// The program as an indented listing: a line for each node, with its number, and the widths that are not 16.
use super::climbs;
use super::expression::Expression;
use super::layout::Paper;
use super::line::{Line, Output};
use super::statement::Statement;
use super::text::Counted;
use program::limits::{DEPTH_MAX, EXPRS_MAX, NODES_MAX, WIDTH_MAX};
use std::alloc::AllocError;
use std::fmt;

// Where the statements stand, after the numbers of their nodes.
const START: usize = 6;

// The most nodes that stand above a node, as far as the listing indents.
const DEEPEST: u16 = DEPTH_MAX - 1;

// A listing, with what is known after its lines so far: how many nodes stand above each, and which expressions are named.
// Both are known of as many as an accepted program has at most.
#[derive(Drop)]
struct Listing<'a> {
    out: Output,
    paper: &'a Paper,
    depths: Vec<u16>,
    named: Vec<bool>,
    // Whether the climbs are shown below.
    climbs: bool,
}

fn indent(depth: u16) -> usize {
    START + 2 * usize::from(depth)
}

impl Listing<'_> {
    // How many nodes stand above a node, by the depths of those before it. A parent whose depth is not known counts as one at
    // depth 0: no accepted program has such a one.
    fn depth_below(&self, parent: Option<u16>) -> u16 {
        let Some(parent) = parent else {
            return 0;
        };
        let above = self.depths.get(usize::from(parent)).copied().unwrap_or(0);
        above.saturating_add(1).min(DEEPEST)
    }

    // Keeps the depth of the next node.
    fn keep(&mut self, depth: u16) -> Result<(), AllocError> {
        if self.depths.len() < NODES_MAX {
            self.depths.push(depth)?;
        }
        Ok(())
    }

    fn statement(&self, i: u16) -> Statement {
        Statement(self.paper.program().node(i))
    }

    // An IF's second child comes after the word ELSE, which is no node.
    fn is_else(&self, i: u16, parent: Option<u16>) -> bool {
        match parent {
            Some(parent) => parent.saturating_add(1) != i && self.statement(parent).is_if(),
            None => false,
        }
    }

    fn print_else(&self, depth: u16) -> fmt::Result {
        let column = indent(depth).saturating_sub(2);
        self.out.say(format_args!("{:column$}ELSE", ""))
    }

    // An expression at the end of a line, as deep as the line has room for it.
    fn end_expression(&mut self, e: u16, line: &mut Line) -> fmt::Result {
        let expression = Expression::fitting(self.paper.program(), e, line.room());
        expression.note_named(&mut self.named);
        line.put(expression);
        self.out.end(line)
    }

    // Notes the expressions that the climbs name, whose lines have other room.
    fn note_in_climbs(&mut self, statement: Statement) -> fmt::Result {
        if !(self.climbs & statement.is_leaf()) {
            return Ok(());
        }
        if let Some(expression) = climbs::expression_of(self.paper.program(), statement)? {
            expression.note_named(&mut self.named);
        }
        Ok(())
    }

    fn print_statement(&mut self, i: u16, depth: u16, statement: Statement) -> fmt::Result {
        self.note_in_climbs(statement)?;
        let mut line = self.out.line();
        line.put(format_args!("{i:>4}"));
        line.put_at(indent(depth), statement);
        match statement.expression() {
            Some(e) => self.end_expression(e, &mut line),
            None => self.out.end(&mut line),
        }
    }

    fn print_node(&mut self, i: u16) -> fmt::Result {
        let statement = self.statement(i);
        let parent = statement.parent(i);
        let depth = self.depth_below(parent);
        self.keep(depth)?;
        if self.is_else(i, parent) {
            self.print_else(depth)?;
        }
        self.print_statement(i, depth, statement)
    }

    fn print_nodes(&mut self) -> fmt::Result {
        for i in 0..self.paper.sizes.nodes {
            self.print_node(i)?;
        }
        Ok(())
    }

    // What a name stands for.
    fn print_meaning(&mut self, e: u16) -> fmt::Result {
        let mut line = self.out.line();
        line.put(format_args!("{:START$}e{e} is ", ""));
        self.end_expression(e, &mut line)
    }

    // The expressions that are named, from the last to the first: those that they name in turn are lower.
    fn print_named(&mut self) -> fmt::Result {
        for e in (0..self.paper.sizes.exprs).rev() {
            if self.named.get(usize::from(e)) == Some(&true) {
                self.print_meaning(e)?;
            }
        }
        Ok(())
    }
}

// The variables that are not as wide as a word.
fn print_widths(out: Output, widths: &[u16]) -> fmt::Result {
    for (v, width) in widths.iter().enumerate() {
        if *width != WIDTH_MAX {
            let bits = Counted::new(*width, "bit");
            out.say(format_args!("{:START$}v{v} is {bits} wide", ""))?;
        }
    }
    Ok(())
}

// A listing, above climbs or without them.
pub fn print(out: Output, paper: &Paper, climbs: bool) -> fmt::Result {
    let mut listing = Listing {
        out,
        paper,
        depths: Vec::new(out.alloc),
        named: vec![in out.alloc; false; EXPRS_MAX]?,
        climbs,
    };
    listing.print_nodes()?;
    listing.print_named()?;
    print_widths(out, &paper.widths)
}
