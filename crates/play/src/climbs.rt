// The climbs of a cycle: each statement that completes is left, turn by turn, and a line tells of each turn.
use super::expression::Expression;
use super::line::{Output, length_of};
use super::machine;
use super::state::State;
use super::statement::Statement;
use super::text::After;
use super::turn::{END, Turn};
use program::{Accepted, Program, accept};
use std::fmt;

// Where the line of a statement starts.
const START: usize = 7;

// The room before its text, for its number and whether it completes.
const BEFORE: usize = 16;

// The expression of a statement, as deep as its line has room for it, if it has one.
pub fn expression_of(
    program: Program<'_>,
    statement: Statement,
) -> Result<Option<Expression<'_>>, fmt::Error> {
    let Some(e) = statement.expression() else {
        return Ok(None);
    };
    let room = (END - START - BEFORE).saturating_sub(length_of(statement)?);
    Ok(Some(Expression::fitting(program, e, room)))
}

// The climbs of an accepted program's cycles.
#[derive(Clone, Copy)]
pub struct Climbs<'a> {
    out: Output,
    program: Accepted<'a>,
}

impl<'a> Climbs<'a> {
    // There are none of a program that is refused: begin refuses it too.
    pub fn new(out: Output, program: Program<'a>) -> Option<Climbs<'a>> {
        let program = accept(program).ok()?;
        Some(Climbs { out, program })
    }

    fn statement(self, i: u16) -> Statement {
        Statement(self.program.lists.node(i))
    }

    // Whether a statement of a cycle waits: no other of the cycle is its partner.
    fn waits(self, i: u16, entries: &[u16]) -> bool {
        let statement = self.statement(i);
        let mut others = entries.iter().map(|other| self.statement(*other));
        statement.is_on_channel() & !others.any(|other| statement.meets(other))
    }

    fn print_statement(self, i: u16, what: &str) -> fmt::Result {
        let statement = self.statement(i);
        let mut line = self.out.line();
        let expression = expression_of(self.program.lists, statement)?;
        line.put_at(
            START,
            format_args!("{i:>4} {what}: {statement}{}", After::new("", expression)),
        );
        self.out.end(&mut line)
    }

    // Leaves a node, and gives the one that is left next, if there is one. The lists are those of the run, so that question 5,
    // the one that is asked, is answered yes.
    fn print_turn(self, node: u16, walk: &mut State) -> Result<Option<u16>, fmt::Error> {
        let Ok(next) = machine::take_turn(&self.program, walk, node) else {
            return Ok(None);
        };
        let turn = Turn {
            out: self.out,
            program: self.program.lists,
            node,
            next,
            walk,
        };
        turn.print()?;
        Ok(next)
    }

    // The climb from a node. None takes more turns than there are nodes.
    fn print_climb(self, node: u16, walk: &mut State) -> fmt::Result {
        let mut next = Some(node);
        for _ in 0..walk.marks.len() {
            let Some(node) = next else {
                break;
            };
            next = self.print_turn(node, walk)?;
        }
        Ok(())
    }

    // One entry of a cycle: a statement that waits is marked again, and one that completes is left.
    fn print_visit(self, i: u16, entries: &[u16], walk: &mut State) -> fmt::Result {
        if self.waits(i, entries) {
            walk.mark(i);
            return self.print_statement(i, "waits");
        }
        self.print_statement(i, "completes")?;
        self.print_climb(i, walk)
    }

    // The climbs of a cycle that was worked, in the order of its entries.
    pub fn print(self, before: &State, after: &State, entries: &[u16]) -> fmt::Result {
        let mut walk = State::cleared(self.out.alloc, before, after)?;
        for i in entries {
            self.print_visit(*i, entries, &mut walk)?;
        }
        Ok(())
    }

    // What is said above the table.
    pub fn print_head(self) -> fmt::Result {
        self.out.say(
            "Below it are the climbs of the statements that complete, a line for each turn.",
        )?;
        self.out.say("Conditions are read in the values after the cycle, which the next row has.")
    }
}
