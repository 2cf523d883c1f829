// Plays a paper: begin, and then run, a cycle at a time, so that each cycle is a row of the table. Runs compose, so
// these are the cycles of one run.
use super::answer::{Worked, print_begin_refused, print_entries, print_run_refused, print_worked};
use super::climbs::Climbs;
use super::layout::Paper;
use super::line::Output;
use super::machine;
use super::playing::Plan;
use super::state::State;
use super::table::Table;
use player::Stopped;
use program::Refusal;
use std::fmt;

// A paper that is played, with the table, and with the climbs where they are shown.
#[derive(Drop)]
struct Run<'a> {
    out: Output,
    paper: &'a Paper,
    plan: &'a Plan,
    table: Table,
    climbs: Option<Climbs<'a>>,
}

// A run that was refused at a cycle, with the cycle's entries.
#[derive(Drop)]
struct Refused {
    stopped: Stopped,
    entries: Vec<u16>,
}

// What a run answers: how many cycles it worked, unless one was refused. An fmt::Error is no answer: memory ran out.
type Answer = Result<u16, Refused>;

impl Run<'_> {
    // The row of a cycle that was worked, with the state before it, and its climbs.
    fn print_cycle(
        &self,
        cycle: u16,
        before: &State,
        after: &State,
        entries: &[u16],
    ) -> fmt::Result {
        self.table.print_row(cycle, before, entries)?;
        match self.climbs {
            Some(climbs) => climbs.print(before, after, entries),
            None => Ok(()),
        }
    }

    // Works a cycle by its entries and prints it, unless it is refused.
    fn work_cycle(
        &self,
        cycle: u16,
        state: &mut State,
        entries: &[u16],
    ) -> Result<Result<(), Refusal>, fmt::Error> {
        let before = state.clone()?;
        let outcome = machine::run(self.paper, state, entries);
        if outcome.is_ok() {
            self.print_cycle(cycle, &before, state, entries)?;
        }
        Ok(outcome)
    }

    // Works cycles up to the number asked, and stops before that at an ended state or a refused cycle.
    fn work_cycles(&self, state: &mut State) -> Result<Answer, fmt::Error> {
        let alloc = self.out.alloc;
        let Plan { order, cycles, .. } = self.plan;
        let mut book = order.book();
        for worked in 0..*cycles {
            let active = state.active(alloc)?;
            if active.is_empty() {
                return Ok(Ok(worked));
            }
            let (next, later) = book.split_at(active.len().min(book.len()));
            let entries = order.entries(alloc, &active, next)?;
            if let Err(refusal) = self.work_cycle(worked, state, &entries)? {
                let stopped = Stopped { refusal, worked };
                return Ok(Err(Refused { stopped, entries }));
            }
            book = later;
        }
        Ok(Ok(*cycles))
    }

    fn print_worked(&self, worked: u16, state: &State, active: &[u16]) -> fmt::Result {
        self.table.print_row("after", state, active)?;
        self.out.say("")?;
        let worked = if active.is_empty() {
            Worked::Ended(worked)
        } else {
            Worked::Asked(worked)
        };
        print_worked(self.out, worked)
    }

    fn print_refused(&self, refused: &Refused, state: &State, active: &[u16]) -> fmt::Result {
        let Refused { stopped, entries } = refused;
        self.table.print_row(stopped.worked, state, active)?;
        self.out.say("")?;
        print_run_refused(self.out, *stopped)?;
        match stopped.refusal {
            Refusal::Entries => print_entries(self.out, entries, stopped.worked),
            _ => Ok(()),
        }
    }

    // The last row and the answer.
    fn print_end(&self, answer: Answer, state: &State) -> fmt::Result {
        let active = state.active(self.out.alloc)?;
        match answer {
            Ok(worked) => self.print_worked(worked, state, &active),
            Err(refused) => self.print_refused(&refused, state, &active),
        }
    }

    fn print_head(&self) -> fmt::Result {
        self.out.say(
            "Each row is the state before a cycle, with the active statements in the order worked.",
        )?;
        if let Some(climbs) = self.climbs {
            climbs.print_head()?;
        }
        self.table.print_head()
    }

    fn print(&self, state: &mut State) -> fmt::Result {
        self.print_head()?;
        let answer = self.work_cycles(state)?;
        self.print_end(answer, state)
    }
}

fn climbs_of<'a>(out: Output, paper: &'a Paper, plan: &Plan) -> Option<Climbs<'a>> {
    if plan.climbs {
        Climbs::new(out, paper.program())
    } else {
        None
    }
}

pub fn play(out: Output, paper: &Paper, plan: &Plan) -> fmt::Result {
    let mut state = State::new(out.alloc, paper)?;
    if let Err(refusal) = machine::begin(paper, &mut state) {
        return print_begin_refused(out, refusal);
    }
    let table = Table::new(out, paper.sizes);
    let run = Run {
        out,
        paper,
        plan,
        table,
        climbs: climbs_of(out, paper, plan),
    };
    run.print(&mut state)
}
