// The table: a row for each cycle. Where a row has more than a line can show, it goes on below in the same columns.
ghost use Rattle.std.specs.Prelude.{◌<◌, ◌≤◌};

use super::line::{Line, Output, WIDTH, length_of};
use super::state::State;
use super::text::Joined;
use paper::FileSizes;
use std::alloc::{AllocError, Global};
use std::fmt;
use std::fmt::Display;
use std::ops::Range;

// Where the values start, and how wide the column of one is.
const VALUES_AT: usize = 5;

const VALUE_WIDTH: usize = 6;

// How many values a line has.
const VALUES: usize = 8;

// The most lines of a row that list statements or PARs.
const LINES: usize = 8;

// The room that a PAR takes.
const PAR_WIDTH: usize = 16;

// A list in the table: where it starts, how many items a line has, and what stands between them.
#[derive(Clone, Copy)]
struct Column {
    at: usize,
    per_line: usize,
    between: &'static str,
    ghost is_wide: { 0 < per_line },
}

impl Column {
    // How many lines a list takes.
    fn lines_for(self, count: usize) -> usize {
        count.div_ceil(self.per_line).min(LINES)
    }

    // What line j has of a list. It has an index: another list stands beside it, and line LINES - 1 tells how many are left.
    fn put<T: Display>(self, list: &[T], j: usize, line: &mut Line) {
        let left = list.get(j.saturating_mul(self.per_line)..).unwrap_or(&[]);
        if (left.is_empty() & (0 < j)) | (LINES <= j) {
            return;
        }
        if left.is_empty() {
            line.put_at(self.at, "-");
        } else if (j == LINES - 1) & (self.per_line < left.len()) {
            line.put_at(self.at, format_args!("and {} more", left.len()));
        } else {
            line.put_at(self.at, Joined::new(left, self.per_line, self.between));
        }
    }
}

// A PAR, and how many of its threads are at work.
#[derive(Clone, Copy)]
struct Par {
    node: u16,
    count: u16,
}

impl Display for Par {
    fn fmt<W: fmt::Write>(&self, f: &mut fmt::Formatter<W>) -> fmt::Result {
        write!(f, "PAR {}: {}", self.node, self.count)
    }
}

// It is not one with the search for the active statements: what is tested and what is made of it would both be closures.
fn pars_in(alloc: Global, counts: &[u16]) -> Result<Vec<Par>, AllocError> {
    (0..u16::MAX)
        .zip(counts.iter())
        .filter_map(|(node, count)| (*count != 0).then_some(Par {
            node,
            count: *count,
        }))
        .collect(alloc)
}

// How many of so many nodes a line lists, and the room that their numbers take, with the blanks between them.
fn nodes_of_line(nodes: u16) -> (usize, usize)
    ensures some { 0 < result.0 }
    ensures narrow { result.1 ≤ 30 }
{
    match nodes {
        0..=9 => (8, 16),
        10..=99 => (8, 24),
        100..=999 => (5, 20),
        1000..=9999 => (5, 25),
        _ => (5, 30),
    }
}

fn put_values(values: &[u16], line: &mut Line) {
    line.pad_to(VALUES_AT);
    for value in values {
        line.put(format_args!("{value:>VALUE_WIDTH$}"));
    }
}

// The names of the variables of a line, above their values.
fn put_names(vars: Range<u16>, line: &mut Line) -> fmt::Result {
    line.pad_to(VALUES_AT);
    for v in vars.take(VALUES) {
        let width = VALUE_WIDTH.saturating_sub(length_of(v)?);
        line.put(format_args!("{:>width$}{v}", 'v'));
    }
    Ok(())
}

#[derive(Clone, Copy)]
pub struct Table {
    out: Output,
    vars: u16,
    active: Column,
    threads: Column,
}

impl Table {
    pub fn new(out: Output, sizes: FileSizes) -> Table {
        let values = usize::from(sizes.vars).min(VALUES);
        let (per_line, width) = nodes_of_line(sizes.nodes);
        let active = Column {
            at: VALUES_AT + VALUE_WIDTH * values + 3,
            per_line,
            between: " ",
        };
        let at = active.at + width + 1;
        let threads = Column {
            at,
            per_line: ((WIDTH + 2).saturating_sub(at) / PAR_WIDTH).max(1),
            between: ", ",
        };
        Table {
            out,
            vars: sizes.vars,
            active,
            threads,
        }
    }

    // The heads of the columns, with the names of the variables in the first line.
    fn put_heads(self, line: &mut Line) -> fmt::Result {
        line.put("cycle");
        put_names(0..self.vars, line)?;
        line.put_at(self.active.at, "active");
        line.put_at(self.threads.at, "threads");
        Ok(())
    }

    pub fn print_head(self) -> fmt::Result {
        let mut line = self.out.line();
        self.put_heads(&mut line)?;
        self.out.end(&mut line)?;
        for first in (0..self.vars).step_by(VALUES).skip(1) {
            put_names(first..self.vars, &mut line)?;
            self.out.end(&mut line)?;
        }
        Ok(())
    }

    // A state, with the active statements in an order: a state has none, and the order is the cycle's. The label is that of a
    // cycle, or of what is after the last.
    pub fn print_row(
        self,
        label: impl Display + Drop,
        state: &State,
        active: &[u16],
    ) -> fmt::Result {
        let mut line = self.out.line();
        line.put(format_args!("{label:>VALUES_AT$}"));
        self.print_state(state, active, &mut line)
    }

    // A state, from a line on in which its label stands already.
    fn print_state(self, state: &State, active: &[u16], line: &mut Line) -> fmt::Result {
        let pars = pars_in(self.out.alloc, &state.counts)?;
        let of_lists = self
            .active
            .lines_for(active.len())
            .max(self.threads.lines_for(pars.len()));
        let mut values = state.values.chunks(VALUES);
        for j in 0..values.len().max(of_lists).max(1) {
            put_values(values.next().unwrap_or(&[]), line);
            self.active.put(active, j, line);
            self.threads.put(&pars, j, line);
            self.out.end(line)?;
        }
        Ok(())
    }
}
