// The calls of the player and of papers as files, on a paper and a state.
use super::errors::Error;
use super::layout::{Paper, list_words};
use super::line::Line;
use super::state::State;
use program::{Accepted, Refusal};
use std::alloc::Global;

// The cycles that are asked for where nothing says how many: a file of words does not.
const CYCLES: u16 = 20;

pub fn begin(paper: &Paper, state: &mut State) -> Result<(), Refusal> {
    player::begin(
        paper.program(),
        &state.values,
        &mut state.marks,
        &mut state.counts,
    )
}

// Runs a cycle. How many were worked is left out: it is 1, or 0 where it is refused.
pub fn run(paper: &Paper, state: &mut State, entries: &[u16]) -> Result<(), Refusal> {
    player::run(
        paper.program(),
        &mut state.values,
        &mut state.marks,
        &mut state.counts,
        entries,
        1,
    )
    .map(|_| ())
    .map_err(|stopped| stopped.refusal)
}

// Takes a turn of a climb, in the marks and counts of a walk: a node is left. Gives the node that the next turn leaves, if
// there is one. Whether it met a zero-time loop is not handed on: a cycle that is worked has none.
pub fn take_turn(program: &Accepted, walk: &mut State, node: u16) -> Result<Option<u16>, Refusal> {
    player::take_turn(
        program,
        &walk.values,
        &mut walk.marks,
        &mut walk.counts,
        node,
    )
    .map(|turn| turn.next)
}

// The paper of a file of words. There is no book.
pub fn read(alloc: Global, heading: Line, contents: &[u8]) -> Result<Paper, Error> {
    let sizes = paper::file_sizes(contents).ok_or(Refusal::File)?;
    let lengths = sizes.lengths();
    let mut exprs = vec![in alloc; 0u16; lengths.exprs]?;
    let mut nodes = vec![in alloc; 0u16; lengths.nodes]?;
    let mut values = vec![in alloc; 0u16; lengths.vars]?;
    let mut widths = vec![in alloc; 0u16; lengths.vars]?;
    paper::read(contents, &mut exprs, &mut nodes, &mut values, &mut widths)?;
    Ok(Paper {
        heading,
        sizes,
        exprs,
        nodes,
        widths,
        values,
        cycles: CYCLES,
        book: Vec::new(alloc),
    })
}

// The file of words of a paper.
pub fn write(alloc: Global, paper: &Paper) -> Result<Vec<u8>, Error> {
    let mut contents = vec![in alloc; 0u8; 2 * list_words(paper.sizes) + 16]?;
    paper::write(paper.program(), &paper.values, &mut contents)?;
    Ok(contents)
}
