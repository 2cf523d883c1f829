// The state of a run. Its lists stand side by side, since the player's calls take them so.
use super::layout::Paper;
use std::alloc::{AllocError, Global};
use std::ops::Range;

#[derive(Clone, Drop)]
pub struct State {
    pub values: Vec<u16>,
    pub marks: Vec<u8>,
    pub counts: Vec<u16>,
}

impl State {
    // The values of a paper. Begin writes the marks and the counts.
    pub fn new(alloc: Global, paper: &Paper) -> Result<State, AllocError> {
        let nodes = usize::from(paper.sizes.nodes);
        Ok(State {
            values: paper.values.clone()?,
            marks: vec![in alloc; 0u8; nodes]?,
            counts: vec![in alloc; 0u16; nodes]?,
        })
    }

    // What the walks of a cycle start with: no mark, the counts before the cycle, and the values after its stores.
    pub fn cleared(alloc: Global, before: &State, after: &State) -> Result<State, AllocError> {
        Ok(State {
            values: after.values.clone()?,
            marks: vec![in alloc; 0u8; before.marks.len()]?,
            counts: before.counts.clone()?,
        })
    }

    pub fn mark(&mut self, node: u16) {
        if let Some(mark) = self.marks.get_mut(usize::from(node)) {
            *mark = 1;
        }
    }

    // The active statements in ascending order.
    pub fn active(&self, alloc: Global) -> Result<Vec<u16>, AllocError> {
        self.active_in(alloc, 0..u16::MAX)
    }

    // Those that are among some nodes.
    pub fn active_in(&self, alloc: Global, nodes: Range<u16>) -> Result<Vec<u16>, AllocError> {
        (0..u16::MAX)
            .zip(self.marks.iter())
            .filter_map(|(node, mark)| ((*mark != 0) & nodes.contains(&node)).then_some(node))
            .collect(alloc)
    }

    // How many threads of a PAR are at work.
    pub fn threads(&self, par: u16) -> u16 {
        self.counts.get(usize::from(par)).copied().unwrap_or(0)
    }
}
