// What entering and leaving nodes work in beside the lent lists. It has no program: each function would have to say that it is
// still the same one. And what is known by both could be no invariant: begin works with no parents, and between a store and
// the next moment the values of expressions are old. Its arrays are as long as any program needs, for the player has no heap.
ghost use Rattle.std.specs.Prelude.{◌≡◌, ◌<◌};

use crate::memo::Memo;
use program::VarId;
use program::limits::{NODES_MAX, VARS_MAX};

#[derive(Drop)]
pub struct Work {
    // The values of the variables and of expressions.
    pub memo: Memo,
    // How many marks stand.
    pub tally: u16,
    // Whether a zero-time loop was met. A flag, tested once after all walks: with a Result each walk would stop there, and the
    // rules go on.
    pub looped: bool,
    // The parents of the nodes, as their records have them. A climb waits for memory at each: read from the records, nesting
    // of depth 32 took 1.23 of the time, and most programs 1.01 to 1.03. Options would take more stack than a run may have.
    pub parents: [u16; NODES_MAX],
    // The mask of each variable: as many low bits as the variable is wide. No pairs with the values: these are copied whole from
    // the lent list, which has no masks, and for pairs that would take a loop: no plainer.
    pub masks: [u16; VARS_MAX as usize],
}

impl Work {
    ghost use Rattle.player.specs.Work.{masked_by, new_work};

    pub fn new() -> Work
        ensures { result ≡ new_work }
    {
        Work {
            memo: Memo::new(),
            tally: 0,
            looped: false,
            parents: [0; NODES_MAX],
            masks: [0; VARS_MAX as usize],
        }
    }

    // What a variable keeps of a value.
    pub fn kept(&self, v: VarId, value: u16) -> u16
        requires { v.0 < 256 }
        ensures { result ≡ masked_by self.now v.0 value }
    {
        value & self.masks[v.0 as usize]
    }
}
