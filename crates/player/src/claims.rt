// What a cycle claims: channels and variables, each by one node. A slot is claimed in the cycle whose stamp it has; stamps
// rise from cycle to cycle, so that no slot is ever cleared.
ghost use Rattle.std.specs.Prelude.{◌≡◌, ◌<◌};

use program::{ChanId, VarId};

// How many slots there are: as many as channels, and as many as variables, in arrays, for the player has no heap. Each method
// asks a slot below: a type of such numbers would be made at each call, by a proof of the same: no plainer.
const SLOTS: usize = 256;

// The node that claimed last, and the stamp of its cycle. An Option of a node would have to be cleared in each slot before each
// cycle.
#[derive(Clone, Copy, Debug)]
struct Slot {
    stamp: u16,
    node: u16,
}

// The slots of what is claimed alike, by the numbers of the channels or of the variables. The stamp is handed with each call:
// `Claims` has one for all its slots, and one in each `Slots` would be set three times in each cycle.
#[derive(Drop)]
pub struct Slots {
    slots: [Slot; SLOTS],
}

impl Slots {
    ghost use Rattle.player.specs.Claims.{Claim, IsClaimant, UpTo};

    fn new() -> Slots
        ensures { UpTo result 0 }
    {
        Slots {
            slots: [Slot { stamp: 0, node: 0 }; SLOTS],
        }
    }

    // Whether the slot was free; then node i claims it. A bool, for there is no more to tell of it. A slot is a plain number,
    // for channels and variables are claimed alike; only the methods of `Claims` call it, which take a channel or a variable.
    fn claim(&mut self, stamp: u16, slot: u16, i: u16) -> bool
        requires { slot < 256 }
        ensures { Claim self.old self.new stamp slot i result }
    {
        let at = slot as usize;
        if self.slots[at].stamp == stamp {
            return false;
        }
        self.slots[at] = Slot { stamp, node: i };
        true
    }

    // The node that claimed the slot in the cycle of this stamp.
    fn claimant(&self, stamp: u16, slot: u16) -> Option<u16>
        requires { slot < 256 }
        ensures { IsClaimant self.now stamp slot result }
    {
        let last = self.slots[slot as usize];
        (last.stamp == stamp).then_some(last.node)
    }
}

// The claims of the present cycle.
#[derive(Drop)]
pub struct Claims {
    pub stamp: u16,
    // The channels that an IN claimed, those that an OUT claimed, and the variables that a store claimed. With one list of pairs
    // for the channels, `claim` and `claimant` would be told which of a pair is asked: no plainer.
    pub inputs: Slots,
    pub outputs: Slots,
    pub writers: Slots,
}

impl Claims {
    ghost use Rattle.player.specs.Claims.{Aged, Claim, IsClaimant};

    pub fn new() -> Claims
        ensures { Aged result 0 }
    {
        Claims {
            stamp: 0,
            inputs: Slots::new(),
            outputs: Slots::new(),
            writers: Slots::new(),
        }
    }

    // Whether the channel was free for input; then node i claims it. With one method for this and the next two a caller would
    // hand over a plain number.
    pub fn claim_input(&mut self, channel: ChanId, i: u16) -> bool
        requires { channel.0 < 256 }
        ensures claimed { Claim self.old.inputs self.new.inputs self.old.stamp channel.0 i result }
        ensures kept { self.new ≡ record self.old { inputs = self.new.inputs } }
    {
        self.inputs.claim(self.stamp, channel.0, i)
    }

    // The same for output.
    pub fn claim_output(&mut self, channel: ChanId, i: u16) -> bool
        requires { channel.0 < 256 }
        ensures claimed { Claim self.old.outputs self.new.outputs self.old.stamp channel.0 i result }
        ensures kept { self.new ≡ record self.old { outputs = self.new.outputs } }
    {
        self.outputs.claim(self.stamp, channel.0, i)
    }

    // Whether no node before it stores to the variable; then node i claims it.
    pub fn claim_variable(&mut self, variable: VarId, i: u16) -> bool
        requires { variable.0 < 256 }
        ensures claimed { Claim self.old.writers self.new.writers self.old.stamp variable.0 i result }
        ensures kept { self.new ≡ record self.old { writers = self.new.writers } }
    {
        self.writers.claim(self.stamp, variable.0, i)
    }

    // The IN that claimed the channel. With one method for this and the next a caller would name the slots: no plainer.
    pub fn receiver(&self, channel: ChanId) -> Option<u16>
        requires { channel.0 < 256 }
        ensures { IsClaimant self.now.inputs self.now.stamp channel.0 result }
    {
        self.inputs.claimant(self.stamp, channel.0)
    }

    // The OUT that claimed the channel.
    pub fn sender(&self, channel: ChanId) -> Option<u16>
        requires { channel.0 < 256 }
        ensures { IsClaimant self.now.outputs self.now.stamp channel.0 result }
    {
        self.outputs.claimant(self.stamp, channel.0)
    }
}
