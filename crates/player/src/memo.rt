// The values of the variables, and of the expressions that were worked. A moment lasts while no value changes, and what is
// worked at it stands. That it is right (`Known`) is a clause and no field: it speaks of the expressions of a program, and does
// not hold between a store that changes a value and the next moment.
ghost use Rattle.std.specs.Prelude.{◌≡◌, ℕ, ◌≤◌, ◌<◌, get_or};

use program::VarId;
use program::limits::{EXPRS_MAX, VARS_MAX};

// Its arrays, like those of `Work` and `Claims`, are as long as any program needs, for the player has no heap.
#[derive(Drop)]
pub struct Memo {
    pub variables: [u16; VARS_MAX as usize],
    // The value of each expression, and the moment at which it was worked. In two arrays: with pairs a chain took a seventh more
    // instructions, for a pass writes many moments at once.
    pub formulas: [u16; EXPRS_MAX],
    pub moments: [u16; EXPRS_MAX],
    // The present moment, from 1 on: moment 0 is for what was never worked. An Option for each moment would take two words in
    // place of one, and a run would have twice as large a `moments` on its stack.
    pub present: u16,
}

impl Memo {
    ghost use Rattle.player.specs.Memo.{Unworked, Sized, worked_at, noted, new_memo};

    // At the first moment nothing is worked.
    pub fn new() -> Memo
        ensures { result ≡ new_memo }
    {
        Memo {
            variables: [0; VARS_MAX as usize],
            formulas: [0; EXPRS_MAX],
            moments: [0; EXPRS_MAX],
            present: 1,
        }
    }

    // The value of a variable.
    pub fn variable(&self, v: VarId) -> u16
        requires { v.0 < 256 }
        ensures { result ≡ get_or self.now.variables v.0 0 }
    {
        self.variables[v.0 as usize]
    }

    // The value of expression e, if it was worked at the present moment.
    pub fn worked(&self, e: u16) -> Option<u16>
        requires { e < 1024 }
        ensures { result ≡ worked_at self.now e }
    {
        let at = e as usize;
        (self.moments[at] == self.present).then_some(self.formulas[at])
    }

    // Expression e has this value at the present moment.
    pub fn note(&mut self, e: u16, value: u16)
        requires { e < 1024 }
        ensures { self.new ≡ noted self.old e value }
    {
        let at = e as usize;
        self.formulas[at] = value;
        self.moments[at] = self.present;
    }

    // A moment at which nothing is worked yet follows the present one.
    pub fn next_moment(&mut self)
        requires size { Sized self.old }
        requires past { (e : ℕ) → e < 1024 → get_or self.old.moments e 0 ≤ self.old.present }
        ensures { Unworked self.old self.new }
    {
        if self.present < u16::MAX {
            self.present += 1;
        } else {
            self.moments.fill(0);
            self.present = 1;
        }
    }
}
