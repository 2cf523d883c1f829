// What the cycles of a run work in beside the lent lists. These stay parameters by themselves: of a struct that holds a
// `&mut` each function would have to say that it is still the same list.
ghost use Rattle.std.specs.Prelude.{◌≡◌};
ghost use Rattle.player.specs.Work.{new_work};
ghost use Rattle.player.specs.Claims.{Aged};

use crate::claims::Claims;
use crate::stores::Stores;
use crate::work::Work;

#[derive(Drop)]
pub struct Scratch {
    pub work: Work,
    pub claims: Claims,
    pub stores: Stores,
}

impl Scratch {
    pub fn new() -> Scratch
        ensures work { result.work ≡ new_work }
        ensures claims { Aged result.claims 0 }
    {
        Scratch {
            work: Work::new(),
            claims: Claims::new(),
            stores: Stores::new(),
        }
    }
}
