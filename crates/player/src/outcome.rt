// What came of entering a node.
ghost use Rattle.std.specs.Prelude.{◌≡◌};

#[derive(Clone, Copy, Debug, PartialEq, Eq)]
pub enum Outcome {
    Finished,
    Stays,
}

impl Outcome {
    ghost use Rattle.player.specs.Walks.{if_finished};

    // Node i, where it finished.
    pub fn finished(self, i: u16) -> Option<u16>
        ensures { result ≡ if_finished self i }
    {
        match self {
            Outcome::Finished => Some(i),
            Outcome::Stays => None,
        }
    }
}
