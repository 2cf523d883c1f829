// A program that check accepts.
ghost use Rattle.std.specs.Prelude.{◌≡◌};
ghost use Rattle.semantics.specs.Check.{check_number};
ghost use Rattle.program.specs.Answer.{program_in};

use super::Program;

#[derive(Clone, Copy, Debug)]
pub struct Accepted<'a> {
    pub lists: Program<'a>,
    pub ghost accepted: { check_number (program_in lists) ≡ 0 },
}
