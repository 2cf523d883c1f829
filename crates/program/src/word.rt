// The word that a call gives to C as its answer.
ghost use Rattle.std.specs.Prelude.{◌≡◌};
ghost use Rattle.program.specs.Answer.{number_of, item_of};
ghost use Rattle.program.specs.Word.{number_in, item_in};

use super::Refusal;

// It is no `From`, here and in the words of run and of sizes: which bits hold what is a matter of C's, and two words alone do
// not tell it.
pub fn word_of(number: u16, item: u16) -> u32
    ensures number { number_in result ≡ number }
    ensures item { item_in result ≡ item }
{
    u32::from(number) + 65536 * u32::from(item)
}

pub fn word_of_answer(answer: Result<(), Refusal>) -> u32
    ensures number { number_in result ≡ number_of answer }
    ensures item { item_in result ≡ item_of answer }
{
    match answer {
        Ok(()) => word_of(0, 0),
        Err(refusal) => word_of(refusal.number(), refusal.item()),
    }
}
