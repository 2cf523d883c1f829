// The calls of the player with their answers in one word, as C gets them; the crate player_c exports them. Each makes a
// `Program` of the five parts that C hands over: a function for it would be handed the same five, and say no more.
ghost use Rattle.std.specs.Prelude.{◌≡◌};
ghost use Rattle.program.specs.Answer.{program_of, CheckAnswer};
ghost use Rattle.program.specs.Word.{number_in, item_in};
ghost use Rattle.player.specs.Word.{item_of_run_in, worked_in};
ghost use Rattle.player.specs.Begin.{state_of, BeginAnswer};
ghost use Rattle.player.specs.Run.{RunAnswer, number_of_run, item_of_run, worked_by};

use crate::Stopped;
use program::Program;
use program::word::{word_of, word_of_answer};

pub fn player_check(exprs: &[u16], nodes: &[u16], widths: &[u16], vars: u16, chans: u16) -> u32
    ensures { CheckAnswer (program_of exprs.now nodes.now widths.now vars chans) (number_in result) (item_in result) }
{
    word_of_answer(program::check(Program {
        exprs,
        nodes,
        widths,
        vars,
        chans,
    }))
}

pub fn player_begin(
    exprs: &[u16],
    nodes: &[u16],
    widths: &[u16],
    vars: u16,
    chans: u16,
    values: &[u16],
    marks: &mut [u8],
    counts: &mut [u16],
) -> u32
    ensures { BeginAnswer (program_of exprs.now nodes.now widths.now vars chans) (state_of values.now marks.old counts.old)
        (number_in result) (item_in result) marks.new counts.new }
{
    let program = Program {
        exprs,
        nodes,
        widths,
        vars,
        chans,
    };
    word_of_answer(crate::begin(program, values, marks, counts))
}

fn word_of_run(ran: Result<u16, Stopped>) -> u64
    ensures number { number_in result ≡ number_of_run ran }
    ensures item { item_of_run_in result ≡ item_of_run ran }
    ensures worked { worked_in result ≡ worked_by ran }
{
    match ran {
        Ok(worked) => 4294967296 * u64::from(worked),
        Err(Stopped { refusal, worked }) => {
            u64::from(word_of(refusal.number(), refusal.item())) + 4294967296 * u64::from(worked)
        }
    }
}

pub fn player_run(
    exprs: &[u16],
    nodes: &[u16],
    widths: &[u16],
    vars: u16,
    chans: u16,
    values: &mut [u16],
    marks: &mut [u8],
    counts: &mut [u16],
    book: &[u16],
    cycles: u16,
) -> u64
    ensures { RunAnswer (program_of exprs.now nodes.now widths.now vars chans) cycles
        (state_of values.old marks.old counts.old) book.now
        (number_in result) (item_of_run_in result) (worked_in result) (state_of values.new marks.new counts.new) }
{
    let program = Program {
        exprs,
        nodes,
        widths,
        vars,
        chans,
    };
    word_of_run(crate::run(program, values, marks, counts, book, cycles))
}
