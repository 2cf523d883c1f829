// The player's calls, and the walks over accepted programs that they are made of.
#![tactic(auto)]

pub mod c_interface; // the calls for C
mod channels; // question 8, and what waits
mod claims; // what a cycle claims
mod cycle; // one cycle
mod cycles; // the cycles of a run
mod enter; // entering a node
mod entries; // question 7
mod expressions; // the values of single expressions
mod leave; // leaving a node
mod lengths; // question 5
mod marks; // marks, and how many stand
mod memo; // the values that are known while none changes
mod outcome; // what came of entering a node
mod passes; // expressions from left to right
mod records; // the records of an accepted program
mod root; // entering node 0
mod scratch; // what cycles work in beside the lent lists
mod start; // what a run starts with
mod stores; // question 9, and what is stored
mod threads; // thread counts
mod undo; // what question 10 takes back
mod visits; // the walks of a cycle
mod well_formed; // question 6
mod widths; // the widths of the variables
mod work; // what entering and leaving nodes work in

ghost use Rattle.std.specs.Prelude.{◌≡◌};
ghost use Rattle.program.specs.Accepted.{accepted_in};
ghost use Rattle.program.specs.Answer.{program_in, number_of, item_of};
ghost use Rattle.player.specs.Begin.{state_of, BeginAnswer};
ghost use Rattle.player.specs.Run.{RunAnswer, number_of_run, item_of_run, worked_by};
ghost use Rattle.player.specs.Turn.{TurnAnswer};

use cycles::work_cycles;
use lengths::ask_lengths;
pub use program::{Accepted, Program, Refusal, accept, check};
use root::enter_root;
use well_formed::{ask_state, ask_values};
use work::Work;

// The lists stand side by side, as C lends them.

// Begins a program with the values as given: asks what check asks, question 5, question 6 of the values alone, and 10.
// Where none is answered no, it writes marks and counts whole from entering node 0. What stood in them is not read.
pub fn begin(
    program: Program,
    values: &[u16],
    marks: &mut [u8],
    counts: &mut [u16],
) -> Result<(), Refusal>
    ensures { BeginAnswer (program_in program.entry) (state_of values.now marks.old counts.old)
        (number_of result) (item_of result) marks.new counts.new }
{
    let accepted = accept(program)?;
    ask_lengths(&accepted, values, marks, counts)?;
    ask_values(&accepted, values)?;
    enter_root(&accepted, values, marks, counts)
}

// A run that was refused when so many cycles were worked.
#[derive(Clone, Copy, Debug, PartialEq, Eq)]
pub struct Stopped {
    pub refusal: Refusal,
    pub worked: u16,
}

// What is refused before the first cycle.
impl From<Refusal> for Stopped {
    ghost from_gives = { λ refusal stopped. stopped ≡ record { refusal = refusal; worked = 0 } };

    fn from(refusal: Refusal) -> Stopped {
        Stopped { refusal, worked: 0 }
    }
}

// Runs a program from the state in the three lists, by a book, for as many cycles as are asked. Gives how many were worked.
pub fn run(
    program: Program,
    values: &mut [u16],
    marks: &mut [u8],
    counts: &mut [u16],
    book: &[u16],
    cycles: u16,
) -> Result<u16, Stopped>
    ensures { RunAnswer (program_in program.entry) cycles (state_of values.old marks.old counts.old) book.now
        (number_of_run result) (item_of_run result) (worked_by result) (state_of values.new marks.new counts.new) }
{
    let accepted = accept(program)?;
    ask_lengths(&accepted, values, marks, counts)?;
    ask_state(&accepted, values, marks, counts)?;
    work_cycles(&accepted, values, marks, counts, book, cycles)
}

// What a turn of a climb comes to.
#[derive(Clone, Copy, Debug, PartialEq, Eq)]
pub struct Turn {
    // The node that the next turn leaves; none where the climb is over.
    pub next: Option<u16>,
    // Whether the turn met a zero-time loop.
    pub looped: bool,
}

// One turn of a climb, for whoever follows a cycle turn by turn: node i is left, in the marks and counts of a walk, with
// conditions read in these values. Run takes the same turns. Asks question 5. What is no node has no parent: leaving it does
// nothing.
pub fn take_turn(
    program: &Accepted,
    values: &[u16],
    marks: &mut [u8],
    counts: &mut [u16],
    i: u16,
) -> Result<Turn, Refusal>
    ensures { TurnAnswer (accepted_in program.now) (state_of values.now marks.old counts.old) i result marks.new counts.new }
{
    ask_lengths(program, values, marks, counts)?;
    let mut work = Work::new();
    start::fill(program, values, marks, &mut work);
    let next = if (i as usize) < marks.len() {
        leave::turn(program, &mut work, marks, counts, i)
    } else {
        None
    };
    Ok(Turn {
        next,
        looped: work.looped,
    })
}
