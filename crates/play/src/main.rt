// Plays a paper and prints it: the program as a listing, a table with a row for each cycle, and the answer in words. Or
// writes the paper to a file of words.
//   play                           plays the first of the papers that come with it, and lists the others
//   play PAPER [ORDER [CYCLES]]    plays a paper; CYCLES are asked in place of the paper's own number
//   play PAPER .. --climbs         shows the climbs of each cycle too; it may stand anywhere after PAPER
//   play PAPER --write FILE        writes a paper to a new file of words
// PAPER is the number of a paper that comes with the program, or a file: a text, or a file of words. ORDER is up, down,
// or a book such as 2,1. A climb is how a statement that completes is left, turn by turn.
#![tactic(auto)]

mod answer; // the answer in words
mod arguments; // the arguments, and what they ask for
mod climbs; // the climbs of a cycle
mod cycles; // begin, and run a cycle at a time
mod decimal; // decimal text into words
mod errors; // what is wrong, in one line
mod expression; // an expression in infix
mod file; // reading and writing a file
mod layout; // a paper, and its words
mod line; // a line of output
mod listing; // the program as a listing
mod machine; // the calls of the player and of files
mod order; // the order of the entries for a cycle
mod papers; // the texts of the papers that come with the program
mod playing; // playing a paper
mod source; // papers by number and from files
mod state; // the state of a run
mod statement; // a statement of a program
mod table; // the table
mod text; // counts and lists in words
mod turn; // a turn of a climb

use arguments::{Job, Task};
use decimal::word_of;
use errors::Error;
use layout::Paper;
use line::Output;
use playing::{Asked, play};
use std::rt::{Env, Files};

// The paper of a name.
fn find(files: &impl Files, out: Output, name: &[u8]) -> Result<Paper, Error> {
    match word_of(name) {
        Some(paper) => source::numbered(out.alloc, paper),
        None => source::in_file(files, out.alloc, name),
    }
}

// Writes a paper to a new file of words.
fn write(files: &impl Files, out: Output, paper: &Paper, target: &[u8]) -> Result<(), Error> {
    let contents = machine::write(out.alloc, paper)?;
    if let Err(error) = file::create(files, target, &contents) {
        let name = target.to_vec(out.alloc)?;
        return Err(Error::Unwritten { name, error });
    }
    source::print_written(out, contents.len(), target)?;
    Ok(())
}

fn perform(files: &impl Files, out: Output, task: Task) -> Result<(), Error> {
    let Task { paper, job } = task;
    let paper = find(files, out, &paper)?;
    match job {
        Job::Play(asked) => play(out, paper, asked)?,
        Job::Write(target) => write(files, out, &paper, &target)?,
    }
    Ok(())
}

fn play_first(out: Output) -> Result<(), Error> {
    let paper = source::numbered(out.alloc, 1)?;
    play(out, paper, Asked::default())?;
    source::print_papers(out)?;
    Ok(())
}

fn run(rt: &(impl Env + Files + AllocGlobal), out: Output) -> Result<(), Error> {
    match arguments::asked_task(rt)? {
        Some(task) => perform(rt, out, task),
        None => play_first(out),
    }
}

fn main(rt: HostRuntime) {
    let out = Output {
        to: rt.stdout(),
        alloc: rt.alloc(),
    };
    let err = rt.stderr();
    if let Err(error) = run(&rt, out) {
        if error.print(out, err).is_err() {
            errors::say_out_of_memory(err);
        }
    }
}
