// The arguments, and what they ask for.
use super::decimal::{word_of, words_in};
use super::errors::{Error, Fault, told};
use super::layout::BOOK;
use super::order::Order;
use super::playing::Asked;
use std::alloc::Global;
use std::env::FillError;
use std::rt::Env;

// The longest argument.
const ARGUMENT: usize = 4096;

// The most arguments there may be, the program's name among them.
const MOST: usize = 5;

// The word that asks for the climbs.
const CLIMBS: &[u8] = b"--climbs";

const TOO_MANY: Error = Error::Arguments(
    "give a paper, an order, cycles and --climbs at most, as in ./play 3 down 2 --climbs.",
);

// What is done with a paper.
#[derive(Drop)]
pub enum Job {
    Play(Asked),
    // To a new file of this name.
    Write(Vec<u8>),
}

// What is asked for. A name is bytes, since that of a file need not be UTF-8.
#[derive(Drop)]
pub struct Task {
    pub paper: Vec<u8>,
    pub job: Job,
}

// How many arguments there are, the program's name among them, if there are no more than there may be.
fn arg_count(rt: &impl Env) -> Option<usize> {
    (0..=MOST).find(|i| matches!(rt.arg(*i, &mut [0u8; 1]), Err(FillError::NotPresent)))
}

// Argument i, or what is said where it is too long.
fn argument(
    rt: &(impl Env + AllocGlobal),
    i: usize,
    too_long: &'static str,
) -> Result<Vec<u8>, Error> {
    // The library's args gives texts, and none where one is not UTF-8, of which a message tells here. So it is bytes that are
    // asked for, and these go into a buffer of a fixed length.
    let mut bytes = vec![in rt.alloc(); 0u8; ARGUMENT]?;
    match rt.arg(i, &mut bytes) {
        Ok(n) => {
            bytes.truncate(n);
            Ok(bytes)
        }
        Err(_) => Err(Error::Arguments(too_long)),
    }
}

fn order_in(alloc: Global, text: &[u8]) -> Result<Order, Error> {
    match text {
        b"up" => Ok(Order::Ascending),
        b"down" => Ok(Order::Descending),
        _ => book_in(alloc, text),
    }
}

fn book_in(alloc: Global, text: &[u8]) -> Result<Order, Error> {
    match words_in(alloc, text, BOOK) {
        Ok(book) => Ok(Order::Book(book)),
        Err(Fault::OutOfMemory) => Err(Error::OutOfMemory),
        Err(_) => Err(Error::NoOrder(told(alloc, text)?)),
    }
}

fn cycles_in(alloc: Global, text: &[u8]) -> Result<u16, Error> {
    match word_of(text) {
        Some(cycles) => Ok(cycles),
        None => Err(Error::NoCycles(told(alloc, text)?)),
    }
}

fn is_write(text: &[u8]) -> bool {
    text == b"--write".as_slice()
}

fn play_in_order(alloc: Global, order: &[u8], cycles: Option<u16>) -> Result<Job, Error> {
    Ok(Job::Play(Asked {
        order: Some(order_in(alloc, order)?),
        cycles,
        climbs: false,
    }))
}

fn order_at(rt: &(impl Env + AllocGlobal), i: usize) -> Result<Vec<u8>, Error> {
    argument(rt, i, "the book is too long.")
}

// After a paper, its order.
fn job_of_two(rt: &(impl Env + AllocGlobal), second: usize) -> Result<Job, Error> {
    let second = order_at(rt, second)?;
    if is_write(&second) {
        return Err(Error::Arguments("name the file to write, as in ./play 3 --write swap.words."));
    }
    play_in_order(rt.alloc(), &second, None)
}

// After a paper, its order and cycles, or the file to write.
fn job_of_three(rt: &(impl Env + AllocGlobal), second: usize, third: usize) -> Result<Job, Error> {
    let second = order_at(rt, second)?;
    let third = argument(rt, third, "the last argument is too long.")?;
    if is_write(&second) {
        return Ok(Job::Write(third));
    }
    let cycles = cycles_in(rt.alloc(), &third)?;
    play_in_order(rt.alloc(), &second, Some(cycles))
}

// Whether argument i is the word that asks for the climbs.
fn is_climbs(rt: &impl Env, i: usize) -> bool {
    let mut bytes = [0u8; CLIMBS.len()];
    rt.arg(i, &mut bytes).is_ok() & (bytes.as_slice() == CLIMBS)
}

// The same, with the climbs shown: a paper that is written has none.
fn with_climbs(job: Job) -> Result<Job, Error> {
    match job {
        Job::Play(asked) => Ok(Job::Play(Asked {
            climbs: true,
            ..asked
        })),
        Job::Write(_) => Err(Error::Arguments(
            "--climbs is for playing a paper, and not for --write.",
        )),
    }
}

// After a paper, what is asked for: the word for the climbs may stand at any place among the other arguments.
fn job_of(rt: &(impl Env + AllocGlobal), count: usize) -> Result<Job, Error> {
    let others: Vec<usize> = (2..count)
        .filter(|i| !is_climbs(rt, *i))
        .collect(rt.alloc())?;
    let job = match others.as_slice() {
        [] => Job::Play(Asked::default()),
        [second] => job_of_two(rt, *second)?,
        [second, third] => job_of_three(rt, *second, *third)?,
        _ => return Err(TOO_MANY),
    };
    match (2..count).filter(|i| is_climbs(rt, *i)).count() {
        0 => Ok(job),
        1 => with_climbs(job),
        _ => Err(Error::Arguments("--climbs is given more than once.")),
    }
}

// What the arguments ask for, if there are any.
pub fn asked_task(rt: &(impl Env + AllocGlobal)) -> Result<Option<Task>, Error> {
    let count = arg_count(rt).ok_or(TOO_MANY)?;
    if count < 2 {
        return Ok(None);
    }
    let job = job_of(rt, count)?;
    let paper = argument(rt, 1, "the name of the paper is too long.")?;
    Ok(Some(Task { paper, job }))
}
