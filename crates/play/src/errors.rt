// What is wrong with the arguments or with a file, in one line.
use super::answer;
use super::line::{Line, Output};
use super::papers::PAPERS;
use super::text::until;
use program::Refusal;
use std::alloc::{AllocError, AllocFailed, Global};
use std::io::Print;
use std::rt::Stderr;
use std::{fmt, io};

// The most bytes of a text of the user's that are told.
const TOLD: usize = 40;

// What is said before the name of a file that a call could not write.
const UNWRITTEN: &str = "play: nothing, or not all, is written to ";

// The most that there may be of a thing.
#[derive(Clone, Copy)]
pub struct Limit {
    pub thing: &'static str,
    pub most: usize,
    pub of_what: &'static str,
}

// What is wrong with a file.
#[derive(Drop)]
pub enum Fault {
    OutOfMemory,
    Unread(io::Error),
    TooLong(Limit),
    // Fewer words than the lists need.
    CutShort { has: usize, needs: usize },
    // On a line, something else than a word.
    NotAWord { line: usize, text: Vec<u8> },
}

// Why nothing is played or written. It is no Display, and neither is a fault: what they tell of the user's need not be UTF-8.
#[derive(Drop)]
pub enum Error {
    OutOfMemory,
    // The arguments are not what they should be.
    Arguments(&'static str),
    NoOrder(Vec<u8>),
    NoCycles(Vec<u8>),
    NoPaper(u16),
    InFile { name: Vec<u8>, fault: Fault },
    Unwritten { name: Vec<u8>, error: io::Error },
    // By a question that is asked where a file of words is read or written.
    Refused(Refusal),
}

// There is a From for each type of error: one for several would need a trait that these types of std have, and the derive of
// thiserror asks for Display.
impl From<AllocError> for Fault {
    fn from(_error: AllocError) -> Fault {
        Fault::OutOfMemory
    }
}

impl<T: Drop> From<AllocFailed<T>> for Fault {
    fn from(_error: AllocFailed<T>) -> Fault {
        Fault::OutOfMemory
    }
}

impl From<io::Error> for Fault {
    fn from(error: io::Error) -> Fault {
        Fault::Unread(error)
    }
}

impl From<AllocError> for Error {
    fn from(_error: AllocError) -> Error {
        Error::OutOfMemory
    }
}

// A line takes every text, unless memory runs out.
impl From<fmt::Error> for Error {
    fn from(_error: fmt::Error) -> Error {
        Error::OutOfMemory
    }
}

impl From<Refusal> for Error {
    fn from(refusal: Refusal) -> Error {
        Error::Refused(refusal)
    }
}

// The start of a text of the user's, as much as is told of it.
pub fn told(alloc: Global, text: &[u8]) -> Result<Vec<u8>, AllocError> {
    text.iter().copied().take(TOLD).collect(alloc)
}

// What the system says of a failed call. std puts the error's number after it, in parentheses, which is left out.
fn reason_of(text: &[u8]) -> &[u8] {
    let reason = until(text, b'(');
    reason.strip_suffix(b" ".as_slice()).unwrap_or(reason)
}

fn put_reason(error: &io::Error, line: &mut Line) -> fmt::Result {
    let mut whole = line.another();
    whole.put(error);
    line.put(": ");
    line.put_readable(reason_of(whole.text()?));
    Ok(())
}

// What an argument should be, and what it is.
fn put_unclear(what: &str, text: &[u8], line: &mut Line) {
    line.put(format_args!("play: {what}, and not "));
    line.put_readable(text);
}

fn put_no_paper(paper: u16, line: &mut Line) {
    let count = PAPERS.len();
    line.put(format_args!("play: there is no paper {paper}: the papers are 1 to {count}."));
}

impl Limit {
    fn put(self, line: &mut Line) {
        let Limit {
            thing,
            most,
            of_what,
        } = self;
        line.put(format_args!(": the {thing} is too long: it has more than {most} {of_what}."));
    }
}

fn put_cut_short(has: usize, needs: usize, line: &mut Line) {
    line.put(format_args!(
        ": the paper is cut short: it has {has} words, and its lists need {needs}."
    ));
}

fn put_no_word(number: usize, text: &[u8], line: &mut Line) {
    line.put(format_args!(", line {number}: "));
    line.put_readable(text);
    line.put(" is no word (a number from 0 to 65535).");
}

impl Fault {
    // What is said after the name of the file.
    fn put(&self, line: &mut Line) -> fmt::Result {
        match self {
            Fault::OutOfMemory => line.put(": out of memory"),
            Fault::Unread(error) => put_reason(error, line)?,
            Fault::TooLong(limit) => limit.put(line),
            Fault::CutShort { has, needs } => put_cut_short(*has, *needs, line),
            Fault::NotAWord { line: number, text } => put_no_word(*number, text, line),
        }
        Ok(())
    }
}

fn write_name(err: Stderr, before: &str, name: &[u8]) {
    let _ = err.write_all(before.as_bytes());
    let _ = err.write_all(name);
}

pub fn say_out_of_memory(err: Stderr) {
    let _ = err.write_all(b"play: out of memory\n");
}

impl Error {
    // A fault of the file of a name.
    pub fn in_file(alloc: Global, name: &[u8], fault: Fault) -> Error {
        match name.to_vec(alloc) {
            Ok(name) => Error::InFile { name, fault },
            Err(_) => Error::OutOfMemory,
        }
    }

    // The name of a file is written by itself, since it can be longer than a line.
    fn write_file(&self, err: Stderr) {
        match self {
            Error::InFile { name, .. } => write_name(err, "play: ", name),
            Error::Unwritten { name, .. } => write_name(err, UNWRITTEN, name),
            _ => {}
        }
    }

    // Says it on a line. A refusal is an answer, and goes to the output.
    pub fn print(&self, out: Output, err: Stderr) -> fmt::Result {
        let mut line = out.line();
        match self {
            Error::OutOfMemory => return Err(fmt::Error),
            Error::Refused(refusal) => return answer::print_file_refused(out, *refusal),
            Error::Arguments(text) => line.put(format_args!("play: {text}")),
            Error::NoOrder(text) => put_unclear(
                "an order is up, down or a book such as 2,1",
                text,
                &mut line,
            ),
            Error::NoCycles(text) => put_unclear(
                "a number of cycles is from 0 to 65535",
                text,
                &mut line,
            ),
            Error::NoPaper(paper) => put_no_paper(*paper, &mut line),
            Error::InFile { fault, .. } => fault.put(&mut line)?,
            Error::Unwritten { error, .. } => put_reason(error, &mut line)?,
        }
        // No name comes before a line that there is no memory for.
        line.text()?;
        self.write_file(err);
        line.end(&err)
    }
}
