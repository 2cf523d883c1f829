// Where papers come from: their numbers, or files.
use super::decimal::words_in;
use super::errors::{Error, Fault};
use super::layout::{Paper, WORDS};
use super::line::{Line, Output};
use super::papers::PAPERS;
use super::text::until;
use super::{file, machine, papers};
use std::alloc::Global;
use std::fmt;
use std::rt::Files;

// The title of a paper: its first line, if that is a comment.
fn title_of(text: &[u8]) -> Option<&[u8]> {
    let comment = until(text.strip_prefix(b"#".as_slice())?, b'\n');
    Some(comment.get(1..).unwrap_or(&[]))
}

fn put_title(text: &[u8], before: &str, line: &mut Line) {
    if let Some(title) = title_of(text) {
        line.put(before);
        line.put_readable(title);
    }
}

// The paper that a text says.
fn read_text(alloc: Global, heading: Line, text: &[u8]) -> Result<Paper, Fault> {
    let words = words_in(alloc, text, WORDS)?;
    Paper::new(alloc, heading, &words)
}

// The paper that the text under a name says. Its title comes after what the heading has.
fn in_text(alloc: Global, name: &[u8], mut heading: Line, text: &[u8]) -> Result<Paper, Error> {
    put_title(text, ": ", &mut heading);
    read_text(alloc, heading, text).map_err(|fault| Error::in_file(alloc, name, fault))
}

// ---- the papers that come with the program

pub fn numbered(alloc: Global, paper: u16) -> Result<Paper, Error> {
    let text = papers::text_of(paper).ok_or(Error::NoPaper(paper))?;
    let mut heading = Line::new(alloc);
    heading.put(format_args!("Paper {paper}"));
    in_text(alloc, b"paper", heading, text.as_bytes())
}

fn print_paper(out: Output, paper: u16, text: &str) -> fmt::Result {
    let mut line = out.line();
    line.put(format_args!("{paper:>4}"));
    put_title(text.as_bytes(), "  ", &mut line);
    out.end(&mut line)
}

// The papers after the first.
pub fn print_papers(out: Output) -> fmt::Result {
    out.say("")?;
    out.say(
        "Other papers: ./play 3 plays paper 3, ./play 3 down in descending order, ./play 3 2,1 by the book",
    )?;
    out.say("2,1, and ./play FILE a paper from a file, as those in examples/.")?;
    out.say(
        "A file is a text or a file of words; ./play 3 --write FILE writes paper 3 to a new file of words.",
    )?;
    out.say("./play 3 --climbs shows how each statement that completes is left, turn by turn.")?;
    for (paper, text) in (1..u16::MAX).zip(PAPERS.iter()).skip(1) {
        print_paper(out, paper, text)?;
    }
    Ok(())
}

// ---- a paper from a file

// Whether bytes are a file of words and not a text. A text has no byte 0; a file that is accepted has one, since V is
// at most 256: one of V's two bytes is 0.
fn is_of_words(contents: &[u8]) -> bool {
    contents.contains(&0)
}

fn in_contents(alloc: Global, name: &[u8], contents: &[u8]) -> Result<Paper, Error> {
    let mut heading = Line::new(alloc);
    heading.put_readable(name);
    if is_of_words(contents) {
        machine::read(alloc, heading, contents)
    } else {
        in_text(alloc, name, heading, contents)
    }
}

pub fn in_file(files: &impl Files, alloc: Global, name: &[u8]) -> Result<Paper, Error> {
    let contents = file::read(files, alloc, name).map_err(|fault| Error::in_file(
        alloc, name, fault,
    ))?;
    in_contents(alloc, name, &contents)
}

// That so many bytes are written to a file.
pub fn print_written(out: Output, count: usize, target: &[u8]) -> fmt::Result {
    let mut line = out.line();
    line.put(format_args!("{count} bytes are written to "));
    line.put_readable(target);
    line.put(".");
    out.end(&mut line)
}
