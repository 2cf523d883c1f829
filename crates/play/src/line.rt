// A line of output: it is put together piece by piece and then written out. What would come past its width is dropped. Where
// memory runs out for a piece, the end of the line says so, as in std's DebugStruct.
use std::alloc::Global;
use std::fmt;
use std::fmt::{Display, Write};
use std::io::Print;
use std::rt::Stdout;

// The widest line, in bytes.
pub const WIDTH: usize = 100;

// The bytes of a line. It is no String: a text of the user's need not be UTF-8, and a line may be cut within a character. In
// place of the bytes and an outcome, a Result of the bytes would be matched by each `put`: no plainer.
#[derive(Drop)]
pub struct Line {
    text: Vec<u8>,
    outcome: fmt::Result,
}

// What is no character is read as a question mark.
fn readable(byte: u8) -> u8 {
    if byte.is_ascii_control() { b'?' } else { byte }
}

impl Line {
    pub fn new(alloc: Global) -> Line {
        Line {
            text: Vec::new(alloc),
            outcome: Ok(()),
        }
    }

    // A line in the same memory.
    pub fn another(&self) -> Line {
        Line::new(*self.text.allocator())
    }

    // How many bytes there is room for.
    pub fn room(&self) -> usize {
        self.room_to(WIDTH)
    }

    // How many there is room for before a column.
    pub fn room_to(&self, column: usize) -> usize {
        column.saturating_sub(self.text.len())
    }

    pub fn put(&mut self, text: impl Display + Drop) {
        if write!(self, "{text}").is_err() {
            self.outcome = Err(fmt::Error);
        }
    }

    // A text of the user's.
    pub fn put_readable(&mut self, text: &[u8]) {
        let room = self.room();
        let readable = text.iter().take(room).map(|byte| readable(*byte));
        if self.text.extend(readable).is_err() {
            self.outcome = Err(fmt::Error);
        }
    }

    // Blanks up to a column.
    pub fn pad_to(&mut self, column: usize) {
        let blanks = self.room_to(column);
        self.put(format_args!("{:blanks$}", ""));
    }

    // A text from a column on.
    pub fn put_at(&mut self, column: usize, text: impl Display + Drop) {
        self.pad_to(column);
        self.put(text);
    }

    // What is put so far, if memory was there for it.
    pub fn text(&self) -> Result<&[u8], fmt::Error> {
        self.outcome?;
        Ok(self.text.as_slice())
    }

    // Writes the line to one of the two outputs, in one call, and begins the next. A line that cannot be written is let go.
    pub fn end(&mut self, to: &impl Print) -> fmt::Result {
        self.outcome?;
        self.text.extend_from_slice(b"\n")?;
        let _ = to.write_all(self.text.as_slice());
        self.text.clear();
        Ok(())
    }
}

impl Write for Line {
    fn write_str(&mut self, text: &str) -> fmt::Result {
        let room = self.room().min(text.len());
        self.text.extend_from_slice(&text.as_bytes()[..room])?;
        Ok(())
    }
}

// The length of a text.
#[derive(Drop)]
struct Length(usize);

impl Write for Length {
    fn write_str(&mut self, text: &str) -> fmt::Result {
        self.0 = self.0.saturating_add(text.len());
        Ok(())
    }
}

// How many bytes a text has when it is written out.
pub fn length_of(text: impl Display + Drop) -> Result<usize, fmt::Error> {
    let mut length = Length(0);
    write!(length, "{text}")?;
    Ok(length.0)
}

// The output that lines go to, and the memory that they are put together in.
#[derive(Clone, Copy)]
pub struct Output {
    pub to: Stdout,
    pub alloc: Global,
}

impl Output {
    pub fn line(self) -> Line {
        Line::new(self.alloc)
    }

    pub fn end(self, line: &mut Line) -> fmt::Result {
        line.end(&self.to)
    }

    // A whole line.
    pub fn say(self, text: impl Display + Drop) -> fmt::Result {
        let mut line = self.line();
        line.put(text);
        self.end(&mut line)
    }
}
