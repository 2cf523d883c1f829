// Texts of more than one place: a count of things, a list, what may be left out, and the start of a text.
use std::fmt;
use std::fmt::Display;

// So many of a thing.
#[derive(Clone, Copy)]
pub struct Counted {
    count: u16,
    thing: &'static str,
}

impl Counted {
    pub fn new(count: u16, thing: &'static str) -> Counted {
        Counted { count, thing }
    }
}

impl Display for Counted {
    fn fmt<W: fmt::Write>(&self, f: &mut fmt::Formatter<W>) -> fmt::Result {
        let plural = if self.count == 1 { "" } else { "s" };
        write!(f, "{} {}{plural}", self.count, self.thing)
    }
}

// The first items of a list, with a text between them. `format` of itertools takes memory for the items.
#[derive(Drop)]
pub struct Joined<'a, T> {
    items: &'a [T],
    most: usize,
    between: &'static str,
}

impl<'a, T> Joined<'a, T> {
    pub fn new(items: &'a [T], most: usize, between: &'static str) -> Joined<'a, T> {
        Joined {
            items,
            most,
            between,
        }
    }
}

impl<T: Display> Display for Joined<'_, T> {
    fn fmt<W: fmt::Write>(&self, f: &mut fmt::Formatter<W>) -> fmt::Result {
        for (i, item) in self.items.iter().take(self.most).enumerate() {
            let between = if i == 0 { "" } else { self.between };
            write!(f, "{between}{item}")?;
        }
        Ok(())
    }
}

// A value after a text, or nothing where there is no value.
#[derive(Drop)]
pub struct After<T> {
    before: &'static str,
    value: Option<T>,
}

impl<T> After<T> {
    pub fn new(before: &'static str, value: Option<T>) -> After<T> {
        After { before, value }
    }
}

impl<T: Display> Display for After<T> {
    fn fmt<W: fmt::Write>(&self, f: &mut fmt::Formatter<W>) -> fmt::Result {
        match &self.value {
            Some(value) => write!(f, "{}{value}", self.before),
            None => Ok(()),
        }
    }
}

// What stands in a text before the first of a byte, or all of it where that byte is not there.
pub fn until(text: &[u8], end: u8) -> &[u8] {
    text.split(|byte| *byte == end).next().unwrap_or(text)
}
