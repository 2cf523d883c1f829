// A paper, and how its words are laid out in a text: E, N, V and C, the expressions, the nodes, the widths, the values,
// the cycles asked, and the entries of the book.
ghost use Rattle.std.specs.Prelude.{◌≡◌, ◌≤◌, ◌+◌, ◌*◌, length};

use super::errors::{Fault, Limit};
use super::line::Line;
use paper::FileSizes;
use program::Program;
use program::limits::{EXPRS_MAX, NODES_MAX, VARS_MAX};
use std::alloc::{AllocError, Global};

// The longest book.
pub const BOOK: Limit = Limit {
    thing: "book",
    most: 4096,
    of_what: "entries",
};

// The longest paper: E, N, V and C, the longest lists, the cycles asked and the longest book.
pub const WORDS: Limit = Limit {
    thing: "paper",
    // A constant can't call From, so that a u16 is widened by as.
    most: 4 + 3 * EXPRS_MAX + 5 * NODES_MAX + 2 * (VARS_MAX as usize) + 1 + BOOK.most,
    of_what: "words",
};

// The sizes at the start of a paper. A paper that is cut off there has too few words in any case: it is told how many, by the
// sizes that it has.
fn sizes_in(words: &[u16]) -> FileSizes {
    let size = |place: usize| words.get(place).copied().unwrap_or(0);
    FileSizes {
        exprs: size(0),
        nodes: size(1),
        vars: size(2),
        chans: size(3),
    }
}

// The words of all lists.
pub fn list_words(sizes: FileSizes) -> usize
    ensures sum { result ≡ 3 * sizes.exprs + 5 * sizes.nodes + 2 * sizes.vars }
    ensures most { result ≤ 655350 }
{
    let lengths = sizes.lengths();
    lengths.exprs + lengths.nodes + 2 * lengths.vars
}

// A paper under its heading. Widths and values stand side by side, since the calls take them as two lists.
#[derive(Drop)]
pub struct Paper {
    pub heading: Line,
    pub sizes: FileSizes,
    pub exprs: Vec<u16>,
    pub nodes: Vec<u16>,
    pub widths: Vec<u16>,
    pub values: Vec<u16>,
    pub cycles: u16,
    pub book: Vec<u16>,
}

// The words of a paper by what they are: slices, until the length of the book is known. They stand beside each other as the
// calls take them.
#[derive(Clone, Copy)]
struct Parts<'a> {
    exprs: &'a [u16],
    nodes: &'a [u16],
    widths: &'a [u16],
    values: &'a [u16],
    cycles: u16,
    book: &'a [u16],
}

fn parts_in<'a>(words: &'a [u16], sizes: FileSizes) -> Parts<'a>
    requires { 4 + (3 * sizes.exprs + 5 * sizes.nodes + 2 * sizes.vars) + 1 ≤ length words.now }
{
    let lengths = sizes.lengths();
    let (exprs, rest) = words[4..].split_at(lengths.exprs);
    let (nodes, rest) = rest.split_at(lengths.nodes);
    let (widths, rest) = rest.split_at(lengths.vars);
    let (values, rest) = rest.split_at(lengths.vars);
    Parts {
        exprs,
        nodes,
        widths,
        values,
        cycles: rest[0],
        book: &rest[1..],
    }
}

impl Paper {
    // The paper that words say, if it has all its lists, and a book of no more entries than there may be.
    pub fn new(alloc: Global, heading: Line, words: &[u16]) -> Result<Paper, Fault> {
        let sizes = sizes_in(words);
        let (has, needs) = (words.len(), 4 + list_words(sizes) + 1);
        if has < needs {
            return Err(Fault::CutShort { has, needs });
        }
        let parts = parts_in(words, sizes);
        if BOOK.most < parts.book.len() {
            return Err(Fault::TooLong(BOOK));
        }
        Ok(Paper::of(alloc, heading, sizes, parts)?)
    }

    fn of(
        alloc: Global,
        heading: Line,
        sizes: FileSizes,
        parts: Parts,
    ) -> Result<Paper, AllocError> {
        Ok(Paper {
            heading,
            sizes,
            exprs: parts.exprs.to_vec(alloc)?,
            nodes: parts.nodes.to_vec(alloc)?,
            widths: parts.widths.to_vec(alloc)?,
            values: parts.values.to_vec(alloc)?,
            cycles: parts.cycles,
            book: parts.book.to_vec(alloc)?,
        })
    }

    // Its program, as the calls take it.
    pub fn program(&self) -> Program<'_> {
        Program {
            exprs: &self.exprs,
            nodes: &self.nodes,
            widths: &self.widths,
            vars: self.sizes.vars,
            chans: self.sizes.chans,
        }
    }
}
