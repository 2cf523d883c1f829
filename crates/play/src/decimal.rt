// Decimal text into words. Blanks and commas part the words, and a # starts a comment up to the end of its line.
ghost use Rattle.std.specs.Prelude.{◌≡◌};
ghost use Rattle.play.specs.Decimal.{word_of};

use super::errors::{Fault, Limit, told};
use std::alloc::Global;
use std::ops::Range;

// The greatest word.
const WORD_MAX: u32 = 65535;

// The word that decimal digits say. The library's parse takes a sign before them, as in +3, which is no word here. In a u32 a
// digit more overflows nothing: with `checked_mul` and `checked_add` of a u16 each digit took half as many instructions again.
#[tactic(auto, using(crate::proofs::DecimalLaws::reading))]
pub fn word_of(digits: &[u8]) -> Option<u16>
    ensures { result ≡ word_of digits.now }
{
    if digits.is_empty() {
        return None;
    }
    let mut value: u32 = 0;
    for digit in digits {
        if !digit.is_ascii_digit() {
            return None;
        }
        value = 10 * value + u32::from(*digit - b'0');
        if WORD_MAX < value {
            return None;
        }
    }
    // No From makes a u16 of a u32. The contract says that nothing is lost.
    Some(value as u16)
}

// Whether a word ends before a byte.
fn parts_words(byte: u8) -> bool {
    matches!(byte, 9..=13 | b' ' | b',' | b'#')
}

// The number of the line that a place stands in.
fn line_of(text: &[u8], place: usize) -> usize {
    let before = text.get(..place).unwrap_or(text);
    before.split(|byte| *byte == b'\n').count()
}

// Adds the word that stands in a text from a place up to another.
fn add_word(
    text: &[u8],
    place: Range<usize>,
    limit: Limit,
    words: &mut Vec<u16>,
) -> Result<(), Fault> {
    let start = place.start;
    let digits = text.get(place).unwrap_or(&[]);
    let Some(word) = word_of(digits) else {
        let line = line_of(text, start);
        let text = told(*words.allocator(), digits)?;
        return Err(Fault::NotAWord { line, text });
    };
    if limit.most <= words.len() {
        return Err(Fault::TooLong(limit));
    }
    words.push(word)?;
    Ok(())
}

// The words of a text, if there are no more of them than there may be. It goes over the bytes once: with splits at the lines,
// at the comments and at the blanks play makes up to 2.3 times the instructions where empty lines or blanks stand in a row.
pub fn words_in(alloc: Global, text: &[u8], limit: Limit) -> Result<Vec<u16>, Fault> {
    let mut words = Vec::new(alloc);
    let mut in_comment = false;
    // Where the word begins whose bytes are gone over.
    let mut start = None;
    for (place, &byte) in text.iter().enumerate() {
        if in_comment {
            in_comment = byte != b'\n';
        } else if parts_words(byte) {
            if let Some(from) = start.take() {
                add_word(text, from..place, limit, &mut words)?;
            }
            in_comment = byte == b'#';
        } else if start.is_none() {
            start = Some(place);
        }
    }
    if let Some(from) = start {
        add_word(text, from..text.len(), limit, &mut words)?;
    }
    Ok(words)
}
