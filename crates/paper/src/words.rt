// Words in the bytes of a file, the low byte first.
ghost use Rattle.std.specs.Prelude.{◌≡◌, ◌+◌, ◌*◌, ◌≤◌, ◌<◌, length, get_or, drop};
ghost use Rattle.std.proofs.Math.Seq.{paste};
ghost use Rattle.semantics.specs.Bytes.{bytes_of, words_of};

use byteorder::{ByteOrder, LittleEndian};

// Word k of a file.
pub fn word_in(file: &[u8], k: usize) -> u16
    requires { 2 * k + 1 < length file.now }
    ensures { result ≡ get_or (words_of file.now) k 0 }
{
    LittleEndian::read_u16(&file[2 * k..])
}

// Fills the first `count` elements of a list with the words of a file from word `from` on.
// The place is in words: with a slice of bytes in its place each of the seven calls would double two places.
pub fn take_words(file: &[u8], from: usize, count: usize, list: &mut [u16])
    requires { (2 * (from + count) ≤ length file.now) × (count ≤ length list.old) }
    ensures { list.new ≡ paste list.old 0 (drop from (words_of file.now)) count }
{
    LittleEndian::read_u16_into(&file[2 * from..2 * (from + count)], &mut list[..count]);
}

// Puts words into a file from byte `at` on. With a slice in place of `at` each call would give the end too.
pub fn put_words(words: &[u16], file: &mut [u8], at: usize)
    requires { at + 2 * length words.now ≤ length file.old }
    ensures { file.new
        ≡ paste file.old at (bytes_of words.now) (2 * length words.now) }
{
    LittleEndian::write_u16_into(words, &mut file[at..at + 2 * words.len()]);
}
