// The trailer of a file: sizes, then the distances of the parts back from it. Question 12 is asked here.
ghost use Rattle.std.specs.Prelude.{◌≡◌, ◌≤◌, ◌<◌, length, get_or, true, false, MatchOption};
ghost use Rattle.semantics.specs.File.{trailer_in, sizes_in, exprs_back, nodes_back, values_back, widths_back, distances_ok, file_ok};
ghost use Rattle.paper.specs.Sizes.{sizes_in_code, AreSizes};

use super::lengths::{FileSizes, Lengths};
use super::words::word_in;

// The distances of the four parts, in words.
#[derive(Clone, Copy, Debug)]
pub struct Distances {
    pub exprs: usize,
    pub nodes: usize,
    pub values: usize,
    pub widths: usize,
}

impl From<FileSizes> for Distances {
    ghost from_gives = { λ sizes back. back ≡ record {
      exprs = exprs_back (sizes_in_code sizes);
      nodes = nodes_back (sizes_in_code sizes);
      values = values_back (sizes_in_code sizes);
      widths = widths_back (sizes_in_code sizes);
    } };

    fn from(sizes: FileSizes) -> Distances {
        let Lengths { exprs, nodes, vars } = sizes.lengths();
        let widths = vars;
        let values = vars + widths;
        let nodes = nodes + values;
        Distances {
            exprs: exprs + nodes,
            nodes,
            values,
            widths,
        }
    }
}

// Word k of a trailer. The words are read by number, as the rules of the format do. That there is a trailer is asked in three
// contracts: the rules' `sizes_in` is said of the bytes, so that of an array of its words it would have to be said which file
// they are of: no plainer.
fn trailer_word(file: &[u8], k: usize) -> u16
    requires { (16 ≤ length file.now) × (k < 8) }
    ensures { result ≡ get_or (trailer_in file.now) k 0 }
{
    word_in(file, file.len() / 2 - 8 + k)
}

// The sizes that a trailer has. It is no `From`, since it asks that there is a trailer.
fn sizes_in(file: &[u8]) -> FileSizes
    requires { 16 ≤ length file.now }
    ensures { sizes_in_code result ≡ sizes_in file.now }
{
    FileSizes {
        nodes: trailer_word(file, 0),
        exprs: trailer_word(file, 1),
        vars: trailer_word(file, 2),
        chans: trailer_word(file, 3),
    }
}

// The distances that a trailer has are those that the sizes require.
fn distances_ok(file: &[u8], sizes: FileSizes) -> bool
    requires { 16 ≤ length file.now }
    ensures { result ≡ distances_ok (sizes_in_code sizes) (trailer_in file.now) }
{
    let back = Distances::from(sizes);
    (trailer_word(file, 4) as usize == back.exprs)
        & (trailer_word(file, 5) as usize == back.nodes)
        & (trailer_word(file, 6) as usize == back.values)
        & (trailer_word(file, 7) as usize == back.widths)
}

// Question 12: the sizes of a file, if the bytes are one.
#[tactic(auto, unfolding(semantics::specs::File::file_ok))]
pub fn sizes_of_file(file: &[u8]) -> Option<FileSizes>
    ensures { MatchOption result (file_ok file.now ≡ false) (λ sizes. AreSizes file.now sizes) }
{
    if file.len() < 16 {
        return None;
    }
    let sizes = sizes_in(file);
    let ok = (file.len() % 2 == 0)
        & distances_ok(file, sizes)
        & (file.len() == 2 * Distances::from(sizes).exprs + 16);
    ok.then_some(sizes)
}
