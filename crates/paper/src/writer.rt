// Putting a file together.
ghost use Rattle.std.specs.Prelude.{◌≡◌, ◌++◌, ◌+◌, ◌*◌, ◌≤◌, ◌<◌, length};
ghost use Rattle.semantics.specs.Bytes.{bytes_of};
ghost use Rattle.semantics.specs.File.{exprs_back, trailer};
ghost use Rattle.semantics.specs.FileCalls.{filled};
ghost use Rattle.program.specs.Answer.{program_in};
ghost use Rattle.paper.specs.Sizes.{sizes_in_code};

use super::lengths::FileSizes;
use super::trailer::Distances;
use super::words::put_words;
use program::Program;

// The parts, one after the other.
pub fn put_parts(program: Program, values: &[u16], file: &mut [u8])
    requires { 2 * (length program.exprs.now + length program.nodes.now + length values.now
        + length program.widths.now) ≤ length file.old }
    ensures { file.new ≡ filled
        (bytes_of (program.entry.exprs.now ++ program.entry.nodes.now ++ values.now ++ program.entry.widths.now))
        file.old }
{
    let Program {
        exprs,
        nodes,
        widths,
        ..
    } = program;
    put_words(exprs, file, 0);
    let after_exprs = 2 * exprs.len();
    put_words(nodes, file, after_exprs);
    let after_nodes = after_exprs + 2 * nodes.len();
    put_words(values, file, after_nodes);
    put_words(widths, file, after_nodes + 2 * values.len());
}

// The words of a trailer. It is no `From`, since it asks that the distances are words.
pub fn trailer_of(sizes: FileSizes) -> [u16; 8]
    requires { exprs_back (sizes_in_code sizes) < 65536 }
    ensures { result ≡ trailer (sizes_in_code sizes) }
{
    let back = Distances::from(sizes);
    [
        sizes.nodes,
        sizes.exprs,
        sizes.vars,
        sizes.chans,
        back.exprs as u16,
        back.nodes as u16,
        back.values as u16,
        back.widths as u16,
    ]
}
