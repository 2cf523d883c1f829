// The calls on files with their answers in one word, as C gets them; the crate paper_c exports them.
ghost use Rattle.std.specs.Prelude.{◌≡◌};
ghost use Rattle.program.specs.Answer.{program_of};
ghost use Rattle.program.specs.Word.{number_in, item_in};
ghost use Rattle.paper.specs.Read.{parts_from, ReadAnswer};
ghost use Rattle.paper.specs.Sizes.{nodes_in, exprs_in, vars_in, chans_in, SizesAnswer};
ghost use Rattle.paper.specs.Write.{WriteAnswer};

use super::FileSizes;
use program::Program;
use program::word::{word_of, word_of_answer};

// Two words, one above the other: nodes and expressions, then variables and channels.
fn word_of_sizes(sizes: FileSizes) -> u64
    ensures nodes { nodes_in result ≡ sizes.nodes }
    ensures exprs { exprs_in result ≡ sizes.exprs }
    ensures vars { vars_in result ≡ sizes.vars }
    ensures chans { chans_in result ≡ sizes.chans }
{
    u64::from(word_of(sizes.nodes, sizes.exprs))
        + 4294967296 * u64::from(word_of(sizes.vars, sizes.chans))
}

// 0 for each where the bytes are no file, as C has it.
pub fn paper_sizes(file: &[u8]) -> u64
    ensures { SizesAnswer file.now (nodes_in result) (exprs_in result) (vars_in result) (chans_in result) }
{
    word_of_sizes(super::sizes(file))
}

pub fn paper_read(
    file: &[u8],
    exprs: &mut [u16],
    nodes: &mut [u16],
    values: &mut [u16],
    widths: &mut [u16],
) -> u32
    ensures { ReadAnswer file.now
        (parts_from exprs.old nodes.old values.old widths.old)
        (number_in result) (item_in result)
        (parts_from exprs.new nodes.new values.new widths.new) }
{
    word_of_answer(super::read(file, exprs, nodes, values, widths))
}

pub fn paper_write(
    exprs: &[u16],
    nodes: &[u16],
    widths: &[u16],
    vars: u16,
    chans: u16,
    values: &[u16],
    file: &mut [u8],
) -> u32
    ensures { WriteAnswer
        (program_of exprs.now nodes.now widths.now vars chans)
        values.now file.old (number_in result) (item_in result) file.new }
{
    // The literal names its fields, where a `new` would take these five by their order.
    let program = Program {
        exprs,
        nodes,
        widths,
        vars,
        chans,
    };
    word_of_answer(super::write(program, values, file))
}
