// The calls on files for C, an export for each: a slice passes as a pointer and its length in elements.
// crates/paper/src/c_interface.rt makes their answers.
// They stand in a crate of their own, since a crate is either a library, as paper is for play, or a static library.
#![tactic(auto)]

ghost use Rattle.program.specs.Answer.{program_of};
ghost use Rattle.program.specs.Word.{number_in, item_in};
ghost use Rattle.paper.specs.Read.{parts_from, ReadAnswer};
ghost use Rattle.paper.specs.Sizes.{nodes_in, exprs_in, vars_in, chans_in, SizesAnswer};
ghost use Rattle.paper.specs.Write.{WriteAnswer};

#[unsafe(no_mangle)]
pub extern "C" fn paper_sizes(file: &[u8]) -> u64
    ensures { SizesAnswer file.now (nodes_in result) (exprs_in result) (vars_in result) (chans_in result) }
{
    paper::c_interface::paper_sizes(file)
}

#[unsafe(no_mangle)]
pub extern "C" fn paper_read(
    file: &[u8],
    exprs: &mut [u16],
    nodes: &mut [u16],
    values: &mut [u16],
    widths: &mut [u16],
) -> u32
    ensures { ReadAnswer file.now
        (parts_from exprs.old nodes.old values.old widths.old)
        (number_in result) (item_in result)
        (parts_from exprs.new nodes.new values.new widths.new) }
{
    paper::c_interface::paper_read(file, exprs, nodes, values, widths)
}

#[unsafe(no_mangle)]
pub extern "C" fn paper_write(
    exprs: &[u16],
    nodes: &[u16],
    widths: &[u16],
    vars: u16,
    chans: u16,
    values: &[u16],
    file: &mut [u8],
) -> u32
    ensures { WriteAnswer
        (program_of exprs.now nodes.now widths.now vars chans)
        values.now file.old (number_in result) (item_in result) file.new }
{
    paper::c_interface::paper_write(exprs, nodes, widths, vars, chans, values, file)
}
