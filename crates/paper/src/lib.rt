// Papers as files: the calls sizes, read and write. Tests are joined by `&` and `|`, and numbers cast by `as`, as
// in program.
#![tactic(auto)]

pub mod c_interface; // the calls for C
mod lengths; // the sizes of a paper, and the lengths of its parts
mod reader; // what a file holds
mod trailer; // the trailer, and question 12
mod words; // words in bytes
mod writer; // putting a file together

ghost use Rattle.std.specs.Prelude.{◌≡◌};
ghost use Rattle.semantics.specs.File.{file_ok};
ghost use Rattle.paper.specs.Read.{parts_from, ReadAnswer};
ghost use Rattle.paper.specs.Sizes.{SizesAnswer, given, is_given};
ghost use Rattle.paper.specs.Write.{WriteAnswer};
ghost use Rattle.program.specs.Answer.{program_in, number_of, item_of};

pub use lengths::FileSizes;
use program::{Program, Refusal, accept};
use reader::{ask_room, check_in, fill_all};
use trailer::sizes_of_file;
use words::put_words;
use writer::{put_parts, trailer_of};

// The sizes of the paper in a file, for making buffers; 0 for each where the bytes are no file. C gets the same: its call cannot
// fail, nor can this one.
pub fn sizes(file: &[u8]) -> FileSizes
    ensures { SizesAnswer file.now result.nodes result.exprs result.vars result.chans }
{
    file_sizes(file).unwrap_or_default()
}

// The same, if the bytes are a file.
#[tactic(auto, using(crate::proofs::ReaderLaws::given_answer))]
pub fn file_sizes(file: &[u8]) -> Option<FileSizes>
    ensures answer { SizesAnswer file.now (given result).nodes (given result).exprs (given result).vars
        (given result).chans }
    ensures is_file { is_given result ≡ file_ok file.now }
{
    sizes_of_file(file)
}

// Reads a paper: asks question 12, what check asks, and 13. Where none is answered no, the start of each buffer is
// written; what stood after it is kept.
pub fn read(
    file: &[u8],
    exprs: &mut [u16],
    nodes: &mut [u16],
    values: &mut [u16],
    widths: &mut [u16],
) -> Result<(), Refusal>
    ensures { ReadAnswer file.now
        (parts_from exprs.old nodes.old values.old widths.old)
        (number_of result) (item_of result)
        (parts_from exprs.new nodes.new values.new widths.new) }
{
    let Some(sizes) = sizes_of_file(file) else {
        return Err(Refusal::File);
    };
    check_in(file, sizes)?;
    ask_room(sizes, exprs, nodes, values, widths)?;
    fill_all(file, sizes, exprs, nodes, values, widths);
    Ok(())
}

// Writes a paper: asks what check asks, 5 of the values, and 13. Where none is answered no, the start of the buffer is
// written; what stood after it is kept.
#[tactic(auto, using(crate::proofs::WriterLaws::short, crate::proofs::WriterLaws::limits))]
pub fn write(program: Program, values: &[u16], file: &mut [u8]) -> Result<(), Refusal>
    ensures { WriteAnswer (program_in program.entry) values.now file.old
        (number_of result) (item_of result) file.new }
{
    let accepted = accept(program)?;
    if values.len() != program.vars as usize {
        return Err(Refusal::Lengths);
    }
    let Program {
        exprs,
        nodes,
        widths,
        ..
    } = program;
    let before_trailer = 2 * (exprs.len() + nodes.len() + values.len() + widths.len());
    if file.len() < before_trailer + 16 {
        return Err(Refusal::Room);
    }
    put_parts(program, values, file);
    put_words(
        &trailer_of(FileSizes::from(&accepted)),
        file,
        before_trailer,
    );
    Ok(())
}
