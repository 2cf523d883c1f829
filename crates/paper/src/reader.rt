// What a file holds: its program is checked in lists of the reader's own, and only then are lent lists filled.
// These stay parameters by themselves: of a struct that holds a `&mut` each function would have to say that it is the same list.
// `AreSizes` is said of a file and its sizes: a struct of both would be opened again in each function, and `ask_room` and
// `trailer_of` take sizes alone: no plainer.
ghost use Rattle.std.specs.Prelude.{◌≡◌, List, ℕ, IfOk};
ghost use Rattle.semantics.specs.File.{parts_in, program_in};
ghost use Rattle.semantics.specs.FileCalls.{all_fit, all_filled};
ghost use Rattle.program.specs.Answer.{CheckAnswer, number_of, item_of, answer_to};
ghost use Rattle.paper.specs.Read.{parts_from};
ghost use Rattle.paper.specs.Sizes.{AreSizes, HaveRoom};

use super::lengths::{FileSizes, Lengths};
use super::words::take_words;
use program::limits::{EXPRS_MAX, NODES_MAX, VARS_MAX};
use program::{Program, Refusal, check};

// What check asks of the program in a file. Parts that are longer than those of any accepted program break question 1,
// so that the lists here are long enough for the others. They are arrays, since the calls have no heap.
pub fn check_in(file: &[u8], sizes: FileSizes) -> Result<(), Refusal>
    requires { AreSizes file.now sizes }
    ensures { CheckAnswer (program_in file.now) (number_of result) (item_of result) }
{
    let Lengths {
        exprs: e,
        nodes: n,
        vars: v,
    } = sizes.lengths();
    if (3 * EXPRS_MAX < e) | (5 * NODES_MAX < n) | (VARS_MAX < sizes.vars) {
        return Err(Refusal::Sizes);
    }
    let mut exprs = [0u16; 3 * EXPRS_MAX];
    let mut nodes = [0u16; 5 * NODES_MAX];
    let mut widths = [0u16; VARS_MAX as usize];
    take_words(file, 0, e, &mut exprs);
    take_words(file, e, n, &mut nodes);
    take_words(file, e + n + v, v, &mut widths);
    check(Program {
        exprs: &exprs[..e],
        nodes: &nodes[..n],
        widths: &widths[..v],
        vars: sizes.vars,
        chans: sizes.chans,
    })
}

// Question 13: the parts of a file fit into lists of these lengths.
pub fn ask_room(
    sizes: FileSizes,
    exprs: &[u16],
    nodes: &[u16],
    values: &[u16],
    widths: &[u16],
) -> Result<(), Refusal>
    ensures asked { (file : List ℕ) → AreSizes file sizes → result ≡ answer_to
        (all_fit (parts_in file) (parts_from exprs.now nodes.now values.now widths.now)) Refusal.Room }
    ensures room { IfOk result (λ _. HaveRoom sizes (parts_from exprs.now nodes.now values.now widths.now)) }
{
    let lengths = sizes.lengths();
    let fit = (lengths.exprs <= exprs.len())
        & (lengths.nodes <= nodes.len())
        & (lengths.vars <= values.len())
        & (lengths.vars <= widths.len());
    fit.then_some(()).ok_or(Refusal::Room)
}

// Fills four lists with the parts of a file, which begin where `check_in` takes them. One function for both would also ask for
// a list for the values, which `check_in` has not.
pub fn fill_all(
    file: &[u8],
    sizes: FileSizes,
    exprs: &mut [u16],
    nodes: &mut [u16],
    values: &mut [u16],
    widths: &mut [u16],
)
    requires right { AreSizes file.now sizes }
    requires room { HaveRoom sizes (parts_from exprs.old nodes.old values.old widths.old) }
    ensures { parts_from exprs.new nodes.new values.new widths.new
        ≡ all_filled (parts_in file.now)
        (parts_from exprs.old nodes.old values.old widths.old) }
{
    let Lengths {
        exprs: e,
        nodes: n,
        vars: v,
    } = sizes.lengths();
    take_words(file, 0, e, exprs);
    take_words(file, e, n, nodes);
    take_words(file, e + n, v, values);
    take_words(file, e + n + v, v, widths);
}
