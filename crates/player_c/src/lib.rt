// The calls of the player for C, an export for each: a slice passes as a pointer and its length in elements.
// crates/player/src/c_interface.rt makes their answers.
// They stand in a crate of their own, since a crate is either a library, as player is for play, or a static library.
#![tactic(auto)]

ghost use Rattle.program.specs.Answer.{program_of, CheckAnswer};
ghost use Rattle.program.specs.Word.{number_in, item_in};
ghost use Rattle.player.specs.Word.{item_of_run_in, worked_in};
ghost use Rattle.player.specs.Begin.{state_of, BeginAnswer};
ghost use Rattle.player.specs.Run.{RunAnswer};

#[unsafe(no_mangle)]
pub extern "C" fn player_check(
    exprs: &[u16],
    nodes: &[u16],
    widths: &[u16],
    vars: u16,
    chans: u16,
) -> u32
    ensures { CheckAnswer (program_of exprs.now nodes.now widths.now vars chans)
        (number_in result) (item_in result) }
{
    player::c_interface::player_check(exprs, nodes, widths, vars, chans)
}

#[unsafe(no_mangle)]
pub extern "C" fn player_begin(
    exprs: &[u16],
    nodes: &[u16],
    widths: &[u16],
    vars: u16,
    chans: u16,
    values: &[u16],
    marks: &mut [u8],
    counts: &mut [u16],
) -> u32
    ensures { BeginAnswer (program_of exprs.now nodes.now widths.now vars chans)
        (state_of values.now marks.old counts.old)
        (number_in result) (item_in result) marks.new counts.new }
{
    player::c_interface::player_begin(exprs, nodes, widths, vars, chans, values, marks, counts)
}

#[unsafe(no_mangle)]
pub extern "C" fn player_run(
    exprs: &[u16],
    nodes: &[u16],
    widths: &[u16],
    vars: u16,
    chans: u16,
    values: &mut [u16],
    marks: &mut [u8],
    counts: &mut [u16],
    book: &[u16],
    cycles: u16,
) -> u64
    ensures { RunAnswer (program_of exprs.now nodes.now widths.now vars chans)
        cycles (state_of values.old marks.old counts.old) book.now
        (number_in result) (item_of_run_in result) (worked_in result)
        (state_of values.new marks.new counts.new) }
{
    player::c_interface::player_run(
        exprs, nodes, widths, vars, chans, values, marks, counts, book, cycles,
    )
}
