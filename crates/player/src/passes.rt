// Expressions worked from left to right, without a call inside a call.
ghost use Rattle.std.specs.Prelude.{◌≡◌, cond, ℕ, suc, ◌+◌, ◌≤◌, ◌<◌, eqb, get_or};
ghost use Rattle.semantics.specs.Program.{expr_count};
ghost use Rattle.program.specs.Accepted.{accepted_in};
ghost use Rattle.player.specs.Memo.{Known, Worked, WorkedTo, WorkedNow, value_of};

use crate::memo::Memo;
use crate::records;
use program::{Accepted, Expr, Op, UnknownOp, VarId, apply_op};

// The value of e, and with it of all expressions before it. The pass starts at the first that is not worked yet, so that
// several deep formulas in one cycle take one pass together.
#[tactic(auto, using(crate::proofs::OperandLaws::exprs_fit))]
pub fn work_up_to(program: &Accepted, memo: &mut Memo, e: u16) -> u16
    requires e_bound { e < expr_count (accepted_in program.now).exprs }
    requires known { Known (accepted_in program.now).exprs memo.old }
    ensures { Worked (accepted_in program.now).exprs memo.old memo.new e result }
{
    let from = first_unworked(memo, e);
    let value = work_from(program, memo, from, e);
    let present = memo.present;
    memo.moments[from as usize..=e as usize].fill(present);
    value
}

// The first expression that is not worked at the present moment, or e where all before e are.
fn first_unworked(memo: &Memo, e: u16) -> u16
    requires { e < 1024 }
    ensures { (result ≤ e) × ((j : ℕ) → j < result → WorkedNow memo.now j) }
{
    (0..e)
        .find(|i| memo.moments[*i as usize] != memo.present)
        .unwrap_or(e)
}

// Works the expressions from one up to e, where all before it are worked. Moments are written afterwards, many words at
// once. With nothing before the first, `prev` is 0, which no operand of the first asks for: an Option would be no plainer.
// It is carried, since with `i.saturating_sub(1)` in each turn a chain took a tenth more instructions.
#[tactic(auto, using(crate::proofs::OperandLaws::exprs_fit, crate::proofs::MemoLaws::worked_first))]
fn work_from(program: &Accepted, memo: &mut Memo, from: u16, e: u16) -> u16
    requires e_bound { (e < expr_count (accepted_in program.now).exprs) × (from ≤ e) }
    requires known { Known (accepted_in program.now).exprs memo.old }
    requires front { (j : ℕ) → j < from → WorkedNow memo.old j }
    ensures worked { WorkedTo (accepted_in program.now).exprs memo.new (e + 1) result }
    ensures kept { memo.new ≡ record memo.old { formulas = memo.new.formulas } }
{
    let mut prev = from.saturating_sub(1);
    let mut last = memo.formulas[prev as usize];
    for i in from..=e {
        last = next_value(program, memo, i, prev, last);
        memo.formulas[i as usize] = last;
        prev = i;
    }
    last
}

// The value of expression i, where those of all before it stand in `memo`, and `last` is that of `prev`, the one right before
// it.
#[tactic(auto, using(crate::proofs::OperandLaws::expression_laws), unfolding(semantics::specs::Expressions::value_of))]
fn next_value(program: &Accepted, memo: &Memo, i: u16, prev: u16, last: u16) -> u16
    requires i_bound { (i < expr_count (accepted_in program.now).exprs) × (0 < i → suc prev ≡ i) }
    requires worked { WorkedTo (accepted_in program.now).exprs memo.now i last }
    ensures { result ≡ value_of (accepted_in program.now).exprs memo.now.variables i }
{
    let Expr { op, p, q } = records::expr(program, i);
    match Op::try_from(op) {
        Ok(Op::Binary(_)) => {
            let y = operand(memo, q, prev, last);
            apply_op(op, operand(memo, p, prev, last), y)
        }
        Ok(Op::Variable) => memo.variable(VarId(p)),
        Ok(Op::Number) => p,
        // No word of an accepted program. Where it is taken as a number is, one test finds the ops on two operands; with
        // `records::op` a chain took a seventh more instructions.
        Err(UnknownOp) => p,
    }
}

// The value of an operand p: `last`, which need not be read back, where it is `prev`.
fn operand(memo: &Memo, p: u16, prev: u16, last: u16) -> u16
    requires { p < 1024 }
    ensures { result ≡ cond (eqb p prev) last (get_or memo.now.formulas p 0) }
{
    if p == prev {
        last
    } else {
        memo.formulas[p as usize]
    }
}
