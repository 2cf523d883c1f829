// The values of single expressions, worked when they are asked for. What takes more than a step on numbers and variables is
// worked once and noted while no value changes. `Known` is said of a program and a memo, and `HasOperands` of a number and a
// program: of structs that held both each function would have to say that it is still the same program: no plainer.
ghost use Rattle.std.specs.Prelude.{◌<◌};
ghost use Rattle.semantics.specs.Program.{expr_count};
ghost use Rattle.program.specs.Accepted.{accepted_in};
ghost use Rattle.player.specs.Memo.{Known, Handed, HasOperands, Worked};

use crate::memo::Memo;
use crate::{passes, records};
use program::{Accepted, Expr, Op, VarId, apply_op};

// How many expressions may be worked inside one another. Where it takes more, all up to one of them are worked from left
// to right.
const NESTED_MAX: u16 = 24;

// The value of expression e, if it is a number or a variable, or is worked already. Neither this nor `plain` is made of the
// other: each way costs some programs up to a seventh more instructions.
#[tactic(auto, using(crate::proofs::OperandLaws::expression_laws), unfolding(semantics::specs::Expressions::value_of))]
fn at_hand(program: &Accepted, memo: &Memo, e: u16) -> Option<u16>
    requires e_bound { e < expr_count (accepted_in program.now).exprs }
    requires known { Known (accepted_in program.now).exprs memo.now }
    ensures { Handed (accepted_in program.now).exprs memo.now.variables e result }
{
    let p = records::expr(program, e).p;
    match records::op(program, e) {
        Op::Number => Some(p),
        Op::Variable => Some(memo.variable(VarId(p))),
        Op::Binary(_) => memo.worked(e),
    }
}

// A number's or a variable's value; of any other expression nothing is read.
#[tactic(auto, using(crate::proofs::OperandLaws::expression_laws), unfolding(semantics::specs::Expressions::value_of))]
fn plain(program: &Accepted, memo: &Memo, e: u16) -> Option<u16>
    requires e_bound { e < expr_count (accepted_in program.now).exprs }
    requires known { Known (accepted_in program.now).exprs memo.now }
    ensures { Handed (accepted_in program.now).exprs memo.now.variables e result }
{
    let p = records::expr(program, e).p;
    match records::op(program, e) {
        Op::Number => Some(p),
        Op::Variable => Some(memo.variable(VarId(p))),
        Op::Binary(_) => None,
    }
}

// The value of expression e, which has two operands, where both are plain: a step on them is as quick as to look whether it
// was made before, so it is never noted.
#[tactic(auto, using(crate::proofs::OperandLaws::expression_laws), unfolding(semantics::specs::Expressions::value_of))]
fn step(program: &Accepted, memo: &Memo, e: u16) -> Option<u16>
    requires e_bound { (e < expr_count (accepted_in program.now).exprs) × HasOperands (accepted_in program.now).exprs e }
    requires known { Known (accepted_in program.now).exprs memo.now }
    ensures { Handed (accepted_in program.now).exprs memo.now.variables e result }
{
    let Expr { op, p, q } = records::expr(program, e);
    let x = plain(program, memo, p)?;
    let y = plain(program, memo, q)?;
    Some(apply_op(op, x, y))
}

// The value of expression e at the present moment.
pub fn value(program: &Accepted, memo: &mut Memo, e: u16) -> u16
    requires e_bound { e < expr_count (accepted_in program.now).exprs }
    requires known { Known (accepted_in program.now).exprs memo.old }
    ensures { Worked (accepted_in program.now).exprs memo.old memo.new e result }
{
    match plain(program, memo, e) {
        Some(value) => value,
        None => compound(program, memo, e),
    }
}

// The same, for right sides: here a step on plain operands is worth being made without a call, which in the walks, where
// conditions are read, costs more than it gains. One function for both took up to 17 % more instructions in a cycle with
// such a step, and up to 9 % more without.
pub fn right_side(program: &Accepted, memo: &mut Memo, e: u16) -> u16
    requires e_bound { e < expr_count (accepted_in program.now).exprs }
    requires known { Known (accepted_in program.now).exprs memo.old }
    ensures { Worked (accepted_in program.now).exprs memo.old memo.new e result }
{
    if let Some(value) = plain(program, memo, e) {
        return value;
    }
    match step(program, memo, e) {
        Some(value) => value,
        None => compound(program, memo, e),
    }
}

// The value of expression e, which has two operands. It is called from several places, so that the compiler keeps it one
// function: made part of the walks, it would slow them down. With `operand_value` in its place cycles took up to three fifths
// more instructions.
#[tactic(auto, using(crate::proofs::OperandLaws::exprs_fit))]
fn compound(program: &Accepted, memo: &mut Memo, e: u16) -> u16
    requires e_bound { (e < expr_count (accepted_in program.now).exprs) × HasOperands (accepted_in program.now).exprs e }
    requires known { Known (accepted_in program.now).exprs memo.old }
    ensures { Worked (accepted_in program.now).exprs memo.old memo.new e result }
{
    if let Some(value) = step(program, memo, e) {
        return value;
    }
    match memo.worked(e) {
        Some(value) => value,
        None => worked_value(program, memo, NESTED_MAX, e),
    }
}

// The value of expression e inside another, where so many more may be worked inside one another. With the looks that `compound`
// makes, a step before what is noted, cycles took up to 15 % more instructions.
#[cycle(operand_value_worked_value)]
fn operand_value(program: &Accepted, memo: &mut Memo, nested: u16, e: u16) -> u16
    requires e_bound { e < expr_count (accepted_in program.now).exprs }
    requires known { Known (accepted_in program.now).exprs memo.old }
    ensures { Worked (accepted_in program.now).exprs memo.old memo.new e result }
{
    match at_hand(program, memo, e) {
        Some(value) => value,
        None => worked_value(program, memo, nested, e),
    }
}

// Works expression e, which has two operands.
#[tactic(auto, using(crate::proofs::OperandLaws::expression_laws), unfolding(semantics::specs::Expressions::value_of))]
#[cycle(operand_value_worked_value)]
fn worked_value(program: &Accepted, memo: &mut Memo, nested: u16, e: u16) -> u16
    requires e_bound { (e < expr_count (accepted_in program.now).exprs) × HasOperands (accepted_in program.now).exprs e }
    requires known { Known (accepted_in program.now).exprs memo.old }
    ensures { Worked (accepted_in program.now).exprs memo.old memo.new e result }
{
    if nested == 0 {
        return passes::work_up_to(program, memo, e);
    }
    let Expr { op, p, q } = records::expr(program, e);
    let x = operand_value(program, memo, nested - 1, p);
    let y = operand_value(program, memo, nested - 1, q);
    let value = apply_op(op, x, y);
    memo.note(e, value);
    value
}
