// Question 2: known ops, operands in range, unused words 0.
ghost use Rattle.std.specs.Prelude.{◌≡◌};
ghost use Rattle.semantics.specs.Check.{expr_ok};
ghost use Rattle.semantics.specs.Facts.{Sized};
ghost use Rattle.semantics.specs.Program.{expr_count};
ghost use Rattle.program.specs.Answer.{program_in, Asked};
ghost use Rattle.semantics.specs.Numbers.{below, every};

use super::{Expr, Op, Program, Refusal, VarId};

// Operand expressions have lower indices than i.
#[tactic(auto, unfolding(semantics::specs::Check::expr_words_ok))]
fn expr_ok(program: &Program, i: u16) -> bool
    ensures { result ≡ expr_ok (program_in program.now) i }
{
    let Expr { op, p, q } = program.expr(i);
    match Op::try_from(op) {
        Ok(Op::Number) => q == 0,
        Ok(Op::Variable) => program.has_var(VarId(p)) & (q == 0),
        Ok(Op::Binary(_)) => (p < i) & (q < i),
        Err(_) => false,
    }
}

// Refuses the first expression that has a fault. Questions 2, 3, 4 and 11 are asked alike and share `find`. With one function
// for the four each would still hand over its count, its test and its refusal: the call would be as long as this body.
pub fn ask_exprs(program: &Program) -> Result<(), Refusal>
    requires { Sized (program_in program.now) }
    ensures { Asked (program_in program.now) 2
        (every (expr_ok (program_in program.now)) (below (expr_count program.now.exprs.now))) result }
{
    let count = program.expr_count() as u16;
    (0..count)
        .find(|&i| !expr_ok(program, i))
        .map_or(Ok(()), |i| Err(Refusal::Expr(i)))
}
