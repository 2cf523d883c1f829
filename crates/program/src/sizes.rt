// Question 1: whole records, and counts within the limits.
ghost use Rattle.std.specs.Prelude.{◌≡◌, IfOk};
ghost use Rattle.semantics.specs.Facts.{Sized};
ghost use Rattle.semantics.specs.Check.{sizes_ok};
ghost use Rattle.program.specs.Answer.{program_in, Asked};

use super::limits::{CHANS_MAX, EXPRS_MAX, NODES_MAX, VARS_MAX};
use super::{Program, Refusal};

#[tactic(auto, unfolding(semantics::specs::Check::sizes_ok))]
fn sizes_ok(program: &Program) -> bool
    ensures { result ≡ sizes_ok (program_in program.now) }
{
    let n = program.node_count();
    (program.exprs.len() % 3 == 0)
        & (program.nodes.len() % 5 == 0)
        & (1 <= n)
        & (n <= NODES_MAX)
        & (program.expr_count() <= EXPRS_MAX)
        & (program.vars <= VARS_MAX)
        & (program.chans <= CHANS_MAX)
}

// `Sized` stands in three contracts more. A type for it would be made here alone, and each question would take the program
// out of it again: no plainer.
#[tactic(auto, using(semantics::proofs::Lists::FaultLaws::no_item, crate::proofs::AnswerLaws::sized_if_ok))]
pub fn ask_sizes(program: &Program) -> Result<(), Refusal>
    ensures asked { Asked (program_in program.now) 1 (sizes_ok (program_in program.now)) result }
    ensures sized { IfOk result (λ _. Sized (program_in program.now)) }
{
    sizes_ok(program).then_some(()).ok_or(Refusal::Sizes)
}
