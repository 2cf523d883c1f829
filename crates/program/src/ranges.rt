// Question 4: a and b in range of the variables, channels or expressions.
ghost use Rattle.std.specs.Prelude.{◌≡◌};
ghost use Rattle.semantics.specs.Program.{node_count};
ghost use Rattle.semantics.specs.Check.{references_ok};
ghost use Rattle.semantics.specs.Facts.{Sized};
ghost use Rattle.program.specs.Answer.{program_in, Asked};
ghost use Rattle.semantics.specs.Numbers.{below, every};

use super::{ChanId, Kind, Leaf, Node, Program, Refusal, VarId};

#[tactic(auto, unfolding(semantics::specs::Check::reference_words_ok))]
fn references_ok(program: &Program, i: u16) -> bool
    ensures { result ≡ references_ok (program_in program.now) i }
{
    let Node { kind, a, b, .. } = program.node(i);
    match Kind::try_from(kind) {
        Ok(Kind::Leaf(Leaf::Asg)) => program.has_var(VarId(a)) & program.has_expr(b),
        Ok(Kind::Leaf(Leaf::In)) => program.has_chan(ChanId(a)) & program.has_var(VarId(b)),
        Ok(Kind::Leaf(Leaf::Out)) => program.has_chan(ChanId(a)) & program.has_expr(b),
        Ok(Kind::If | Kind::Whl) => program.has_expr(a),
        Ok(Kind::Seq | Kind::Par | Kind::Leaf(Leaf::Dly)) | Err(_) => true,
    }
}

// Refuses the first node that names what the program does not have; the form is that of `ask_exprs`.
pub fn ask_ranges(program: &Program) -> Result<(), Refusal>
    requires { Sized (program_in program.now) }
    ensures { Asked (program_in program.now) 4
        (every (references_ok (program_in program.now)) (below (node_count program.now.nodes.now))) result }
{
    let count = program.node_count() as u16;
    (0..count)
        .find(|&i| !references_ok(program, i))
        .map_or(Ok(()), |i| Err(Refusal::Reference(i)))
}
