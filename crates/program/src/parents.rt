// The parent of a node of any list, where the places of the nodes before it are known.
ghost use Rattle.std.specs.Prelude.{◌≡◌};
ghost use Rattle.semantics.specs.Parents.{parent};
ghost use Rattle.program.specs.Places.{parent_in, Places};

use super::Program;
use super::limits::NODES_MAX;
use super::tree::Place;

// A node that has ended at i is not its parent, and neither is any node between that node and its own parent, for these
// have ended before: so the search goes from parent to parent. No later search comes to a node that was passed over, so
// that all searches together take linear time. By `successors` and `find` the step and the test would be closures that each
// ask for a number below i, and there would be the law of their chain: no plainer.
#[tactic(auto, using(crate::proofs::ClimbLaws::climbing), unfolding(semantics::specs::Parents::parent_below))]
pub fn parent_of(program: &Program, places: &[Place; NODES_MAX], i: u16) -> Option<u16>
    requires { Places program.now.nodes.now i places.now }
    ensures { parent_in result ≡ parent program.now.nodes.now i }
{
    let mut above = i.checked_sub(1);
    while let Some(h) = above {
        if i < program.node(h).end {
            return Some(h);
        }
        above = places[h as usize].above();
    }
    None
}
