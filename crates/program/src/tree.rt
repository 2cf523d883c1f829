// Question 3 at all nodes: kinds, ends, parents, depths, numbers of children and unused words.
ghost use Rattle.std.specs.Prelude.{◌≡◌, ◌≤◌};
ghost use Rattle.semantics.specs.Program.{node_count};
ghost use Rattle.semantics.specs.Numbers.{below, every};
ghost use Rattle.semantics.specs.Check.{node_ok};
ghost use Rattle.semantics.specs.Facts.{Sized};
ghost use Rattle.program.specs.Answer.{program_in, Asked};
ghost use Rattle.program.specs.Places.{Places, parent_in, parent_of_word};

use super::limits::{NO_PARENT, NODES_MAX};
use super::nodes::node_ok;
use super::parents::parent_of;
use super::{Program, Refusal};

// Where a node stands: its parent word, its depth and the number of its children. An Option for the parent would make the
// table of 1,024 places 2 KB larger, and check would break the bound that tests/tests/stack.rs has for its stack.
#[derive(Clone, Copy, Debug, Default)]
pub struct Place {
    pub parent: u16,
    pub depth: u16,
    pub child_count: u16,
}

impl Place {
    pub fn above(self) -> Option<u16>
        ensures { parent_in result ≡ parent_of_word self.parent }
    {
        (self.parent != NO_PARENT).then_some(self.parent)
    }
}

// Places the nodes below count, in the caller's table: one that is returned would be copied, and be on the stack twice. What
// the table holds before is not read. A vector of places would be written by the same indices, since a parent's place is
// written again, and its length would be the count: no plainer.
#[tactic(auto, using(crate::proofs::PlaceLaws::parent_fits, crate::proofs::PlaceLaws::parent_low))]
fn place_nodes(program: &Program, places: &mut [Place; NODES_MAX], count: u16)
    requires { count ≤ 1024 }
    ensures { Places program.now.nodes.now count places.new }
{
    for i in 0..count {
        let above = parent_of(program, places, i);
        let depth = match above {
            Some(h) => {
                let parent = places[h as usize];
                places[h as usize] = Place {
                    child_count: parent.child_count + 1,
                    ..parent
                };
                parent.depth + 1
            }
            None => 1,
        };
        places[i as usize] = Place {
            parent: above.unwrap_or(NO_PARENT),
            depth,
            child_count: 0,
        };
    }
}

// Refuses the first node that has a fault of question 3; the form is that of `ask_exprs`.
pub fn ask_nodes(program: &Program) -> Result<(), Refusal>
    requires { Sized (program_in program.now) }
    ensures { Asked (program_in program.now) 3
        (every (node_ok program.now.nodes.now) (below (node_count program.now.nodes.now))) result }
{
    let count = program.node_count() as u16;
    let mut places = [Place::default(); NODES_MAX];
    place_nodes(program, &mut places, count);
    (0..count)
        .find(|&i| !node_ok(program, i, places[i as usize]))
        .map_or(Ok(()), |i| Err(Refusal::Node(i)))
}
