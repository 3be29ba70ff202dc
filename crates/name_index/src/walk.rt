//! The walk for a name, from the root along the links.
ghost use Rattle.name_index.specs.Ends.{Walked};

use crate::index::NameIndex;
use crate::turn::turn;
use events::Name;

// Where a walk ends: three cases, and of the two with no name only one has a node to hang it at.
#[derive(Clone, Copy)]
pub enum End {
    // there is no node
    Empty,
    // at the node with the name
    Held { node: u16 },
    // at an absent link of a node, `depth` steps from the root
    Free { node: u16, depth: u32 },
}

impl NameIndex {
    // Where the walk for a name ends.
    #[tactic(auto, using(events::specs::Same::compared_same, crate::proofs::Links::name_read, crate::proofs::Walking::goes_up, std::proofs::lemmas::Option::slice_get_read))]
    pub(crate) fn walk(&self, name: Name) -> End
        ensures answer { Walked self.now.nodes.items name result }
    {
        if self.nodes.is_empty() {
            return End::Empty;
        }
        let mut node: u16 = 0;
        // the steps that were taken: no list is read by it, and a `for` would want an answer after its end
        let mut depth: u32 = 0;
        loop {
            let here = self.nodes[node as usize];
            if here.name == name {
                return End::Held { node };
            }
            match here.link(turn(name, depth)) {
                Some(next) => node = next,
                None => return End::Free { node, depth },
            }
            depth += 1;
        }
    }
}
