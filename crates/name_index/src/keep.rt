//! Making an index, asking it and adding to it.
ghost use Rattle.std.specs.Prelude.{◌≡◌, min, [], length, IfOk};
ghost use Rattle.std.specs.List.{slice_get};
ghost use Rattle.name_index.specs.Numbers.{NumberOf, Added};
ghost use Rattle.name_index.specs.Names.{names_of, room_of};

use crate::index::NameIndex;
use crate::node::Node;
use crate::turn::{hang, turn};
use crate::walk::End;
use events::Name;
use std::alloc::{AllocError, Global};

impl NameIndex {
    // An index for that many names, but at most 65,536. All memory is taken here.
    pub fn with_room(heap: Global, room: usize) -> Result<NameIndex, AllocError>
        ensures answer { IfOk result (λ s. (names_of s ≡ []) × (room_of s ≡ min room 65536)) }
    {
        let most = room.min(65_536);
        let nodes = Vec::with_capacity(heap, most)?;
        Ok(NameIndex { nodes, room: most })
    }

    // How many names there are.
    #[tactic(auto, using(crate::proofs::Counts::counted))]
    pub fn len(&self) -> usize
        ensures answer { result ≡ length (names_of self.now) }
    {
        self.nodes.len()
    }

    // How many there can be.
    pub fn room(&self) -> usize
        ensures answer { result ≡ room_of self.now }
    {
        self.room
    }

    // Name n, or nothing past the last.
    #[tactic(auto, using(crate::proofs::Links::name_read, std::proofs::lemmas::Option::slice_get_cases))]
    pub fn get(&self, n: usize) -> Option<Name>
        ensures answer { result ≡ slice_get (names_of self.now) n }
    {
        self.nodes.get(n).map(|node| node.name)
    }

    // The number of a name, or nothing where it is not in the index.
    pub fn find(&self, name: Name) -> Option<u16>
        ensures answer { NumberOf (names_of self.now) name result }
    {
        match self.walk(name) {
            End::Held { node } => Some(node),
            _ => None,
        }
    }

    // Adds a name at the end; false where it is there already or there is no room.
    #[tactic(auto, using(crate::proofs::Counts::counted, crate::proofs::Growth::grown_first, crate::proofs::Growth::grown_hung))]
    pub fn add(&mut self, name: Name) -> bool
        ensures after { Added (room_of self.old) (names_of self.old) name (names_of self.new) result }
        ensures kept { room_of self.new ≡ room_of self.old }
    {
        let number = self.nodes.len();
        if number >= self.room {
            return false;
        }
        match self.walk(name) {
            End::Held { .. } => false,
            End::Empty => {
                self.nodes.push_reserved(Node::new(name));
                true
            }
            End::Free { node, depth } => {
                hang(&mut self.nodes, node as usize, turn(name, depth), name);
                true
            }
        }
    }

    // Forgets every name, and keeps the room.
    pub fn clear(&mut self)
        ensures after { names_of self.new ≡ [] }
        ensures kept { room_of self.new ≡ room_of self.old }
    {
        self.nodes.clear();
    }
}
