//! What changes the tree of an AVL index. That a call keeps the room is a clause of each: it is a fact of two values,
//! before and after, which the invariant of one cannot say.
ghost use Rattle.std.specs.Prelude.{◌≡◌, ◌<◌, ◌≤◌, false, length, nat_lt};
ghost use Rattle.avl.specs.Avl.{avl_entries, avl_room};
ghost use Rattle.avl_tree.specs.Changes.{applied};
ghost use Rattle.indexes.specs.Changes.{at_place};
ghost use Rattle.indexes.specs.Questions.{listed};
ghost use Rattle.std.specs.List.{insert};

use super::AvlIndex;
use avl_tree::change::{Change, revise_below};
use avl_tree::node::Node;
use avl_tree::put::put_below;
use avl_tree::tie::adopt;
use indexes::Entry;

impl AvlIndex {
    /// Puts an entry at a place.
    pub(crate) fn insert(&mut self, place: usize, entry: Entry)
        requires within { place ≤ length (avl_entries self.old) }
        requires new { listed (avl_entries self.old) entry.character ≡ false }
        requires room { length (avl_entries self.old) < avl_room self.old }
        ensures after { avl_entries self.new ≡ insert (avl_entries self.old) place entry }
        ensures kept { avl_room self.new ≡ avl_room self.old }
    {
        let new = self.nodes.len() as u16;
        self.nodes.push_reserved(Node::leaf(entry));
        self.directory[entry.character as usize] = new;
        let nodes = self.nodes.as_mut_slice();
        let root = put_below(nodes, self.root, place, new);
        adopt(nodes, Some(root), None);
        self.root = Some(root);
    }

    /// Changes the entry at a place. Answers whether there is one.
    pub(crate) fn change(&mut self, place: usize, change: Change) -> bool
        ensures answer { result ≡ nat_lt place (length (avl_entries self.old)) }
        ensures after { avl_entries self.new ≡ at_place (applied change) (avl_entries self.old) place }
        ensures kept { avl_room self.new ≡ avl_room self.old }
    {
        let nodes = self.nodes.as_mut_slice();
        revise_below(nodes, self.root, place, change);
        adopt(nodes, self.root, None);
        place < nodes.len()
    }
}
