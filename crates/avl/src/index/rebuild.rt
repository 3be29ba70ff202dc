//! The tree of an AVL index, built anew from its trimmed entries.
ghost use Rattle.std.specs.Prelude.{◌≡◌, ◌≤◌, length, vec_capacity};
ghost use Rattle.avl.specs.Avl.{avl_entries, avl_room};
ghost use Rattle.avl_tree.specs.Shape.{Named};
ghost use Rattle.avl_tree.specs.Nodes.{held_entries};
ghost use Rattle.indexes.specs.Changes.{trimmed};
ghost use Rattle.indexes.specs.Laws.{Distinct};
ghost use Rattle.indexes.specs.Questions.{characters};

use super::AvlIndex;
use avl_tree::build::build;
use avl_tree::find::collect_below;
use avl_tree::node::Node;
use avl_tree::tie::adopt;
use indexes::{Entry, trim_cells};

/// Lays the entries out as nodes in their order, and enters them into the directory.
pub fn lay_out(entries: &[Entry], nodes: &mut Vec<Node>, directory: &mut [u16])
    requires room { length entries.now ≤ vec_capacity nodes.old }
    requires small { length entries.now ≤ 65536 }
    requires wide { length directory.old ≡ 65536 }
    requires distinct { Distinct (characters entries.now) }
    ensures after { held_entries nodes.new.items ≡ entries.now }
    ensures named { Named nodes.new.items directory.new }
    ensures kept { vec_capacity nodes.new ≡ vec_capacity nodes.old }
{
    nodes.clear();
    for (i, entry) in entries.iter().enumerate() {
        directory[entry.character as usize] = i as u16;
        nodes.push_reserved(Node::leaf(*entry));
    }
}

impl AvlIndex {
    /// Trims the entries, and builds a tree of what is left.
    pub(crate) fn rebuild(&mut self)
        ensures after { avl_entries self.new ≡ trimmed (avl_entries self.old) }
        ensures kept { avl_room self.new ≡ avl_room self.old }
    {
        self.spare.clear();
        collect_below(&self.nodes, self.root, &mut self.spare);
        trim_cells(&mut self.spare);
        lay_out(&self.spare, &mut self.nodes, &mut self.directory);
        let nodes = self.nodes.as_mut_slice();
        self.root = build(nodes, 0, self.spare.len());
        adopt(nodes, self.root, None);
    }
}
