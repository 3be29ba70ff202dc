//! The AVL index: an AVL tree of nodes that are handed over, and a directory from characters to
//! their nodes.
ghost use Rattle.std.specs.Prelude.{◌≡◌, ◌≤◌, true, length, min, vec_len, vec_capacity};
ghost use Rattle.avl_tree.specs.Shape.{tree_of, even, Rooted, Stored, Covered, Named};
ghost use Rattle.avl_tree.specs.Tree.{entries, numbers, size};
ghost use Rattle.indexes.specs.Laws.{Distinct};
ghost use Rattle.indexes.specs.Questions.{characters};

use avl_tree::node::Node;
use indexes::Entry;

mod changes;
mod make;
pub mod position;
mod rebuild;

/// The directory has a number for each of the 65,536 characters, in place of a map: it is handed over too, and no
/// call takes memory. `spare` takes the entries while the tree is built anew. The smaller capacity of nodes and spare entries, at most
/// 65,536, is the room: no change gives them other memory.
#[derive(Drop)]
pub struct AvlIndex {
    nodes: Vec<Node>,
    root: Option<u16>,
    directory: Vec<u16>,
    spare: Vec<Entry>,
    ghost rooted: { Rooted nodes.items root },
    ghost stored: { ∥ Stored nodes.items root ∥₁ },
    ghost apart: { Distinct (numbers (tree_of nodes.items root)) },
    ghost covered: { Covered nodes.items root },
    ghost sized: { size (tree_of nodes.items root) ≡ length nodes.items },
    ghost balanced: { even (tree_of nodes.items root) ≡ true },
    ghost named: { Named nodes.items directory.items },
    ghost distinct: { Distinct (characters (entries (tree_of nodes.items root))) },
    ghost wide: { vec_len directory ≡ 65536 },
    ghost within: { length (entries (tree_of nodes.items root)) ≤ min (min (vec_capacity nodes) (vec_capacity spare)) 65536 },
}
