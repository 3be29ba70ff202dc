//! The way up from a node to the root.
ghost use Rattle.std.specs.Prelude.{◌≡◌, ℕ, ◌+◌, ◌≤◌};
ghost use Rattle.avl_tree.specs.Climb.{Climbs};
ghost use Rattle.avl_tree.specs.Tree.{Tree};

use crate::node::Node;
use crate::weigh::weight_of;

/// The place in the whole tree of what stands `offset` entries into the subtree of the node `i`.
pub fn place_above(nodes: &[Node], i: u16, offset: usize) -> usize
    requires { (t : Tree) × (s : Tree) × (o : ℕ) × Climbs nodes.now i t s o × (o + offset ≤ 65536) }
    ensures { (t : Tree) (s : Tree) (o : ℕ) → Climbs nodes.now i t s o → result ≡ o + offset }
{
    let Some(j) = nodes[i as usize].parent else {
        return offset;
    };
    let above = nodes[j as usize];
    if above.right == Some(i) {
        let before = weight_of(nodes, above.left).size as usize;
        place_above(nodes, j, offset + before + 1)
    } else {
        place_above(nodes, j, offset)
    }
}
