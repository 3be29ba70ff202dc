//! The one way in which nodes are joined.
ghost use Rattle.std.specs.Prelude.{◌≡◌, ℕ, ◌<◌, Some, length};
ghost use Rattle.avl_tree.specs.Nodes.{Ready, Makes, adopted};
ghost use Rattle.avl_tree.specs.Tree.{node as joint};

use crate::node::Node;
use crate::weigh::{join, weight_of};

/// Hangs the subtree at a link below a node, or makes it the whole tree.
pub fn adopt(nodes: &mut [Node], link: Option<u16>, parent: Option<u16>)
    requires { (i : ℕ) → link ≡ Some i → i < length nodes.old }
    ensures { nodes.new ≡ adopted nodes.old link parent }
{
    if let Some(i) = link {
        nodes[i as usize].parent = parent;
    }
}

/// Makes the node `j` the root of the subtrees at the two links, and answers it.
// The links and the node are no struct: each call joins others, and would build one to take it apart.
pub fn tie(nodes: &mut [Node], left: Option<u16>, j: u16, right: Option<u16>) -> u16
    requires { Ready nodes.old left j right }
    ensures { Makes joint nodes.old nodes.new left j right result }
{
    let node = nodes[j as usize];
    let weight = join(weight_of(nodes, left), node.entry, weight_of(nodes, right));
    nodes[j as usize] = Node {
        left,
        right,
        weight,
        ..node
    };
    adopt(nodes, left, Some(j));
    adopt(nodes, right, Some(j));
    j
}
