//! A new node at a place of the tree.
ghost use Rattle.avl_tree.specs.Nodes.{Sprout, Puts};
ghost use Rattle.avl_tree.specs.Tree.{Tree};
ghost use Rattle.indexes.specs.declared.entry.Entry.{Entry};

use crate::node::Node;
use crate::turn::balance;
use crate::weigh::weight_of;

/// Puts the node `new` at a place of the subtree at a link, and answers the root of the result.
pub fn put_below(nodes: &mut [Node], link: Option<u16>, place: usize, new: u16) -> u16
    requires { (t : Tree) × (x : Entry) × Sprout nodes.old link place new t x }
    ensures { Puts nodes.old nodes.new link place new result }
{
    let Some(j) = link else {
        return new;
    };
    let node = nodes[j as usize];
    let before = weight_of(nodes, node.left).size as usize;
    if place <= before {
        let low = put_below(nodes, node.left, place, new);
        balance(nodes, Some(low), j, node.right)
    } else {
        let high = put_below(nodes, node.right, place - before - 1, new);
        balance(nodes, node.left, j, Some(high))
    }
}
