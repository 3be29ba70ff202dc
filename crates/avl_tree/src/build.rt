//! A tree over a run of nodes, as even as can be.
ghost use Rattle.std.specs.Prelude.{◌+◌, ◌≤◌, length};
ghost use Rattle.avl_tree.specs.Builds.{Builds};

use crate::node::Node;
use crate::tie::tie;

/// Joins the `count` nodes from `from` on in their order, and answers the root.
pub fn build(nodes: &mut [Node], from: usize, count: usize) -> Option<u16>
    requires within { from + count ≤ length nodes.old }
    requires small { length nodes.old ≤ 65536 }
    ensures { Builds nodes.old nodes.new from count result }
{
    if count == 0 {
        return None;
    }
    let half = count / 2;
    let middle = from + half;
    let left = build(nodes, from, half);
    let right = build(nodes, middle + 1, count - half - 1);
    Some(tie(nodes, left, middle as u16, right))
}
