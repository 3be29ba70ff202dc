//! Rotations: two sides joined so that their heights differ by at most one.
ghost use Rattle.avl_tree.specs.Nodes.{Ready, Makes};
ghost use Rattle.avl_tree.specs.Tree.{node as joint};
ghost use Rattle.avl_tree.specs.Turns.{at_side, turned, raised, balanced};

use crate::node::Node;
use crate::side::Side;
use crate::tie::tie;
use crate::weigh::weight_of;

/// Makes the node `j` the root of a subtree at a side and one at the other, and answers it.
fn tie_at(nodes: &mut [Node], side: Side, near: Option<u16>, j: u16, far: Option<u16>) -> u16
    requires { Ready nodes.old (at_side side near far) j (at_side side far near) }
    ensures { Makes joint nodes.old nodes.new (at_side side near far) j (at_side side far near) result }
{
    let (left, right) = side.order(near, far);
    tie(nodes, left, j, right)
}

/// Joins two sides; the root of the near one comes up.
// The side, the links and the node are no struct: each call joins others, and would build one to take it apart.
pub fn turn(nodes: &mut [Node], side: Side, near: Option<u16>, j: u16, far: Option<u16>) -> u16
    requires { Ready nodes.old (at_side side near far) j (at_side side far near) }
    ensures { Makes (turned side) nodes.old nodes.new (at_side side near far) j (at_side side far near) result }
{
    let Some(i) = near else {
        return tie_at(nodes, side, near, j, far);
    };
    let node = &nodes[i as usize];
    let (outer, inner) = side.order(node.left, node.right);
    let low = tie_at(nodes, side, inner, j, far);
    tie_at(nodes, side, outer, i, Some(low))
}

/// Joins two sides of which the near one is too high.
pub fn raise(nodes: &mut [Node], side: Side, near: Option<u16>, j: u16, far: Option<u16>) -> u16
    requires { Ready nodes.old (at_side side near far) j (at_side side far near) }
    ensures { Makes (raised side) nodes.old nodes.new (at_side side near far) j (at_side side far near) result }
{
    let Some(i) = near else {
        return tie_at(nodes, side, near, j, far);
    };
    let node = &nodes[i as usize];
    let (outer, inner) = side.order(node.left, node.right);
    if weight_of(nodes, outer).height < weight_of(nodes, inner).height {
        let middle = turn(nodes, side.other(), inner, i, outer);
        turn(nodes, side, Some(middle), j, far)
    } else {
        turn(nodes, side, near, j, far)
    }
}

/// Joins two sides whose heights differ by at most two.
pub fn balance(nodes: &mut [Node], left: Option<u16>, j: u16, right: Option<u16>) -> u16
    requires { Ready nodes.old left j right }
    ensures { Makes balanced nodes.old nodes.new left j right result }
{
    let lower = weight_of(nodes, left).height;
    let upper = weight_of(nodes, right).height;
    if upper + 1 < lower {
        raise(nodes, Side::Left, left, j, right)
    } else if lower + 1 < upper {
        raise(nodes, Side::Right, right, j, left)
    } else {
        tie(nodes, left, j, right)
    }
}
