//! Weights of subtrees.
ghost use Rattle.std.specs.Prelude.{◌≡◌, ◌+◌, ◌<◌};
ghost use Rattle.avl_tree.specs.Nodes.{Held, Stands, Sane};
ghost use Rattle.avl_tree.specs.Tree.{Tree, joined, weight};

use crate::node::{Node, Weight};
use indexes::Entry;

/// The weight of no nodes.
pub const EMPTY: Weight = Weight {
    height: 0,
    size: 0,
    prepared: 0,
    present: 0,
};

/// The weight of the subtree at a link.
pub fn weight_of(nodes: &[Node], link: Option<u16>) -> Weight
    requires { Stands nodes.now link }
    ensures { (t : Tree) → Held nodes.now link t → result ≡ weight t }
{
    link.map_or(EMPTY, |i| nodes[i as usize].weight)
}

/// The weight of a node over two sides.
pub fn join(a: Weight, entry: Entry, b: Weight) -> Weight
    requires a { Sane a }
    requires b { Sane b }
    requires small { a.size + b.size < 65536 }
    ensures { result ≡ joined a entry b }
{
    Weight {
        height: a.height.max(b.height) + 1,
        size: a.size + b.size + 1,
        prepared: a.prepared + b.prepared + u32::from(entry.prepared_here()),
        present: a.present + b.present + u32::from(entry.is_present()),
    }
}
