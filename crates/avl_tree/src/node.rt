//! A node of the tree.
ghost use Rattle.std.specs.Prelude.{◌≡◌, None};
ghost use Rattle.avl_tree.specs.Nodes.{cell};
ghost use Rattle.avl_tree.specs.Tree.{leaf};

use crate::weigh::{EMPTY, join};
use indexes::Entry;

/// What a subtree sums up to: its height, its entries, and how many of them are prepared and present.
#[derive(Clone, Copy)]
pub struct Weight {
    pub height: u32,
    pub size: u32,
    pub prepared: u32,
    pub present: u32,
}

/// An entry, the nodes beside and above it by their numbers, and the weight of the subtree below it.
/// The nodes lie in one run of memory and link by number, with no `Box`: all memory is handed over
/// when an index is made, and no call allocates after.
#[derive(Clone, Copy)]
pub struct Node {
    pub entry: Entry,
    pub left: Option<u16>,
    pub right: Option<u16>,
    pub parent: Option<u16>,
    pub weight: Weight,
}

impl Node {
    /// A node with nothing below or above it.
    pub fn leaf(entry: Entry) -> Node
        ensures { result ≡ cell None leaf entry leaf }
    {
        Node {
            entry,
            left: None,
            right: None,
            parent: None,
            weight: join(EMPTY, entry, EMPTY),
        }
    }
}
