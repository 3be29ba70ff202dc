//! A changed entry at a place of the tree.
ghost use Rattle.std.specs.Prelude.{◌≡◌};
ghost use Rattle.avl_tree.specs.Changes.{applied};
ghost use Rattle.avl_tree.specs.Nodes.{Stood, Revises};
ghost use Rattle.avl_tree.specs.Tree.{Tree};

use crate::node::Node;
use crate::tie::tie;
use crate::weigh::weight_of;
use indexes::{Effect, Entry};

/// A change of one of the two states of an entry.
// Not a closure: what a closure answers is a relation, and each caller would have to show that it is
// a function that keeps the character; the one definition `applied` says both.
#[derive(Clone, Copy)]
pub enum Change {
    Prepared(u32),
    Effect(Effect),
}

impl Change {
    /// The entry with the change made.
    pub fn apply(self, entry: Entry) -> Entry
        ensures { result ≡ applied self entry }
    {
        match self {
            Change::Prepared(state) => entry.with_prepared(state),
            Change::Effect(effect) => entry.with_effect(effect),
        }
    }
}

/// Changes the entry at a place of the subtree at a link; nothing beyond its size.
pub fn revise_below(nodes: &mut [Node], link: Option<u16>, place: usize, change: Change)
    requires { (t : Tree) × Stood nodes.old link t }
    ensures { Revises (applied change) nodes.old nodes.new link place }
{
    let Some(j) = link else {
        return;
    };
    let node = nodes[j as usize];
    let before = weight_of(nodes, node.left).size as usize;
    if place < before {
        revise_below(nodes, node.left, place, change);
    } else if place == before {
        nodes[j as usize].entry = change.apply(node.entry);
    } else {
        revise_below(nodes, node.right, place - before - 1, change);
    }
    tie(nodes, node.left, j, node.right);
}
