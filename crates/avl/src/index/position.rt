//! The AVL index as a position index.
ghost use Rattle.avl.specs.Avl.{avl_entries, avl_room, avl_laws};

use super::AvlIndex;
use avl_tree::change::Change;
use avl_tree::climb::place_above;
use avl_tree::find::{entry_below, nth_below, present_below};
use avl_tree::weigh::weight_of;
use indexes::{Effect, Entry, PositionIndex};

impl PositionIndex for AvlIndex {
    ghost entries = { avl_entries };

    ghost room = { avl_room };

    ghost laws = { avl_laws };

    fn capacity(&self) -> usize {
        self.nodes.capacity().min(self.spare.capacity()).min(65_536)
    }

    fn len(&self) -> usize {
        self.nodes.len()
    }

    fn at(&self, place: usize) -> Option<Entry> {
        entry_below(&self.nodes, self.root, place)
    }

    fn prepared_count(&self) -> usize {
        weight_of(&self.nodes, self.root).prepared as usize
    }

    fn present_count(&self) -> usize {
        weight_of(&self.nodes, self.root).present as usize
    }

    fn nth_prepared(&self, n: usize) -> Option<usize> {
        nth_below(&self.nodes, self.root, n, 0)
    }

    fn place_of(&self, character: u16) -> Option<usize> {
        let nodes = self.nodes.as_slice();
        let i = self.directory[character as usize];
        let node = nodes.get(i as usize)?;
        if node.entry.character != character {
            return None;
        }
        let before = weight_of(nodes, node.left).size as usize;
        Some(place_above(nodes, i, before))
    }

    fn present_before(&self, place: usize) -> Option<usize> {
        // a guard, and no `then_some`, which would go down the tree for a place that has no answer
        if place > self.nodes.len() {
            return None;
        }
        Some(present_below(&self.nodes, self.root, place))
    }

    fn put(&mut self, place: usize, entry: Entry) -> bool {
        let count = self.nodes.len();
        if place > count || count >= self.capacity() || self.place_of(entry.character).is_some() {
            return false;
        }
        self.insert(place, entry);
        true
    }

    fn set_prepared(&mut self, place: usize, state: u32) -> bool {
        self.change(place, Change::Prepared(state))
    }

    fn set_effect(&mut self, place: usize, effect: Effect) -> bool {
        self.change(place, Change::Effect(effect))
    }

    fn trim(&mut self) {
        self.rebuild();
    }

    fn clear(&mut self) {
        self.nodes.clear();
        self.root = None;
    }
}
