//! The flat index as a position index.
ghost use Rattle.indexes.specs.Flat.{flat_entries, flat_room, flat_laws};

use super::FlatIndex;
use super::cells::trim_cells;
use crate::entry::{Effect, Entry};
use crate::position::PositionIndex;

impl PositionIndex for FlatIndex {
    ghost entries = { flat_entries };

    ghost room = { flat_room };

    ghost laws = { flat_laws };

    fn capacity(&self) -> usize {
        self.cells.capacity().min(65_536)
    }

    fn len(&self) -> usize {
        self.cells.len()
    }

    fn at(&self, place: usize) -> Option<Entry> {
        self.cells.get(place).copied()
    }

    // The counts are sums, and no `filter` before a `count`: that is one loop in another, which takes six times as long.
    #[tactic(auto, using(crate::proofs::Counts::count_is))]
    fn prepared_count(&self) -> usize {
        self.cells
            .iter()
            .map(|e| usize::from(e.prepared_here()))
            .sum()
    }

    #[tactic(auto, using(crate::proofs::Counts::count_is))]
    fn present_count(&self) -> usize {
        self.cells.iter().map(|e| usize::from(e.is_present())).sum()
    }

    // a loop for the same reason: `nth` behind a `filter` took a third longer
    fn nth_prepared(&self, n: usize) -> Option<usize> {
        let mut seen = 0;
        for (place, entry) in self.cells.iter().enumerate() {
            if entry.prepared_here() {
                if seen == n {
                    return Some(place);
                }
                seen += 1;
            }
        }
        None
    }

    fn place_of(&self, character: u16) -> Option<usize> {
        self.cells.iter().position(|e| e.character == character)
    }

    #[tactic(auto, using(crate::proofs::Counts::count_is))]
    fn present_before(&self, place: usize) -> Option<usize> {
        let front = self.cells.get(..place)?;
        Some(front.iter().map(|e| usize::from(e.is_present())).sum())
    }

    #[tactic(auto, using(crate::proofs::Apart::distinct_inserted))]
    fn put(&mut self, place: usize, entry: Entry) -> bool {
        place <= self.cells.len()
            && self.cells.len() < self.capacity()
            && self.place_of(entry.character).is_none()
            && self.cells.insert(place, entry).is_ok()
    }

    // The two changes share no helper: each is one field of one cell, and the contract of a helper that takes a closure, or
    // a value that says which field, is longer than both.
    #[tactic(auto, using(crate::proofs::Edits::written))]
    fn set_prepared(&mut self, place: usize, state: u32) -> bool {
        let Some(entry) = self.cells.get_mut(place) else {
            return false;
        };
        entry.prepared = state;
        true
    }

    #[tactic(auto, using(crate::proofs::Edits::written))]
    fn set_effect(&mut self, place: usize, effect: Effect) -> bool {
        let Some(entry) = self.cells.get_mut(place) else {
            return false;
        };
        entry.effect = effect;
        true
    }

    #[tactic(auto, using(crate::proofs::Chains::trims))]
    fn trim(&mut self) {
        trim_cells(&mut self.cells);
    }

    fn clear(&mut self) {
        self.cells.clear();
    }
}
