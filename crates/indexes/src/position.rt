//! The trait of position indexes. Its meaning is a list of entries and the room for them.
ghost use Rattle.std.specs.Prelude.{◌≡◌, ℕ, List, [], length, if◌then◌else◌, nat_lt};
ghost use Rattle.std.specs.List.{insert, slice_get};
ghost use Rattle.indexes.specs.Changes.{can_put, at_place, trimmed};
ghost use Rattle.indexes.specs.Entries.{is_prepared, is_present, with_prepared, with_effect};
ghost use Rattle.indexes.specs.Laws.{IndexLaws};
ghost use Rattle.indexes.specs.Questions.{count, find, place_of, before};
ghost use Rattle.indexes.specs.declared.entry.Entry.{Entry};

use crate::entry::{Effect, Entry};

pub trait PositionIndex {
    /// The entries in the order of the text.
    ghost entries: { Self → List Entry };

    /// How many entries it can hold.
    ghost room: { Self → ℕ };

    /// No character twice, and no more entries than room, which is at most 65,536.
    ghost laws: { IndexLaws entries room };

    fn capacity(&self) -> usize
        ensures answer { result ≡ room self.now };

    fn len(&self) -> usize
        ensures answer { result ≡ length (entries self.now) };

    fn at(&self, place: usize) -> Option<Entry>
        ensures answer { result ≡ slice_get (entries self.now) place };

    /// How many entries have the prepared state 1.
    fn prepared_count(&self) -> usize
        ensures answer { result ≡ count is_prepared (entries self.now) };

    /// How many entries are present.
    fn present_count(&self) -> usize
        ensures answer { result ≡ count is_present (entries self.now) };

    /// The place of the n-th entry, from 0, with the prepared state 1.
    fn nth_prepared(&self, n: usize) -> Option<usize>
        ensures answer { result ≡ find is_prepared (entries self.now) n };

    fn place_of(&self, character: u16) -> Option<usize>
        ensures answer { result ≡ place_of (entries self.now) character };

    /// How many entries before the place are present; absent beyond the length.
    fn present_before(&self, place: usize) -> Option<usize>
        ensures answer { result ≡ before is_present (entries self.now) place };

    /// Puts an entry at the place. Answers no exactly if the place exceeds the length, the
    /// character is listed or the list is full.
    fn put(&mut self, place: usize, entry: Entry) -> bool
        ensures answer { result ≡ can_put (entries self.old) (room self.old) place entry.character }
        ensures after { entries self.new ≡ (if result then insert (entries self.old) place entry else entries self.old) }
        ensures kept { room self.new ≡ room self.old };

    /// Sets the prepared state at the place. Answers no, and changes nothing, exactly if the place
    /// is not below the length.
    fn set_prepared(&mut self, place: usize, state: u32) -> bool
        ensures answer { result ≡ nat_lt place (length (entries self.old)) }
        ensures after { entries self.new ≡ at_place (with_prepared state) (entries self.old) place }
        ensures kept { room self.new ≡ room self.old };

    /// Sets the effect at the place. Answers no, and changes nothing, exactly if the place is not
    /// below the length.
    fn set_effect(&mut self, place: usize, effect: Effect) -> bool
        ensures answer { result ≡ nat_lt place (length (entries self.old)) }
        ensures after { entries self.new ≡ at_place (with_effect effect) (entries self.old) place }
        ensures kept { room self.new ≡ room self.old };

    /// Drops the gone entries, sets the prepared state 1, and hangs the first kept entry on the
    /// root and each next on the right of the one before.
    fn trim(&mut self)
        ensures after { entries self.new ≡ trimmed (entries self.old) }
        ensures kept { room self.new ≡ room self.old };

    fn clear(&mut self)
        ensures after { entries self.new ≡ [] }
        ensures kept { room self.new ≡ room self.old };
}
