//! Functions over any position index.
ghost use Rattle.std.specs.Prelude.{◌≡◌, cond, length, Some, None};
ghost use Rattle.indexes.specs.Changes.{can_put};
ghost use Rattle.indexes.specs.Entries.{is_prepared, is_present};
ghost use Rattle.indexes.specs.Questions.{count, find, place_of, before};
ghost use Rattle.std.specs.List.{insert, slice_get};

use crate::entry::Entry;
use crate::position::PositionIndex;

/// What every question answers at one moment.
#[derive(Clone, Copy, Debug, PartialEq, Eq)]
pub struct Answers {
    pub capacity: usize,
    pub length: usize,
    pub prepared: usize,
    pub present: usize,
    pub at_place: Option<Entry>,
    pub nth: Option<usize>,
    pub place: Option<usize>,
    pub before: Option<usize>,
}

/// Asks every question.
pub fn ask_all<I: PositionIndex>(index: &I, place: usize, n: usize, character: u16) -> Answers
    ensures sizes { (result.capacity ≡ I.room index.now) × (result.length ≡ length (I.entries index.now)) }
    ensures counts { (result.prepared ≡ count is_prepared (I.entries index.now)) × (result.present ≡ count is_present (I.entries index.now)) }
    ensures places { (result.at_place ≡ slice_get (I.entries index.now) place) × (result.nth ≡ find is_prepared (I.entries index.now) n) }
    ensures finds { (result.place ≡ place_of (I.entries index.now) character) × (result.before ≡ before is_present (I.entries index.now) place) }
{
    Answers {
        capacity: index.capacity(),
        length: index.len(),
        prepared: index.prepared_count(),
        present: index.present_count(),
        at_place: index.at(place),
        nth: index.nth_prepared(n),
        place: index.place_of(character),
        before: index.present_before(place),
    }
}

/// Puts an entry behind all others, and answers where it stands then: absent if it was refused.
pub fn append<I: PositionIndex>(index: &mut I, entry: Entry) -> Option<usize>
    ensures answer { result ≡ cond (can_put (I.entries index.old) (I.room index.old) (length (I.entries index.old)) entry.character) (Some (length (I.entries index.old))) None }
    ensures after { I.entries index.new ≡ cond (can_put (I.entries index.old) (I.room index.old) (length (I.entries index.old)) entry.character) (insert (I.entries index.old) (length (I.entries index.old)) entry) (I.entries index.old) }
    ensures kept { I.room index.new ≡ I.room index.old }
{
    let end = index.len();
    index.put(end, entry).then_some(end)
}
