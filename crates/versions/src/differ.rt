//! The difference of two versions of a store.
ghost use Rattle.std.specs.Prelude.{◌≡◌, ℕ, ◌+◌, ◌-◌, ◌*◌, ◌<◌, ◌≤◌, length, drop, slice_index};
ghost use Rattle.versions.specs.Difference.{Admitted, Differ, Difference, FirstUnknown, HeadsTested, Known};

use crate::run::search;
use crate::search::Search;
use events::{BookFault, EventFault};
use stores::EventStore;

// The place of the first head that is no event, if there is one.
fn unknown_head(heads: &[u16], count: usize) -> Option<usize>
    ensures answer { FirstUnknown count heads.now result }
{
    heads.iter().position(|head| *head as usize >= count)
}

// Refuses heads of which one is no event.
fn test_heads(heads: &[u16], count: usize) -> Result<(), EventFault>
    ensures answer { HeadsTested count heads.now result }
{
    match unknown_head(heads, count) {
        Some(event) => Err(EventFault::Unknown { event }),
        None => Ok(()),
    }
}

// Copies the events of the second version alone behind those of the first alone.
fn copy_back(found: &Search<'_>, out: &mut [u32])
    requires { (found.now.counters.first + found.now.counters.second ≤ length out.old) × (found.now.counters.second ≤ found.now.counters.room) }
    ensures after { (i : ℕ) → i < found.now.counters.second → slice_index out.new (found.now.counters.first + i) ≡ slice_index found.now.work.now (found.now.counters.room - 1 - i) }
    ensures front { (i : ℕ) → i < found.now.counters.first → slice_index out.new i ≡ slice_index out.old i }
    ensures rest { drop (found.now.counters.first + found.now.counters.second) out.new ≡ drop (found.now.counters.first + found.now.counters.second) out.old }
{
    let s = found.counters;
    let second = &mut out[s.first..s.first + s.second];
    second.copy_from_slice(&found.work[s.room - s.second..s.room]);
    second.reverse();
}

// Whether the lists are long enough and the heads are events, or why a call is refused.
pub(crate) fn admit<S: EventStore>(
    store: &S,
    first: &[u16],
    second: &[u16],
    wide: usize,
    long: usize,
) -> Result<(), BookFault>
    ensures answer { Admitted (length (S.EventStore.events store.now)) (S.EventStore.room store.now) first.now second.now wide long result }
{
    let needed = 4 * store.capacity();
    if wide < needed {
        return Err(BookFault::Short { needed });
    }
    let count = store.count();
    if long < count {
        return Err(BookFault::Short { needed: count });
    }
    test_heads(first, count)?;
    test_heads(second, count)?;
    Ok(())
}

// The difference of two versions of which a call was admitted.
pub(crate) fn differing<S: EventStore>(
    store: &S,
    first: &[u16],
    second: &[u16],
    work: &mut [u32],
    out: &mut [u32],
) -> (usize, usize)
    requires sized { (4 * S.EventStore.room store.now ≤ length work.old) × (length (S.EventStore.events store.now) ≤ length out.old) }
    requires known { (Known (length (S.EventStore.events store.now)) first.now) × (Known (length (S.EventStore.events store.now)) second.now) }
    ensures answer { Differ (S.EventStore.events store.now) first.now second.now out.old out.new result.0 result.1 }
{
    let found = search(store, first, second, work, out);
    copy_back(&found, out);
    let s = found.counters;
    (s.first, s.second)
}

// The lists of a call are no struct: the two versions are asked of, the two lists are lent, and the contract says what
// each of them ends as.
// Writes to the front of the output the events that are only in the first version, then those only in the second,
// each the latest first, and answers how many there are of each. The work list has four cells for each event that
// the store can hold; what they hold does not matter. The output has a cell for each event that the store holds.
pub fn difference<S: EventStore>(
    store: &S,
    first: &[u16],
    second: &[u16],
    work: &mut [u32],
    out: &mut [u32],
) -> Result<(usize, usize), BookFault>
    ensures answer { Difference (S.EventStore.events store.now) (S.EventStore.room store.now) first.now second.now (length work.old) out.old out.new result }
{
    admit(store, first, second, work.len(), out.len())?;
    Ok(differing(store, first, second, work, out))
}
