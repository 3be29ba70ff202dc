//! The search from the heads of two versions, the latest event first.
ghost use Rattle.std.specs.Prelude.{◌≡◌, ℕ, ◌*◌, ◌<◌, ◌≤◌, List, length, drop};
ghost use Rattle.versions.specs.Searches.{Stepped, Started};
ghost use Rattle.versions.specs.Held.{StageOf};
ghost use Rattle.versions.specs.Difference.{Known};

use crate::counters::Counters;
use crate::marks::Mark;
use crate::search::Search;
use stores::EventStore;

impl<'a> Search<'a> {
    // Marks the heads of both versions. No cell of the work list needs a first value.
    fn start(room: usize, first: &[u16], second: &[u16], work: &'a mut [u32]) -> Search<'a>
        requires sized { (4 * room ≤ length work.old) × (room ≤ 65536) }
        requires known { (count : ℕ) × (count ≤ room) × Known count first.now × Known count second.now }
        ensures after { Started room first.now second.now result.work.now result.counters }
    {
        let counters = Counters {
            room,
            seen: 0,
            queued: 0,
            pending: 0,
            first: 0,
            second: 0,
        };
        let mut search = Search { work, counters };
        search.note_all(first, Mark::First);
        search.note_all(second, Mark::Second);
        search
    }

    // Takes the latest event from the queue, writes it down, and marks its parents as it is marked.
    fn step<S: EventStore>(&mut self, store: &S, out: &mut [u32])
        requires stage { (first : List ℕ) × (second : List ℕ) × (bound : ℕ) × StageOf (S.EventStore.events store.now) first second self.old out.old bound }
        requires room { (length (S.EventStore.events store.now) ≤ length out.old) × (0 < self.old.counters.pending) }
        ensures after { (first second : List ℕ) (bound : ℕ) → StageOf (S.EventStore.events store.now) first second self.old out.old bound → (below : ℕ) × StageOf (S.EventStore.events store.now) first second self.new out.new below }
        ensures kept { Stepped self.old.counters out.old self.new.counters out.new }
    {
        let (event, mark) = self.take_latest();
        self.write_down(out, event, mark);
        self.note_parents(store, event as usize, mark);
    }
}

// Searches until every event still queued is in both versions.
pub(crate) fn search<'a, S: EventStore>(
    store: &S,
    first: &[u16],
    second: &[u16],
    work: &'a mut [u32],
    out: &mut [u32],
) -> Search<'a>
    requires sized { (4 * S.EventStore.room store.now ≤ length work.old) × (length (S.EventStore.events store.now) ≤ length out.old) }
    requires known { (Known (length (S.EventStore.events store.now)) first.now) × (Known (length (S.EventStore.events store.now)) second.now) }
    ensures after { (bound : ℕ) × StageOf (S.EventStore.events store.now) first.now second.now result out.new bound }
    ensures done { (result.counters.pending ≡ 0) × (result.counters.room ≡ S.EventStore.room store.now) }
    ensures kept { drop result.counters.first out.new ≡ drop result.counters.first out.old }
{
    let mut search = Search::start(store.capacity(), first, second, work);
    while search.counters.pending > 0 {
        search.step(store, out);
    }
    search
}
