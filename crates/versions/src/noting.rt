//! Marking an event, the heads of a version, and the parents of an event.
ghost use Rattle.std.specs.Prelude.{◌≡◌, ℕ, ◌<◌, ◌≤◌};
ghost use Rattle.versions.specs.Versions.{Head, Parent};
ghost use Rattle.versions.specs.Marks.{told};
ghost use Rattle.versions.specs.Held.{NotedBy, QueueHeld, mark_held};
ghost use Rattle.versions.specs.Difference.{Known};

use crate::counters::Counters;
use crate::marks::Mark;
use crate::search::Search;
use queue::heap::push;
use queue::order::LatestFirst;
use stores::EventStore;

impl Search<'_> {
    // The mark of an event, if it has one.
    #[tactic(auto, using(crate::proofs::Queues::seen_le))]
    pub(crate) fn mark_of(&self, event: usize) -> Option<Mark>
        requires { event < self.now.counters.room }
        ensures answer { result ≡ told (mark_held self.now event) }
    {
        let s = self.counters;
        let place = self.work[s.room + event] as usize;
        if place < s.seen && self.work[2 * s.room + place] as usize == event {
            Mark::from_number(self.work[3 * s.room + event])
        } else {
            None
        }
    }

    // Marks an event besides, and queues it where it had no mark. This and the next are in line, for speed: the
    // counters then stay in registers.
    #[tactic(auto, using(crate::proofs::Queues::seen_le))]
    #[inline(always)]
    pub(crate) fn note(&mut self, event: usize, mark: Mark)
        requires queued { (bound : ℕ) × (event < bound) × QueueHeld self.old bound }
        requires inside { event < self.old.counters.room }
        ensures after { NotedBy (λ x. x ≡ event) mark self.old self.new }
    {
        let s = self.counters;
        if let Some(old) = self.mark_of(event) {
            let new = old.join(mark);
            self.work[3 * s.room + event] = new.number();
            self.counters.pending = s.pending + new.alone() - old.alone();
            return;
        }
        // the list is written by itself, since it fits the counters again only at the end
        let work = &mut *self.work;
        work[3 * s.room + event] = mark.number();
        work[s.room + event] = s.seen as u32;
        work[2 * s.room + s.seen] = event as u32;
        let _ = push(work, s.queued, event as u32, &LatestFirst);
        self.counters = Counters {
            seen: s.seen + 1,
            queued: s.queued + 1,
            pending: s.pending + mark.alone(),
            ..s
        };
    }

    // Marks events, as the heads of a version, and queues those that had no mark.
    #[inline(always)]
    pub(crate) fn note_all(&mut self, events: &[u16], mark: Mark)
        requires queued { (bound : ℕ) × (bound ≤ self.old.counters.room) × Known bound events.now × QueueHeld self.old bound }
        ensures after { NotedBy (Head events.now) mark self.old self.new }
    {
        for event in events {
            self.note(*event as usize, mark);
        }
    }

    // Marks the parents of an event, and queues those that had no mark.
    pub(crate) fn note_parents<S: EventStore>(&mut self, store: &S, event: usize, mark: Mark)
        requires queued { QueueHeld self.old event }
        requires inside { event < self.old.counters.room }
        ensures after { NotedBy (Parent (S.EventStore.events store.now) event) mark self.old self.new }
    {
        if let Some(parents) = store.parents(event) {
            self.note_all(parents.as_slice(), mark);
        }
    }
}
