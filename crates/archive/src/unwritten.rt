//! The events that are not written yet.
ghost use Rattle.std.specs.Prelude.{◌≡◌, ◌*◌, ◌<◌, ◌≤◌, length, take};
ghost use Rattle.archive.specs.Archived.{Archived};
ghost use Rattle.archive.specs.Parts.{first_of};
ghost use Rattle.archive.specs.Waiting.{Handed, InHand, Settled};
ghost use Rattle.archive.specs.Calls.{AllOpen, Awaited, Cleared, Placed};

use crate::work_list::WorkList;
use events::Name;
use queue::Queue;
use queue::order::TotalOrder;
use stores::EventStore;

// The store's events that are not written: the names of those whose parents are all written, in a queue, and the
// lines in which the others wait, each at a parent that is not written.
struct Unwritten<'u, 'w, S: EventStore, O: TotalOrder<Name>> {
    store: &'u S,
    work: &'u mut WorkList<'w>,
    queue: &'u mut Queue<'w, Name, O>,
    ghost room: { work.now.room ≡ S.EventStore.room store.now },
    ghost count: { work.now.count ≡ length (S.EventStore.events store.now) },
    ghost fits: { length (S.EventStore.events store.now) ≤ length queue.now.cells.now },
}

// That a call keeps what was lent is a clause of each: it is a fact of two values, which the invariant of one cannot say.
impl<'u, 'w, S: EventStore, O: TotalOrder<Name>> Unwritten<'u, 'w, S, O> {
    // The first parent of event e that is not written, if there is one.
    fn awaited(&self, e: usize) -> Option<usize>
        ensures answer { Awaited (S.EventStore.events self.now.store.now) (S.EventStore.room self.now.store.now) self.now.work.now.cells.now e result }
    {
        let parents = self.store.parents(e)?;
        self.work.open_one(parents.as_slice())
    }

    // Lets event e wait at a parent that is not written, or puts its name into the queue.
    fn place(&mut self, e: usize)
        requires known { e < length (S.EventStore.events self.old.store.now) }
        requires hand { InHand (S.EventStore.events self.old.store.now) (S.EventStore.room self.old.store.now) self.old.work.now.cells.now self.old.queue.now.cells.now self.old.queue.now.len e }
        ensures same { (self.new.store.now ≡ self.old.store.now) × ((self.new.work.ghost_name ≡ self.old.work.ghost_name) × (self.new.work.now.cells.ghost_name ≡ self.old.work.now.cells.ghost_name)) }
        ensures kept { take (2 * S.EventStore.room self.old.store.now) self.new.work.now.cells.now ≡ take (2 * S.EventStore.room self.old.store.now) self.old.work.now.cells.now }
        ensures after { Placed (S.EventStore.events self.old.store.now) (S.EventStore.room self.old.store.now) e self.old.work.now.cells.now self.old.queue.now.cells.now self.old.queue.now.len self.new.work.now.cells.now self.new.queue.now.cells.now self.new.queue.now.len }
    {
        if let Some(p) = self.awaited(e) {
            self.work.hang(e, p);
            return;
        }
        let Some(name) = self.store.name(e) else {
            unreachable!()
        };
        if !self.queue.push(name) {
            unreachable!()
        }
    }

    // Each event waits at its first parent, or is in the queue.
    fn start(&mut self)
        requires clear { Cleared self.old.work.now.cells.now (S.EventStore.room self.old.store.now) (length (S.EventStore.events self.old.store.now)) }
        requires empty { self.old.queue.now.len ≡ 0 }
        ensures same { (self.new.store.now ≡ self.old.store.now) × ((self.new.work.ghost_name ≡ self.old.work.ghost_name) × (self.new.work.now.cells.ghost_name ≡ self.old.work.now.cells.ghost_name)) }
        ensures open { AllOpen (S.EventStore.events self.old.store.now) (S.EventStore.room self.old.store.now) self.new.work.now.cells.now }
        ensures after { Settled (S.EventStore.events self.old.store.now) (S.EventStore.room self.old.store.now) self.new.work.now.cells.now self.new.queue.now.cells.now self.new.queue.now.len }
    {
        for e in 0..self.store.count() {
            self.place(e);
        }
    }

    // Event e is written: what waits at it waits elsewhere, or is put into the queue.
    fn release(&mut self, e: usize)
        requires known { e < length (S.EventStore.events self.old.store.now) }
        requires line { Handed (S.EventStore.events self.old.store.now) (S.EventStore.room self.old.store.now) self.old.work.now.cells.now self.old.queue.now.cells.now self.old.queue.now.len (first_of (S.EventStore.room self.old.store.now) self.old.work.now.cells.now e) }
        ensures same { (self.new.store.now ≡ self.old.store.now) × ((self.new.work.ghost_name ≡ self.old.work.ghost_name) × (self.new.work.now.cells.ghost_name ≡ self.old.work.now.cells.ghost_name)) }
        ensures kept { take (2 * S.EventStore.room self.old.store.now) self.new.work.now.cells.now ≡ take (2 * S.EventStore.room self.old.store.now) self.old.work.now.cells.now }
        ensures after { Settled (S.EventStore.events self.old.store.now) (S.EventStore.room self.old.store.now) self.new.work.now.cells.now self.new.queue.now.cells.now self.new.queue.now.len }
    {
        let mut waiting = self.work.first(e);
        while let Some(w) = waiting {
            waiting = self.work.behind(w);
            self.place(w);
        }
    }

    // Writes the events, each time the one of the queue whose name comes first. Answers how many were written.
    fn write_all(&mut self) -> usize
        requires clear { AllOpen (S.EventStore.events self.old.store.now) (S.EventStore.room self.old.store.now) self.old.work.now.cells.now }
        requires settled { Settled (S.EventStore.events self.old.store.now) (S.EventStore.room self.old.store.now) self.old.work.now.cells.now self.old.queue.now.cells.now self.old.queue.now.len }
        ensures answer { result ≡ length (S.EventStore.events self.old.store.now) }
        ensures same { (self.new.work.ghost_name ≡ self.old.work.ghost_name) × (self.new.work.now.cells.ghost_name ≡ self.old.work.now.cells.ghost_name) }
        ensures after { Archived O.TotalOrder.first (S.EventStore.events self.old.store.now) (S.EventStore.room self.old.store.now) self.new.work.now.cells.now }
    {
        let mut written = 0;
        while let Some(name) = self.queue.pop() {
            let Some(number) = self.store.number_of(name) else {
                unreachable!()
            };
            let e = number as usize;
            self.work.write(e, written);
            self.release(e);
            written += 1;
        }
        written
    }
}

// Writes the store's events, with an empty work list and an empty queue. Answers how many were written.
pub(crate) fn write_events<'u, 'w, S: EventStore, O: TotalOrder<Name>>(
    store: &'u S,
    work: &'u mut WorkList<'w>,
    queue: &'u mut Queue<'w, Name, O>,
) -> usize
    requires sized { (work.old.room ≡ S.EventStore.room store.now) × ((work.old.count ≡ length (S.EventStore.events store.now)) × (length (S.EventStore.events store.now) ≤ length queue.old.cells.now)) }
    requires clear { Cleared work.old.cells.now (S.EventStore.room store.now) (length (S.EventStore.events store.now)) }
    requires empty { queue.old.len ≡ 0 }
    ensures answer { result ≡ length (S.EventStore.events store.now) }
    ensures same { work.new.cells.ghost_name ≡ work.old.cells.ghost_name }
    ensures after { Archived O.TotalOrder.first (S.EventStore.events store.now) (S.EventStore.room store.now) work.new.cells.now }
{
    let mut unwritten = Unwritten { store, work, queue };
    unwritten.start();
    let written = unwritten.write_all();
    // taken apart, since a store need not be a type that may be dropped
    let Unwritten {
        store: _,
        work: _,
        queue: _,
    } = unwritten;
    written
}
