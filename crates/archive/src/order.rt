//! The archive order of a store's events.
ghost use Rattle.std.specs.Prelude.{◌≡◌, false, length, is_ok};
ghost use Rattle.archive.specs.Archived.{ArchiveAnswer};

use crate::by_name::{ByName, Lent};
use crate::unwritten::write_events;
use crate::work_list::WorkList;
use events::{BookFault, Name, SiblingOrder};
use queue::Queue;
use stores::EventStore;

// The order in which the events are archived, and each event's number in it; answers how many events there are.
// The work list has four cells for each event of the store's capacity, and the list of names one for each event
// held; what they hold before does not matter. Then cell i of the work list has the event that is written as
// number i, and the cell `capacity + e` the archive number of event e.
pub fn archive_order<S: EventStore, O: SiblingOrder>(
    store: &S,
    order: &O,
    work: &mut [u32],
    names: &mut [Name],
) -> Result<usize, BookFault>
    ensures answer { ArchiveAnswer O.SiblingOrder.before (S.EventStore.events store.now) (S.EventStore.room store.now) (length work.old) (length names.old) work.new result }
    ensures kept { is_ok result ≡ false → (work.new ≡ work.old) × (names.new ≡ names.old) }
{
    let needed = 4 * store.capacity();
    if work.len() < needed {
        return Err(BookFault::Short { needed });
    }
    let needed = store.count();
    if names.len() < needed {
        return Err(BookFault::Short { needed });
    }
    let order = ByName {
        order: Lent { order },
    };
    let mut work = WorkList::over(work, store.capacity(), needed);
    let mut queue = Queue::over(names, &order);
    Ok(write_events(store, &mut work, &mut queue))
}
