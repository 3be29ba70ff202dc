//! Events appended to a store in memory, asked for again and refused.
ghost use Rattle.std.specs.Prelude.{◌<◌};

use crate::ask::agrees;
use crate::memory::MemoryStore;
use crate::same::is_event;
use crate::store::EventStore;
use events::{BookFault, Deed, Event, Name, NumberedEvent, Position};
use std::test::Fail;

fn name(number: u32) -> Name
    requires { number < 100 }
{
    Name { author: 7, number }
}

// The tests of a crate stand alone, so its like stands in those of other crates.
fn delete(name: Name, parents: &[u16]) -> NumberedEvent {
    Event {
        name,
        deed: Deed::Delete {
            at: Position { at: 0 },
        },
        parents,
    }
}

// The number of the event, or that of the refusal.
fn told(r: Result<usize, BookFault>) -> Result<usize, u8> {
    r.map_err(|fault| fault.number())
}

#[test]
fn asks_for_what_was_appended(rt: HostRuntime) -> Result<(), Fail> {
    let mut store = MemoryStore::with_capacity(rt.alloc(), 2)?;
    assert_eq!(rt; told(store.append(delete(name(5), &[]))), Ok(0));
    assert_eq!(rt; told(store.append(delete(name(3), &[0]))), Ok(1));
    assert_eq!(rt; store.count(), 2);
    assert_eq!(rt; store.number_of(name(3)), Some(1));
    assert_eq!(rt; store.parent(1, 0), Some(0));
    assert!(rt; is_event(&store, 1, delete(name(3), &[0, 0])));
    assert!(rt; agrees(&store, 1) && !agrees(&store, store.capacity()));
    Ok(())
}

#[test]
fn refuses_in_order(rt: HostRuntime) -> Result<(), Fail> {
    let mut store = MemoryStore::with_capacity(rt.alloc(), 1)?;
    assert_eq!(rt; told(store.append(delete(name(0), &[]))), Ok(0));
    assert_eq!(rt; told(store.append(delete(name(0), &[9, 0]))), Err(8));
    assert_eq!(rt; told(store.append(delete(name(1), &[1, 0]))), Err(9));
    assert_eq!(rt; told(store.append(delete(name(1), &[0, 0]))), Err(10));
    assert_eq!(rt; told(store.append(delete(name(1), &[0]))), Err(11));
    Ok(())
}
