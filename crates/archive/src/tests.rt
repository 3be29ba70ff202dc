//! Events archived by their names, and lists that are too short.
ghost use Rattle.std.specs.Prelude.{◌<◌};

use crate::order::archive_order;
use events::{AuthorFirst, BookFault, Deed, Event, Name, NumberedEvent, Position};
use std::test::Fail;
use stores::{EventStore, MemoryStore};

fn name(number: u32) -> Name
    requires { number < 100 }
{
    Name { author: 7, number }
}

// The tests of a crate stand alone, so its like stands in those of other crates.
fn delete(name: Name, parents: &[u16]) -> NumberedEvent {
    Event {
        name,
        deed: Deed::Delete {
            at: Position { at: 0 },
        },
        parents,
    }
}

// Event 3 waits at event 1, then at event 2; event 4 is the first to be written.
#[test]
fn the_first_name_is_written_first(rt: HostRuntime) -> Result<(), Fail> {
    let mut store = MemoryStore::with_capacity(rt.alloc(), 6)?;
    assert_eq!(rt; store.append(delete(name(9), &[])), Ok(0));
    assert_eq!(rt; store.append(delete(name(3), &[0])), Ok(1));
    assert_eq!(rt; store.append(delete(name(5), &[0])), Ok(2));
    assert_eq!(rt; store.append(delete(name(1), &[1, 2])), Ok(3));
    assert_eq!(rt; store.append(delete(name(2), &[])), Ok(4));
    let mut work = [77; 24];
    let mut names = [name(0); 5];
    assert_eq!(rt;
        archive_order(&store, &AuthorFirst, &mut work, &mut names),
        Ok(5)
    );
    let written = [4, 0, 1, 2, 3];
    let numbers = [1, 2, 3, 4, 0];
    assert!(rt; work[0..5] == written[0..5]);
    assert!(rt; work[6..11] == numbers[0..5]);
    Ok(())
}

#[test]
fn short_lists_are_refused(rt: HostRuntime) -> Result<(), Fail> {
    let mut store = MemoryStore::with_capacity(rt.alloc(), 2)?;
    assert_eq!(rt; store.append(delete(name(1), &[])), Ok(0));
    let mut work = [0; 8];
    let mut names = [name(0); 1];
    assert_eq!(rt;
        archive_order(&store, &AuthorFirst, &mut work[..7], &mut names),
        Err(BookFault::Short { needed: 8 })
    );
    assert_eq!(rt;
        archive_order(&store, &AuthorFirst, &mut work, &mut names[..0]),
        Err(BookFault::Short { needed: 1 })
    );
    Ok(())
}
