//! Event graphs of 65,536 events to measure on.
use events::{Character, Deed, Event, Name, Position};
use std::alloc::{AllocError, Global};
use stores::{EventStore, MemoryStore};

// How many events each graph has.
pub const MANY: usize = 65_536;

// One more event: an author's n-th inserts A at 0.
fn put(store: &mut MemoryStore, author: u16, n: u16, parents: &[u16]) {
    let _ = store.append(Event {
        name: Name {
            author,
            number: u32::from(n),
        },
        deed: Deed::Insert {
            character: Character { code: 65 },
            at: Position { at: 0 },
        },
        parents,
    });
}

// Event n of a chain: each after the one before.
pub fn put_chained(store: &mut MemoryStore, n: u16) {
    if n == 0 {
        put(store, 1, 0, &[]);
    } else {
        put(store, 1, n, &[n - 1]);
    }
}

// Event n of merges: four at a time with no parents, and then one that has seen the four.
pub fn put_merged(store: &mut MemoryStore, n: u16) {
    if n % 5 == 4 {
        put(store, 1, n, &[n - 4, n - 3, n - 2, n - 1]);
    } else {
        put(store, n % 5 + 2, n, &[]);
    }
}

// Event n of two branches: two lines of events, turn by turn.
pub fn put_branched(store: &mut MemoryStore, n: u16) {
    if n < 2 {
        put(store, n + 1, n, &[]);
    } else {
        put(store, n % 2 + 1, n, &[n - 2]);
    }
}

// A store that holds a graph, whose events are put into it in turn.
pub fn graph<F: Fn(&mut MemoryStore, u16)>(heap: Global, put: F) -> Result<MemoryStore, AllocError>
    requires { F.IsAlwaysCallable put }
{
    let mut store = MemoryStore::with_capacity(heap, MANY)?;
    for n in 0..=u16::MAX {
        put(&mut store, n);
    }
    Ok(store)
}
