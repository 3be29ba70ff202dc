//! Event graphs by chance.
use crate::chance::Chance;
use events::{Character, Deed, Event, Name, Position};
use std::alloc::{AllocError, Global};
use stores::{EventStore, MemoryStore};

// Up to four numbers below n, rising.
pub fn some_below(heap: Global, chance: &mut Chance, n: u32) -> Result<Vec<u16>, AllocError> {
    let mut numbers = Vec::new(heap);
    let mut next = 0u32;
    for _ in 0..chance.below(5) {
        let gap = chance.below(n / 2 + 1);
        next = next.saturating_add(gap);
        if next < n {
            if let Ok(number) = u16::try_from(next) {
                numbers.push(number)?;
            }
        }
        next = next.saturating_add(1);
    }
    Ok(numbers)
}

// A store with up to so many events, each of which inserts A at 0; what is refused is left out.
pub fn graph(heap: Global, chance: &mut Chance, many: u32) -> Result<MemoryStore, AllocError> {
    let mut store = MemoryStore::with_capacity(heap, 64)?;
    for n in 0..many {
        let name = Name {
            author: chance.below(3) as u16,
            number: chance.below(9),
        };
        let parents = some_below(heap, chance, n)?;
        let _ = store.append(Event {
            name,
            deed: Deed::Insert {
                character: Character { code: 65 },
                at: Position { at: 0 },
            },
            parents: &parents,
        });
    }
    Ok(store)
}
