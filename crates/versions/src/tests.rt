//! Versions of a small store with two branches, over a work list of any contents.
ghost use Rattle.std.specs.Prelude.{◌<◌};

use crate::differ::difference;
use crate::questions::{contains_all_below, one_behind_another};
use events::{Deed, Event, Name, Position};
use std::test::Fail;
use stores::{EventStore, MemoryStore};

fn append(store: &mut MemoryStore, number: u32, parents: &[u16])
    requires { number < 100 }
{
    let name = Name { author: 7, number };
    let deed = Deed::Delete {
        at: Position { at: 0 },
    };
    let _ = store.append(Event {
        name,
        deed,
        parents,
    });
}

// Event 0, the branch 1, 3 and the branch 2 behind it, and 4 that joins them.
fn two_branches(store: &mut MemoryStore) {
    append(store, 0, &[]);
    append(store, 1, &[0]);
    append(store, 2, &[0]);
    append(store, 3, &[1]);
    append(store, 4, &[2, 3]);
}

#[test]
fn branches_differ(rt: HostRuntime) -> Result<(), Fail> {
    let mut store = MemoryStore::with_capacity(rt.alloc(), 5)?;
    two_branches(&mut store);
    let mut work = [1; 20];
    let mut out = [9; 5];
    let counts = difference(&store, &[3, 3], &[2], &mut work, &mut out);
    assert_eq!(rt; counts, Ok((2, 1)));
    assert_eq!(rt; out, [3, 1, 2, 9, 9]);
    let counts = difference(&store, &[2], &[4], &mut work, &mut out);
    assert_eq!(rt; counts, Ok((0, 3)));
    assert_eq!(rt; out, [4, 3, 1, 9, 9]);
    Ok(())
}

#[test]
fn questions_are_answered(rt: HostRuntime) -> Result<(), Fail> {
    let mut store = MemoryStore::with_capacity(rt.alloc(), 5)?;
    two_branches(&mut store);
    let mut work = [4_294_967_295; 20];
    let mut out = [0; 5];
    let behind = one_behind_another(&store, &[1, 2, 3], &mut work, &mut out);
    assert_eq!(rt; behind, Ok(true));
    let behind = one_behind_another(&store, &[2, 3], &mut work, &mut out);
    assert_eq!(rt; behind, Ok(false));
    let all = contains_all_below(&store, &[2, 3], 4, &mut work, &mut out);
    assert_eq!(rt; all, Ok(true));
    let all = contains_all_below(&store, &[3], 3, &mut work, &mut out);
    assert_eq!(rt; all, Ok(false));
    let counts = difference(&store, &[1, 5], &[], &mut work, &mut out);
    assert_eq!(rt; counts.map_err(|fault| fault.number()), Err(9));
    Ok(())
}
