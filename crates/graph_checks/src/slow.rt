//! The same answers the slow way: a flag for every event, and a look at all of them in every step.
use std::alloc::{AllocError, Global};
use stores::{EventStore, MemoryStore};

fn set(flags: &mut [bool], n: usize) {
    if let Some(flag) = flags.get_mut(n) {
        *flag = true;
    }
}

fn is_set(flags: &[bool], n: usize) -> bool {
    flags.get(n) == Some(&true)
}

// Flags the parents of event n.
fn set_parents(store: &MemoryStore, flags: &mut [bool], n: usize) {
    for parent in (0..4).filter_map(|k| store.parent(n, k)) {
        set(flags, parent as usize);
    }
}

// Flags every event of a version.
pub fn version(heap: Global, store: &MemoryStore, heads: &[u16]) -> Result<Vec<bool>, AllocError> {
    let mut flags = vec![in heap; false; store.count()]?;
    for head in heads {
        set(&mut flags, *head as usize);
    }
    for n in (0..store.count()).rev() {
        if is_set(&flags, n) {
            set_parents(store, &mut flags, n);
        }
    }
    Ok(flags)
}

// The events of the first version that are not in the second, the latest first.
pub fn only(heap: Global, first: &[bool], second: &[bool]) -> Result<Vec<u32>, AllocError> {
    let mut events = Vec::new(heap);
    for (n, (one, other)) in first.iter().zip(second).enumerate().rev() {
        if *one && !*other {
            if let Ok(number) = u32::try_from(n) {
                events.push(number)?;
            }
        }
    }
    Ok(events)
}

// Whether every parent of event n is flagged.
fn parents_set(store: &MemoryStore, flags: &[bool], n: usize) -> bool {
    (0..4)
        .filter_map(|k| store.parent(n, k))
        .all(|parent| is_set(flags, parent as usize))
}

// Of the unwritten events whose parents are written the one whose name comes first.
fn next(store: &MemoryStore, written: &[bool]) -> Option<usize> {
    (0..store.count())
        .filter(|n| !is_set(written, *n) && parents_set(store, written, *n))
        .min_by_key(|n| store.name(*n))
}

// The events in archive order.
pub fn archive(heap: Global, store: &MemoryStore) -> Result<Vec<u32>, AllocError> {
    let mut written = vec![in heap; false; store.count()]?;
    let mut order = Vec::new(heap);
    for _ in 0..store.count() {
        let Some(n) = next(store, &written) else {
            break;
        };
        set(&mut written, n);
        if let Ok(number) = u32::try_from(n) {
            order.push(number)?;
        }
    }
    Ok(order)
}
