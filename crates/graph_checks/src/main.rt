//! Event graphs by chance: differences and archive orders against a slow reference.
#![tactic(auto)]

mod chance;
mod graphs;
mod slow;

use archive::archive_order;
use chance::Chance;
use events::AuthorFirst;
use graphs::{graph, some_below};
use std::alloc::Global;
use stores::{EventStore, MemoryStore};
use versions::difference;

// Whether the front of a list is two lists, one behind the other.
fn in_front(cells: &[u32], first: &[u32], second: &[u32]) -> bool {
    cells
        .strip_prefix(first)
        .is_some_and(|rest| rest.starts_with(second))
}

// Whether a difference of two versions by chance is that of the reference.
fn differs_so(
    heap: Global,
    store: &MemoryStore,
    chance: &mut Chance,
    work: &mut [u32],
    out: &mut [u32],
) -> anyhow::Result<bool> {
    let count = u32::try_from(store.count())?;
    let first = some_below(heap, chance, count)?;
    let second = some_below(heap, chance, count)?;
    let one = slow::version(heap, store, &first)?;
    let two = slow::version(heap, store, &second)?;
    let left = slow::only(heap, &one, &two)?;
    let right = slow::only(heap, &two, &one)?;
    let answer = difference(store, &first, &second, work, out);
    Ok(answer == Ok((left.len(), right.len())) && in_front(out, &left, &right))
}

// Whether the archive order is that of the reference.
fn archives_so(heap: Global, store: &MemoryStore, work: &mut [u32]) -> anyhow::Result<bool> {
    let Some(some) = store.name(0) else {
        return Ok(true);
    };
    let mut names = vec![in heap; some; store.count()]?;
    let order = slow::archive(heap, store)?;
    let answer = archive_order(store, &AuthorFirst, work, &mut names);
    Ok(answer == Ok(order.len()) && in_front(work, &order, &[]))
}

fn run(rt: &HostRuntime) -> anyhow::Result<()> {
    let heap = rt.alloc();
    let mut chance = Chance::new(7);
    let mut work = vec![in heap; 9u32; 256]?;
    let mut out = vec![in heap; 9u32; 64]?;
    let mut right = 0u32;
    for round in 0..400u32 {
        let store = graph(heap, &mut chance, round % 48)?;
        let differs = differs_so(heap, &store, &mut chance, &mut work, &mut out)?;
        let archives = archives_so(heap, &store, &mut work)?;
        if differs && archives {
            right = right.saturating_add(1);
        } else {
            println!(rt; "graph {round}: difference {differs}, archive order {archives}")?;
        }
    }
    println!(rt; "{right} graphs answered as the slow reference")?;
    Ok(())
}

fn main(rt: HostRuntime) -> anyhow::Result<()> {
    run(&rt)
}
