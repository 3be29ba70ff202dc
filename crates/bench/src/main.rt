//! How long the workloads take: counts go to standard output, times to standard error.
#![tactic(auto)]

mod graphs;

use anyhow::Context;
use archive::archive_order;
use events::AuthorFirst;
use graphs::{MANY, graph, put_branched, put_chained, put_merged};
use std::time::Instant;
use stores::{EventStore, MemoryStore};
use versions::difference;

// Prints what was done, and how long it took.
fn report(rt: &HostRuntime, start: Instant, what: &str, count: usize) -> anyhow::Result<()> {
    let took = start.elapsed(rt)?.as_micros();
    println!(rt; "{what}: {count}")?;
    eprintln!(rt; "{what}: {took} us")?;
    Ok(())
}

// A store with a graph.
fn filled<F: Fn(&mut MemoryStore, u16)>(
    rt: &HostRuntime,
    put: F,
    what: &str,
) -> anyhow::Result<MemoryStore>
    requires { F.IsAlwaysCallable put }
{
    let start = Instant::now(rt)?;
    let store = graph(rt.alloc(), put)?;
    report(rt, start, what, store.count())?;
    Ok(store)
}

// The archive order of all events.
fn archived(
    rt: &HostRuntime,
    store: &MemoryStore,
    work: &mut [u32],
    what: &str,
) -> anyhow::Result<()> {
    let first = store.name(0).context("no events")?;
    let mut names = vec![in rt.alloc(); first; MANY]?;
    let start = Instant::now(rt)?;
    let count = archive_order(store, &AuthorFirst, work, &mut names)?;
    report(rt, start, what, count)
}

// The difference of two versions, so many times.
fn differed(
    rt: &HostRuntime,
    store: &MemoryStore,
    heads: (u16, u16),
    times: u32,
    work: &mut [u32],
    what: &str,
) -> anyhow::Result<()> {
    let mut out = vec![in rt.alloc(); 0u32; MANY]?;
    let start = Instant::now(rt)?;
    let mut all = 0usize;
    for _ in 0..times {
        let (first, second) = difference(store, &[heads.0], &[heads.1], work, &mut out)?;
        all = all.saturating_add(first).saturating_add(second);
    }
    report(rt, start, what, all)
}

fn run(rt: &HostRuntime) -> anyhow::Result<()> {
    let mut work = vec![in rt.alloc(); 0u32; 4 * MANY]?;
    let chain = filled(rt, put_chained, "chain appended")?;
    archived(rt, &chain, &mut work, "chain archived")?;
    differed(
        rt,
        &chain,
        (65_534, 65_535),
        65_536,
        &mut work,
        "chain, heads one apart, 65,536 times",
    )?;
    let merge = filled(rt, put_merged, "merges of four appended")?;
    archived(rt, &merge, &mut work, "merges of four archived")?;
    let branches = filled(rt, put_branched, "two branches appended")?;
    archived(rt, &branches, &mut work, "two branches archived")?;
    differed(
        rt,
        &branches,
        (65_534, 65_535),
        1,
        &mut work,
        "two branches, all between the heads",
    )
}

fn main(rt: HostRuntime) -> anyhow::Result<()> {
    run(&rt)
}
