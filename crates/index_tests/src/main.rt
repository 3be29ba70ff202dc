//! Runs the same long pseudo-random sequence of calls over both position indexes, and compares every
//! answer.
#![tactic(auto)]

use anyhow::Context;
use avl::AvlIndex;
use indexes::{Answers, Attachment, Effect, Entry, FlatIndex, PositionIndex, append, ask_all};
use std::alloc::Global;

/// A pseudo-random number, and what is drawn from it.
#[derive(Clone, Copy)]
struct Draw(u32);

impl Draw {
    /// The next pseudo-random number.
    fn successor(self) -> Draw {
        Draw(self.0.wrapping_mul(1_664_525).wrapping_add(1_013_904_223))
    }

    /// A part of it below the limit, or 0 if the limit is 0.
    fn below(self, limit: u32) -> u32 {
        (self.0 >> 8).checked_rem(limit).unwrap_or(0)
    }

    fn character(self, characters: u32) -> u16 {
        (self.below(characters) & 0xffff) as u16
    }

    fn entry(self, characters: u32) -> Entry {
        Entry {
            character: self.character(characters),
            prepared: self.below(7) / 2,
            effect: if self.0 & 0x100 == 0 {
                Effect::Present
            } else {
                Effect::Gone
            },
            attachment: Attachment::LeftOf((self.0 & 0xfff) as u16),
        }
    }
}

/// One call that may change the index, drawn from a number: how wide a range is says how often its call comes.
fn act<I: PositionIndex>(index: &mut I, draw: Draw, places: u32, entry: Entry) -> bool {
    let place = draw.below(places) as usize;
    match draw.0 >> 20 {
        0..=2400 => index.put(place, entry),
        2401..=3200 => index.set_prepared(place, entry.prepared),
        3201..=4000 => index.set_effect(place, entry.effect),
        4001 => {
            index.trim();
            true
        }
        4002 => {
            index.clear();
            true
        }
        _ => append(index, entry).is_some(),
    }
}

/// The answers to all questions, drawn from a number.
fn answers<I: PositionIndex>(index: &I, draw: Draw, places: u32, characters: u32) -> Answers {
    let place = draw.below(places) as usize;
    let n = draw.below(places / 2) as usize;
    ask_all(index, place, n, draw.character(characters))
}

/// How often two indexes differed, and the most entries that they had.
#[derive(Clone, Copy)]
struct Comparison {
    wrong: u32,
    most: usize,
}

/// Runs a number of steps over two indexes.
fn compared<I: PositionIndex, J: PositionIndex>(
    a: &mut I,
    b: &mut J,
    steps: u32,
    characters: u32,
) -> Comparison {
    let mut last = Draw(1);
    let mut wrong = 0u32;
    let mut most = 0;
    for _ in 0..steps {
        let places = b.len().min(70_000) as u32 + 3;
        let first = last.successor();
        let second = first.successor();
        let entry = second.entry(characters);
        let same_act = act(a, first, places, entry) == act(b, first, places, entry);
        let same_answers = answers(a, second, places, characters)
            == answers(b, second, places, characters);
        if !same_act || !same_answers {
            wrong = wrong.saturating_add(1);
        }
        most = most.max(b.len());
        last = second;
    }
    Comparison { wrong, most }
}

fn flat(heap: Global, room: usize) -> anyhow::Result<FlatIndex> {
    Ok(FlatIndex::new(Vec::with_capacity(heap, room)?))
}

fn tree(heap: Global, room: usize) -> anyhow::Result<AvlIndex> {
    let nodes = Vec::with_capacity(heap, room)?;
    let spare = Vec::with_capacity(heap, room)?;
    let directory = vec![in heap; 0u16; 65_536]?;
    AvlIndex::new(nodes, spare, directory).context("the directory has another length")
}

/// Runs both indexes with one room, and says how they compare.
fn compare(rt: &HostRuntime, room: u32, steps: u32) -> anyhow::Result<()> {
    let mut a = flat(rt.alloc(), room as usize)?;
    let mut b = tree(rt.alloc(), room as usize)?;
    let characters = room.saturating_mul(2);
    let Comparison { wrong, most } = compared(&mut a, &mut b, steps, characters);
    println!(rt; "room {room}, {steps} steps: {wrong} differences, at most {most} entries")?;
    Ok(())
}

fn main(rt: HostRuntime) -> anyhow::Result<()> {
    for (room, steps) in [(0, 50), (9, 5_000), (300, 20_000), (20_000, 20_000)] {
        compare(&rt, room, steps)?;
    }
    Ok(())
}
