//! Files in a table, each with the order that it is read for and the answer that reading must give.
#![tactic(auto)]

mod hex;

use anyhow::Context;
use filing::answer_told;
use hex::bytes_of;
use std::alloc::Global;
use std::fs;

// Whether reading gives the answer of a line: order, bytes in hex and answer, with tabs between them.
fn as_told(heap: Global, line: &str) -> anyhow::Result<bool> {
    let (order, rest) = line.split_once('\t').context("a line has three columns")?;
    let (digits, answer) = rest.split_once('\t').context("a line has three columns")?;
    let bytes = bytes_of(heap, digits)?;
    let said = answer_told(heap, bytes, order.parse()?)?;
    Ok(said.as_str() == answer)
}

// Prints the lines whose file is answered otherwise, and how many are answered as they say.
fn run(rt: &HostRuntime) -> anyhow::Result<()> {
    let table = fs::read_to_string(rt, "files.tsv")?;
    let mut right = 0usize;
    for line in table.as_str().lines() {
        if as_told(rt.alloc(), line)? {
            right = right.saturating_add(1);
        } else {
            println!(rt; "otherwise: {line}")?;
        }
    }
    println!(rt; "{right} files answered as the table says")?;
    Ok(())
}

fn main(rt: HostRuntime) -> anyhow::Result<()> {
    run(&rt)
}
