//! The command refile: a filed day from beginning to end.
use crate::checks::refuse;
use event_file::FileView;
use events::Deed;
use filing::{event_told, own_order, refile_for};
use std::fs;

// How many of the events insert.
fn inserts(view: &FileView) -> usize {
    (0..view.count())
        .filter(|n| matches!(view.deed(*n), Some(Deed::Insert { .. })))
        .count()
}

// Prints each event, and then a summary.
fn print_day(rt: &HostRuntime, view: &FileView) -> anyhow::Result<()> {
    for n in 0..view.count() {
        let line = event_told(rt.alloc(), view, n)?;
        println!(rt; "{line}")?;
    }
    let count = view.count();
    let inserted = inserts(view);
    let deleted = count.saturating_sub(inserted);
    println!(rt; "{count} events: {inserted} inserts, {deleted} deletes")?;
    Ok(())
}

// Reads a day's file, prints its events, writes them to another file and says whether the bytes are the same.
pub fn refile_day(rt: &HostRuntime, from: &str, to: &str) -> anyhow::Result<()> {
    let bytes = fs::read(rt, from)?;
    let order = own_order(bytes.as_slice());
    match refile_for(rt.alloc(), bytes, order) {
        Ok(refiled) => {
            print_day(rt, &refiled.view)?;
            let length = refiled.written.len();
            fs::write(rt, to, refiled.written.as_slice())?;
            if refiled.written.as_slice() == refiled.view.bytes() {
                println!(rt; "wrote {length} bytes: the same bytes")?;
            } else {
                println!(rt; "wrote {length} bytes: other bytes")?;
            }
            Ok(())
        }
        Err(unread) => refuse(rt, unread),
    }
}
