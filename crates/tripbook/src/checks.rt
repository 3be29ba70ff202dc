//! The command check: is a file sound?
use anyhow::anyhow;
use event_file::{Reason, Unread};
use filing::{own_order, read_for};
use std::fs;

// Prints why bytes were not read, and ends the command.
pub fn refuse(rt: &HostRuntime, unread: Unread) -> anyhow::Result<()> {
    let reason = unread.reason;
    match reason {
        Reason::Fault(_) => {
            println!(rt; "{reason}")?;
            Err(anyhow!("the file was not read"))
        }
        Reason::NoMemory => Err(anyhow!("{reason}")),
    }
}

// Prints how many events a file has, or its refusal.
pub fn check_file(rt: &HostRuntime, file: &str, order: Option<&str>) -> anyhow::Result<()> {
    let bytes = fs::read(rt, file)?;
    let order = match order {
        None => own_order(bytes.as_slice()),
        Some(word) => word.parse()?,
    };
    match read_for(rt.alloc(), bytes, order) {
        Ok(view) => {
            let count = view.count();
            println!(rt; "{count} events")?;
            Ok(())
        }
        Err(unread) => refuse(rt, unread),
    }
}
