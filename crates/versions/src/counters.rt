//! The counters of a search from two heads.

#[derive(Clone, Copy)]
pub(crate) struct Counters {
    // how many cells each area of the work list has
    pub(crate) room: usize,
    // how many events have a mark
    pub(crate) seen: usize,
    // how many of them are queued
    pub(crate) queued: usize,
    // how many of those are in one version alone, as far as is known
    pub(crate) pending: usize,
    // how many events were found in the first version alone
    pub(crate) first: usize,
    // and how many in the second alone
    pub(crate) second: usize,
}
