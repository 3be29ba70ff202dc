//! A search from two heads: the work list that the caller lent, and the counters that tell what it holds.
ghost use Rattle.versions.specs.Searches.{Listed};

use crate::counters::Counters;

// The list has four areas of `room` cells, told apart by where they begin: it is lent in one piece, and the queue's area
// takes a second list from its end.
#[derive(Drop)]
pub(crate) struct Search<'a> {
    pub(crate) work: &'a mut [u32],
    pub(crate) counters: Counters,
    ghost listed: { Listed work.now counters },
}
