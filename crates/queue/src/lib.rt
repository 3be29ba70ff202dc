// A queue that hands out first what comes first: a binary heap in the cells of a slice, over any total order.
#![tactic(auto)]

pub mod heap;
pub mod lent;
pub mod order;

pub use lent::Queue;
