//! Versions of a store: what is in the one and not in the other.
#![tactic(auto)]

pub(crate) mod counters;
pub mod differ;
pub(crate) mod marks;
pub(crate) mod noting;
pub mod questions;
pub(crate) mod run;
pub(crate) mod search;
pub(crate) mod taking;
pub mod theorems;

pub use differ::difference;
pub use questions::{contains_all_below, one_behind_another};
pub use theorems::versions_are_alike;

#[cfg(test)]
mod tests;
