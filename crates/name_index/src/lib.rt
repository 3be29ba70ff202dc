//! An index of names, numbered in the order in which they were added: it finds the number of a name
//! by looking at 45 names at most.
#![tactic(auto)]

pub mod index;
pub mod keep;
pub mod laws;
pub mod node;
pub mod turn;
pub mod walk;

pub use index::NameIndex;
pub use laws::{bits_tell_names_apart, every_index_is_lawful};

#[cfg(test)]
mod tests;
