//! Position indexes: the trait with its meaning, a list of entries, and the flat index.
#![tactic(auto)]

pub mod entry;
pub mod flat;
pub mod generic;
pub mod position;

pub use entry::{Attachment, Effect, Entry};
pub use flat::FlatIndex;
pub use flat::cells::trim_cells;
pub use generic::{Answers, append, ask_all};
pub use position::PositionIndex;

#[cfg(test)]
mod tests;
