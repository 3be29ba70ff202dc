//! What a sheet means: versions, the tree of its characters, its text, edits and archive order.
#![tactic(auto)]

pub mod edit;
pub mod examples;
pub mod theorems;

pub use edit::Edit;
