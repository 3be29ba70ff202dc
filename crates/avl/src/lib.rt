//! The AVL index: a position index whose every question and change takes logarithmic time.
#![tactic(auto)]

pub mod index;

pub use avl_tree::node::Node;
pub use index::AvlIndex;
