//! AVL trees over nodes in memory: how they are joined, searched, climbed, changed and built.
#![tactic(auto)]

pub mod build;
pub mod change;
pub mod climb;
pub mod find;
pub mod node;
pub mod put;
pub mod side;
pub mod tie;
pub mod turn;
pub mod weigh;
