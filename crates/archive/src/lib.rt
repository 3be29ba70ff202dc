//! The order in which events are archived.
#![tactic(auto)]

pub mod by_name;
pub mod order;
mod unwritten;
mod work_list;

pub use by_name::ByName;
pub use order::archive_order;

#[cfg(test)]
mod tests;
