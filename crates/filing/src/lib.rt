//! Files by the sibling order that they name, and events and answers in plain words.
#![tactic(auto)]

pub mod answers;
pub mod order;
pub mod orders;
pub mod told;

pub use answers::{answer_told, read_for, refile_for};
pub use order::{Order, UnknownOrder};
pub use orders::own_order;
pub use told::event_told;
