//! The vocabulary: what an event is, which name comes before which, and the refusals.
#![tactic(auto)]

pub mod alike;
pub mod character;
pub mod deed;
pub mod event;
pub mod faults;
pub mod make;
pub mod name;
pub mod orders;
pub mod parents;
pub mod position;
pub mod refusals;
pub mod shown;

pub use alike::{same_deed, same_name};
pub use character::Character;
pub use deed::Deed;
pub use event::{Event, NamedEvent, NumberedEvent, StoredEvent};
pub use faults::{BookFault, EventFault, FileFault, Layer};
pub use name::Name;
pub use orders::{AuthorFirst, NumberFirst, SiblingOrder};
pub use parents::Parents;
pub use position::Position;
