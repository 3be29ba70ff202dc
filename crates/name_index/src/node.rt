//! One name of the index, with the links to the names below it.
use events::Name;

#[derive(Clone, Copy)]
pub struct Node {
    pub name: Name,
    // where a walk goes on whose name has a 0 in the bit of this depth
    pub zero: Option<u16>,
    // where one with a 1 goes on
    pub one: Option<u16>,
}
