//! Which sibling order a file is read for.
ghost use Rattle.std.specs.Prelude.{◌≡◌};
ghost use Rattle.filing.specs.Ordered.{own_order};

use crate::order::Order;
use events::{NumberFirst, SiblingOrder};

// The order that a file's first byte names. A file of no known type is read as author-first, and so refused.
pub fn own_order(bytes: &[u8]) -> Order
    ensures answer { result ≡ own_order bytes.now }
{
    match bytes.first() {
        Some(b) if *b % 16 == NumberFirst.type_number() => Order::Number,
        _ => Order::Author,
    }
}
