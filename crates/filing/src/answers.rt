//! Reading for one of the two orders, and what is said of it. Here a word becomes a type, of which the laws of an order
//! are proved: a closure would have to take any type. Memory, bytes and order are given to one call each, and no struct
//! would hold them any longer.
ghost use Rattle.event_file.specs.Answers.{ReadAnswer, RefileAnswer};
ghost use Rattle.filing.specs.Ordered.{type_of};

use crate::order::Order;
use event_file::{FileView, Refiled, Unread, refile};
use events::{AuthorFirst, NumberFirst};
use std::alloc::{AllocError, Global};

// Reads bytes for an order.
pub fn read_for(heap: Global, bytes: Vec<u8>, order: Order) -> Result<FileView, Unread>
    ensures answer { ReadAnswer (type_of order) bytes.items result }
{
    match order {
        Order::Author => FileView::read(heap, bytes, &AuthorFirst),
        Order::Number => FileView::read(heap, bytes, &NumberFirst),
    }
}

// Reads bytes for an order and writes their events again.
pub fn refile_for(heap: Global, bytes: Vec<u8>, order: Order) -> Result<Refiled, Unread>
    ensures answer { RefileAnswer (type_of order) bytes.items result }
{
    match order {
        Order::Author => refile(heap, bytes, &AuthorFirst),
        Order::Number => refile(heap, bytes, &NumberFirst),
    }
}

// What reading answers, as it is printed: `N events`, or the refusal.
pub fn answer_told(heap: Global, bytes: Vec<u8>, order: Order) -> Result<String, AllocError> {
    match read_for(heap, bytes, order) {
        Ok(view) => {
            let count = view.count();
            format!(in heap; "{count} events")
        }
        Err(unread) => {
            let reason = unread.reason;
            format!(in heap; "{reason}")
        }
    }
}
