//! A sibling order as the order of a queue of names.
ghost use Rattle.std.proofs.Common.{rules};

use events::{Name, SiblingOrder};
use queue::order::TotalOrder;

// Names, the one that comes before the others first. The traits stay two: a sibling order is of names alone, has a
// type number, and knows of no queue.
#[derive(Clone, Copy)]
pub struct ByName<O> {
    pub order: O,
}

impl<O: SiblingOrder> TotalOrder<Name> for ByName<O> {
    ghost first = { O.SiblingOrder.before };

    ghost total = { record { irreflexive = Prim.search rules; transitive = Prim.search rules; total = Prim.search rules } };

    fn comes_first(&self, a: &Name, b: &Name) -> bool {
        self.order.precedes(*a, *b)
    }
}

// A sibling order that is lent.
#[derive(Drop)]
pub(crate) struct Lent<'a, O> {
    pub(crate) order: &'a O,
}

impl<O: SiblingOrder> SiblingOrder for Lent<'_, O> {
    ghost before = { O.SiblingOrder.before };

    ghost kind = { O.SiblingOrder.kind };

    ghost irreflexive = { Prim.search rules };

    ghost transitive = { Prim.search rules };

    ghost total = { Prim.search rules };

    ghost small = { Prim.search rules };

    fn precedes(&self, a: Name, b: Name) -> bool {
        self.order.precedes(a, b)
    }

    fn type_number(&self) -> u8 {
        self.order.type_number()
    }
}
