// A queue over cells that are lent to it.
ghost use Rattle.std.specs.Prelude.{◌≡◌, ◌+◌, ◌-◌, ◌≤◌, true, false, length, is_some, IfSome, nat_lt};
ghost use Rattle.queue.specs.Heaps.{Heaped, Popped, Pushed};

use crate::heap;
use crate::order::TotalOrder;

// The first `len` of the lent cells, in heap order.
#[derive(Drop)]
pub struct Queue<'a, T, O: TotalOrder<T>> {
    cells: &'a mut [T],
    len: usize,
    order: &'a O,
    pub ghost within: { len ≤ length cells.now },
    pub ghost heaped: { Heaped O.TotalOrder.first cells.now len },
}

impl<'a, T: Copy, O: TotalOrder<T>> Queue<'a, T, O> {
    // An empty queue.
    pub fn over(cells: &'a mut [T], order: &'a O) -> Queue<'a, T, O>
        ensures same { result.cells.ghost_name ≡ cells.entry.ghost_name }
        ensures answer { (result.len ≡ 0) × (result.cells.now ≡ cells.old) }
    {
        Queue {
            cells,
            len: 0,
            order,
        }
    }

    // Puts `x` into the queue. Refuses where the cells are all in use.
    pub fn push(&mut self, x: T) -> bool
        ensures same { self.new.cells.ghost_name ≡ self.old.cells.ghost_name }
        ensures answer { result ≡ nat_lt self.old.len (length self.old.cells.now) }
        ensures kept { result ≡ false → (self.new.len ≡ self.old.len) × (self.new.cells.now ≡ self.old.cells.now) }
        ensures after { result ≡ true → (self.new.len ≡ self.old.len + 1) × Pushed O.TotalOrder.first self.old.cells.now self.old.len x self.new.cells.now }
        ensures sized { length self.new.cells.now ≡ length self.old.cells.now }
    {
        let taken = heap::push(self.cells, self.len, x, self.order);
        if taken {
            self.len += 1;
        }
        taken
    }

    // The value that comes first, which leaves the queue. None where the queue is empty.
    pub fn pop(&mut self) -> Option<T>
        ensures same { self.new.cells.ghost_name ≡ self.old.cells.ghost_name }
        ensures answer { is_some result ≡ nat_lt 0 self.old.len }
        ensures kept { is_some result ≡ false → (self.new.len ≡ self.old.len) × (self.new.cells.now ≡ self.old.cells.now) }
        ensures after { IfSome result (λ x. (self.new.len ≡ self.old.len - 1) × Popped O.TotalOrder.first self.old.cells.now self.old.len x self.new.cells.now) }
        ensures sized { length self.new.cells.now ≡ length self.old.cells.now }
    {
        let len = self.len;
        self.len = len.checked_sub(1)?;
        heap::pop(self.cells, len, self.order)
    }
}

#[cfg(test)]
mod tests {
    use super::*;
    use crate::order::LatestFirst;

    #[test]
    fn the_lent_cells_are_a_queue(rt: HostRuntime) {
        let mut cells = [0; 2];
        let mut queue = Queue::over(&mut cells, &LatestFirst);
        assert!(rt; queue.push(7));
        assert!(rt; queue.push(31));
        assert!(rt; !queue.push(5));
        assert_eq!(rt; queue.pop(), Some(31));
        assert_eq!(rt; queue.pop(), Some(7));
        assert_eq!(rt; queue.pop(), None);
    }
}
