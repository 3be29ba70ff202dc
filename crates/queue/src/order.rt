// Which of two values comes first: total orders, and the one by which the latest event number comes first.
ghost use Rattle.std.specs.Prelude.{◌≡◌, Bool, nat_lt};
ghost use Rattle.std.proofs.Common.{rules};
ghost use Rattle.queue.specs.Orders.{Total};

// An order in which of any two different values one comes first. It is a value of its own, and not the `Ord` of the
// elements, since callers choose between several orders of the same names.
pub trait TotalOrder<T> {
    ghost first: { T → T → Bool };

    fn comes_first(&self, a: &T, b: &T) -> bool
        ensures answer { result ≡ first a.now b.now };

    ghost total: { Total first };
}

// Event numbers, the largest first.
#[derive(Clone, Copy, Debug, PartialEq, Eq)]
pub struct LatestFirst;

impl TotalOrder<u32> for LatestFirst {
    ghost first = { λ a b. nat_lt b a };

    ghost total = { record { irreflexive = Prim.search rules; transitive = Prim.search rules; total = Prim.search rules } };

    fn comes_first(&self, a: &u32, b: &u32) -> bool {
        *b < *a
    }
}
