//! Which of two siblings comes first, by their names.
ghost use Rattle.std.specs.Prelude.{◌≡◌, ℕ, ◌<◌, Bool, true, false, not, ◌≢◌};
ghost use Rattle.events.specs.Orders.{author_first, number_first};
ghost use Rattle.events.specs.declared.name.Name.{Name};
ghost use Rattle.events.specs.Same.{name_is};
ghost use Rattle.events.specs.Pairs.{pair_total};
ghost use Rattle.std.proofs.Common.{rules};

use crate::name::Name;

// An order of names, the same for every value of its type, and the number by which files tell it.
pub trait SiblingOrder {
    ghost before: { Name → Name → Bool };

    ghost kind: { ℕ };

    // Whether one name comes before another.
    fn precedes(&self, a: Name, b: Name) -> bool
        ensures answer { result ≡ before a b };

    // The type number of the order, 0 to 15.
    fn type_number(&self) -> u8
        ensures answer { result ≡ kind };

    ghost irreflexive: { (a : Name) → before a a ≡ false };

    ghost transitive: { (a b c : Name) → before a b ≡ true → before b c ≡ true → before a c ≡ true };

    ghost total: { (a b : Name) → a ≢ b → before a b ≡ not (before b a) };

    ghost small: { kind < 16 };
}

// Authors first, then numbers: type 0.
#[derive(Clone, Copy, Debug, PartialEq, Eq)]
pub struct AuthorFirst;

// Numbers first, then authors: type 1.
#[derive(Clone, Copy, Debug, PartialEq, Eq)]
pub struct NumberFirst;

impl SiblingOrder for AuthorFirst {
    ghost before = { author_first };

    ghost kind = { 0 };

    ghost irreflexive = { Prim.search rules };

    ghost transitive = { Prim.search rules };

    ghost total = { λ a b ne. pair_total a.author a.number b.author b.number (λ p q. ne (name_is p q)) };

    ghost small = { Prim.search rules };

    fn precedes(&self, a: Name, b: Name) -> bool {
        a < b
    }

    fn type_number(&self) -> u8 {
        0
    }
}

impl SiblingOrder for NumberFirst {
    ghost before = { number_first };

    ghost kind = { 1 };

    ghost irreflexive = { Prim.search rules };

    ghost transitive = { Prim.search rules };

    ghost total = { λ a b ne. pair_total a.number a.author b.number b.author (λ p q. ne (name_is q p)) };

    ghost small = { Prim.search rules };

    fn precedes(&self, a: Name, b: Name) -> bool {
        (a.number, a.author) < (b.number, b.author)
    }

    fn type_number(&self) -> u8 {
        1
    }
}
