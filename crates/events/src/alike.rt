//! When two names, or two deeds, are one. Both are `==`; what stands here is the promise that no derive makes, that `==`
//! tells whether they are one.
ghost use Rattle.std.specs.Prelude.{◌≡◌, true};

use crate::deed::Deed;
use crate::name::Name;

// Whether two names are the same name.
#[tactic(auto, using(crate::specs::Same::compared_same))]
pub fn same_name(a: Name, b: Name) -> bool
    ensures answer { (result ≡ true → a ≡ b) × (a ≡ b → result ≡ true) }
{
    a == b
}

// Whether two deeds are the same deed.
#[tactic(auto, using(crate::proofs::Compared::same_deeds))]
pub fn same_deed(deed: Deed, other: Deed) -> bool
    ensures answer { (result ≡ true → deed ≡ other) × (deed ≡ other → result ≡ true) }
{
    deed == other
}
