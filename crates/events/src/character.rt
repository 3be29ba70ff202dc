//! One character of a text: a Unicode scalar value.
ghost use Rattle.std.specs.Prelude.{◌≡◌, true};
ghost use Rattle.events.specs.Scalar.{is_scalar};

#[derive(Clone, Copy, Debug, PartialEq, Eq)]
pub struct Character {
    pub code: u32,
    ghost scalar: { is_scalar code ≡ true },
}
