//! A position in a text, counted from 0.
ghost use Rattle.std.specs.Prelude.{◌^◌, ◌<◌};

#[derive(Clone, Copy, Debug, PartialEq, Eq)]
pub struct Position {
    pub at: u32,
    ghost small: { at < 2 ^ 28 },
}
