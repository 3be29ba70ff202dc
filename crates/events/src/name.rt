//! What names an event: its author and the author's number for it.
ghost use Rattle.std.specs.Prelude.{◌^◌, ◌<◌};

#[derive(Clone, Copy, Debug, PartialEq, Eq, PartialOrd, Ord)]
pub struct Name {
    pub author: u16,
    pub number: u32,
    ghost narrow: { author < 2 ^ 16 },
    ghost small: { number < 2 ^ 28 },
}
