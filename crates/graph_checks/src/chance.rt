//! Numbers that look random, the same in every run: the graphs that are counted depend on every bit of them.
ghost use Rattle.std.specs.Prelude.{◌<◌};

#[derive(Drop)]
pub struct Chance {
    state: u32,
}

impl Chance {
    pub fn new(state: u32) -> Chance {
        Chance { state }
    }

    // A number below n, or 0 where n is 0.
    pub fn below(&mut self, n: u32) -> u32
        ensures { 0 < n → result < n }
    {
        self.state = self
            .state
            .wrapping_mul(1_664_525)
            .wrapping_add(1_013_904_223);
        if n == 0 {
            return 0;
        }
        (self.state / 65_536) % n
    }
}
