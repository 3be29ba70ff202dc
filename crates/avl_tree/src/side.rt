//! The two sides of a node.
ghost use Rattle.std.specs.Prelude.{◌≡◌};
ghost use Rattle.avl_tree.specs.Turns.{at_side, opposite};

/// A side of a node. What is at it is near, and what is at the other side is far.
#[derive(Clone, Copy)]
pub enum Side {
    Left,
    Right,
}

impl Side {
    /// The other side.
    pub(crate) fn other(self) -> Side
        ensures { result ≡ opposite self }
    {
        match self {
            Side::Left => Side::Right,
            Side::Right => Side::Left,
        }
    }

    /// Makes a near and a far link of a left and a right one, and the other way around.
    pub(crate) fn order(self, a: Option<u16>, b: Option<u16>) -> (Option<u16>, Option<u16>)
        ensures first { result.0 ≡ at_side self a b }
        ensures second { result.1 ≡ at_side self b a }
    {
        match self {
            Side::Left => (a, b),
            Side::Right => (b, a),
        }
    }
}
