//! Marks: in which of two versions an event is known to be.
ghost use Rattle.std.specs.Prelude.{◌≡◌};
ghost use Rattle.versions.specs.Marks.{join as join_marks, number_of, one_sided, told};

// The numbers are what a lent cell of 32 bits holds of it; 0 is no mark.
#[derive(Clone, Copy, Debug, PartialEq, Eq)]
pub(crate) enum Mark {
    First = 1,
    Second = 2,
    Both = 3,
}

impl Mark {
    // The mark that the number in a cell tells.
    pub(crate) fn from_number(number: u32) -> Option<Mark>
        ensures answer { result ≡ told number }
    {
        match number {
            0 => None,
            1 => Some(Mark::First),
            2 => Some(Mark::Second),
            _ => Some(Mark::Both),
        }
    }

    // The number of a mark in a cell.
    pub(crate) fn number(self) -> u32
        ensures answer { result ≡ number_of self }
    {
        self as u32
    }

    // The mark of what two marks say.
    pub(crate) fn join(self, mark: Mark) -> Mark
        ensures answer { number_of result ≡ join_marks (number_of self) (number_of mark) }
    {
        if self == mark { self } else { Mark::Both }
    }

    // 1 for a mark of one version alone, else 0.
    pub(crate) fn alone(self) -> usize
        ensures answer { result ≡ one_sided (number_of self) }
    {
        usize::from(self != Mark::Both)
    }
}
