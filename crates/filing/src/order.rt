//! The sibling orders that a file may be read for.
ghost use Rattle.filing.specs.Ordered.{OrderNamed};

use std::error::Error;
use std::fmt;
use std::str::FromStr;

#[derive(Clone, Copy, Debug, PartialEq, Eq)]
pub enum Order {
    Author,
    Number,
}

// A word that names no order.
#[derive(Clone, Copy, Debug, PartialEq, Eq)]
pub struct UnknownOrder;

impl fmt::Display for UnknownOrder {
    fn fmt<W: fmt::Write>(&self, f: &mut fmt::Formatter<W>) -> fmt::Result {
        write!(f, "an order is author or number")
    }
}

impl Error for UnknownOrder {}

// The order of a word: author, or number.
impl FromStr for Order {
    type Err = UnknownOrder;

    ghost from_str_gives = { OrderNamed };

    fn from_str(word: &str) -> Result<Order, UnknownOrder> {
        match word {
            "author" => Ok(Order::Author),
            "number" => Ok(Order::Number),
            _ => Err(UnknownOrder),
        }
    }
}
