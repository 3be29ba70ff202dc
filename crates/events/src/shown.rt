//! How names, deeds, layers and refusals are printed.
use crate::character::Character;
use crate::deed::Deed;
use crate::faults::{BookFault, EventFault, FileFault, Layer};
use crate::name::Name;
use std::error::Error;
use std::fmt;

// Author and number, as 2.7.
impl fmt::Display for Name {
    fn fmt<W: fmt::Write>(&self, f: &mut fmt::Formatter<W>) -> fmt::Result {
        let author = self.author;
        let number = self.number;
        write!(f, "{author}.{number}")
    }
}

// The character before its code, unless it would not be seen on a screen: A (U+0041), or U+0020.
impl fmt::Display for Character {
    fn fmt<W: fmt::Write>(&self, f: &mut fmt::Formatter<W>) -> fmt::Result {
        let code = self.code;
        match char::from_u32(code) {
            Some(seen) if code > 0x20 && !(0x7f..=0xa0).contains(&code) => {
                write!(f, "{seen} (U+{code:04X})")
            }
            _ => write!(f, "U+{code:04X}"),
        }
    }
}

// What a deed does, and where: inserts A (U+0041) at 0, or deletes at 3.
impl fmt::Display for Deed {
    fn fmt<W: fmt::Write>(&self, f: &mut fmt::Formatter<W>) -> fmt::Result {
        match self {
            Deed::Insert { character, at } => {
                let position = at.at;
                write!(f, "inserts {character} at {position}")
            }
            Deed::Delete { at } => {
                let position = at.at;
                write!(f, "deletes at {position}")
            }
        }
    }
}

impl fmt::Display for Layer {
    fn fmt<W: fmt::Write>(&self, f: &mut fmt::Formatter<W>) -> fmt::Result {
        let word = match self {
            Layer::File => "file",
            Layer::Event => "event",
            Layer::Store => "store",
            Layer::Walk => "walk",
            Layer::Caller => "caller",
        };
        write!(f, "{word}")
    }
}

// As every command prints a refusal: number, word, layer and place.
impl fmt::Display for BookFault {
    fn fmt<W: fmt::Write>(&self, f: &mut fmt::Formatter<W>) -> fmt::Result {
        let number = self.number();
        let word = self.word();
        let layer = self.layer();
        let place = self.place();
        write!(f, "refused {number} {word}: {layer}, place {place}")
    }
}

// As the refusal of an event that it becomes.
impl fmt::Display for FileFault {
    fn fmt<W: fmt::Write>(&self, f: &mut fmt::Formatter<W>) -> fmt::Result {
        EventFault::from(*self).fmt(f)
    }
}

// As the refusal of a book that it becomes.
impl fmt::Display for EventFault {
    fn fmt<W: fmt::Write>(&self, f: &mut fmt::Formatter<W>) -> fmt::Result {
        BookFault::from(*self).fmt(f)
    }
}

impl Error for BookFault {}

impl Error for EventFault {}

impl Error for FileFault {}
