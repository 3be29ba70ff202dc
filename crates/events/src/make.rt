//! Making the parts of an event: each is tested here, and nowhere else. A name is made of two numbers, and all four are
//! made alike, by `new` and not by `TryFrom`. What is refused here has place 0, as there is no event yet.
ghost use Rattle.std.specs.Prelude.{◌≡◌, [], length};
ghost use Rattle.events.specs.Made.{NameMade, CharacterMade, PositionMade, ParentsMade, ParentPushed};
ghost use Rattle.events.specs.Parts.{numbers_of};
ghost use Rattle.std.specs.List.{slice_get};

use crate::character::Character;
use crate::faults::{BookFault, EventFault};
use crate::name::Name;
use crate::parents::Parents;
use crate::position::Position;

impl Name {
    // The name of an author's event; an author or a number above its limit is refused.
    pub fn new(author: u32, number: u32) -> Result<Name, EventFault>
        ensures answer { NameMade author number result }
    {
        match u16::try_from(author) {
            Ok(author) if number <= 268_435_455 => Ok(Name { author, number }),
            _ => Err(EventFault::Name { event: 0 }),
        }
    }
}

impl Character {
    // The character of a code; a code that is no Unicode scalar value is refused.
    pub fn new(code: u32) -> Result<Character, EventFault>
        ensures answer { CharacterMade code result }
    {
        char::from_u32(code).ok_or(EventFault::Character { event: 0 })?;
        Ok(Character { code })
    }
}

impl Position {
    // A position; one above the limit is refused.
    pub fn new(at: u32) -> Result<Position, BookFault>
        ensures answer { PositionMade at result }
    {
        if at > 268_435_455 {
            return Err(BookFault::Beyond { event: 0 });
        }
        Ok(Position { at })
    }
}

impl Parents {
    // Parents by their numbers, or nothing where there are over four.
    pub fn new(numbers: &[u16]) -> Option<Parents>
        ensures answer { ParentsMade numbers.now result }
    {
        let count = numbers.len();
        if count > 4 {
            return None;
        }
        let mut four = [0u16; 4];
        four[..count].copy_from_slice(numbers);
        Some(Parents {
            numbers: four,
            count,
        })
    }

    // No parents.
    pub fn none() -> Parents
        ensures answer { numbers_of result ≡ [] }
    {
        Parents {
            numbers: [0; 4],
            count: 0,
        }
    }

    // One parent more; false where there are four already, and then nothing changes.
    pub fn push(&mut self, number: u16) -> bool
        ensures after { ParentPushed (numbers_of self.old) number (numbers_of self.new) result }
    {
        if self.count >= 4 {
            return false;
        }
        self.numbers[self.count] = number;
        self.count += 1;
        true
    }

    // How many there are.
    pub fn count(&self) -> usize
        ensures answer { result ≡ length (numbers_of self.now) }
    {
        self.count
    }

    // All of them, in their order.
    pub fn as_slice(&self) -> &[u16]
        ensures answer { result.now ≡ numbers_of self.now }
    {
        &self.numbers[..self.count]
    }

    // Parent k, or nothing past the last.
    pub fn get(&self, k: usize) -> Option<u16>
        ensures answer { result ≡ slice_get (numbers_of self.now) k }
    {
        self.as_slice().get(k).copied()
    }
}
