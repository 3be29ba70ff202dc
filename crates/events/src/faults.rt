//! Why a call is refused, in three layers; each case has what its place is told from.

// What is wrong with the bytes of a file, as words.
#[derive(Clone, Copy, Debug, PartialEq, Eq)]
pub enum FileFault {
    // the bytes are not a whole file: how many whole words there are
    Length { words: usize },
    // the first word is not the head of such a file
    Head,
    // the word is of a kind wrong for its place
    Kind { word: usize },
    // the last word does not end the file
    End { word: usize },
}

// What is wrong with an event, by the number that it has or would get; of a head asked for, its place.
#[derive(Clone, Copy, Debug, PartialEq, Eq)]
pub enum EventFault {
    File(FileFault),
    Name { event: usize },
    Character { event: usize },
    Held { event: usize },
    Clash { event: usize },
    Unknown { event: usize },
    Parents { event: usize },
}

// Why a book refuses a call.
#[derive(Clone, Copy, Debug, PartialEq, Eq)]
pub enum BookFault {
    Event(EventFault),
    StoreFull { event: usize },
    Behind { event: usize },
    Beyond { event: usize },
    IndexFull { event: usize },
    Short { needed: usize },
}

// The part of the program that refuses.
#[derive(Clone, Copy, Debug, PartialEq, Eq)]
pub enum Layer {
    File,
    Event,
    Store,
    Walk,
    Caller,
}
