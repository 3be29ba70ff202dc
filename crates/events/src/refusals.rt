//! Number, word, layer and place of a refusal, and how a lower fault becomes an upper one.
ghost use Rattle.std.specs.Prelude.{◌≡◌};
ghost use Rattle.events.specs.Refusals.{number_of, word_of, layer_of, place_of};
ghost use Rattle.events.specs.Refusals.{number_of_file, word_of_file, layer_of_file, place_of_file};
ghost use Rattle.events.specs.Refusals.{number_of_event, word_of_event, layer_of_event, place_of_event};
ghost use Rattle.events.specs.declared.faults.EventFault.TheVariants.{File};
ghost use Rattle.events.specs.declared.faults.BookFault.TheVariants.{Event};

use crate::faults::{BookFault, EventFault, FileFault, Layer};

impl From<FileFault> for EventFault {
    ghost from_gives = { λ f r. r ≡ File f };

    fn from(f: FileFault) -> EventFault {
        EventFault::File(f)
    }
}

impl From<EventFault> for BookFault {
    ghost from_gives = { λ f r. r ≡ Event f };

    fn from(f: EventFault) -> BookFault {
        BookFault::Event(f)
    }
}

impl FileFault {
    // The number of the refusal.
    pub(crate) fn number(&self) -> u8
        ensures answer { result ≡ number_of_file self.now }
    {
        match self {
            FileFault::Length { .. } => 1,
            FileFault::Head => 2,
            FileFault::Kind { .. } => 3,
            FileFault::End { .. } => 4,
        }
    }

    // Its word.
    pub(crate) fn word(&self) -> &'static str
        ensures answer { result.now ≡ word_of_file self.now }
    {
        match self {
            FileFault::Length { .. } => "length",
            FileFault::Head => "head",
            FileFault::Kind { .. } => "kind",
            FileFault::End { .. } => "end",
        }
    }

    // The part of the program that refuses.
    pub(crate) fn layer(&self) -> Layer
        ensures answer { result ≡ layer_of_file self.now }
    {
        Layer::File
    }

    // Where.
    pub(crate) fn place(&self) -> usize
        ensures answer { result ≡ place_of_file self.now }
    {
        match self {
            FileFault::Length { words } => *words,
            FileFault::Head => 0,
            FileFault::Kind { word } | FileFault::End { word } => *word,
        }
    }
}

impl EventFault {
    // The number of the refusal.
    pub(crate) fn number(&self) -> u8
        ensures answer { result ≡ number_of_event self.now }
    {
        match self {
            EventFault::File(f) => f.number(),
            EventFault::Name { .. } => 5,
            EventFault::Character { .. } => 6,
            EventFault::Held { .. } => 7,
            EventFault::Clash { .. } => 8,
            EventFault::Unknown { .. } => 9,
            EventFault::Parents { .. } => 10,
        }
    }

    // Its word.
    pub(crate) fn word(&self) -> &'static str
        ensures answer { result.now ≡ word_of_event self.now }
    {
        match self {
            EventFault::File(f) => f.word(),
            EventFault::Name { .. } => "name",
            EventFault::Character { .. } => "character",
            EventFault::Held { .. } => "held",
            EventFault::Clash { .. } => "clash",
            EventFault::Unknown { .. } => "unknown",
            EventFault::Parents { .. } => "parents",
        }
    }

    // The part of the program that refuses.
    pub(crate) fn layer(&self) -> Layer
        ensures answer { result ≡ layer_of_event self.now }
    {
        match self {
            EventFault::File(f) => f.layer(),
            EventFault::Name { .. }
            | EventFault::Character { .. }
            | EventFault::Held { .. }
            | EventFault::Clash { .. }
            | EventFault::Unknown { .. }
            | EventFault::Parents { .. } => Layer::Event,
        }
    }

    // Where.
    pub(crate) fn place(&self) -> usize
        ensures answer { result ≡ place_of_event self.now }
    {
        match self {
            EventFault::File(f) => f.place(),
            EventFault::Name { event }
            | EventFault::Character { event }
            | EventFault::Held { event }
            | EventFault::Clash { event }
            | EventFault::Unknown { event }
            | EventFault::Parents { event } => *event,
        }
    }
}

impl BookFault {
    // The number of the refusal.
    pub fn number(&self) -> u8
        ensures answer { result ≡ number_of self.now }
    {
        match self {
            BookFault::Event(f) => f.number(),
            BookFault::StoreFull { .. } => 11,
            BookFault::Behind { .. } => 12,
            BookFault::Beyond { .. } => 13,
            BookFault::IndexFull { .. } => 14,
            BookFault::Short { .. } => 15,
        }
    }

    // Its word.
    pub fn word(&self) -> &'static str
        ensures answer { result.now ≡ word_of self.now }
    {
        match self {
            BookFault::Event(f) => f.word(),
            BookFault::StoreFull { .. } => "store full",
            BookFault::Behind { .. } => "behind",
            BookFault::Beyond { .. } => "beyond",
            BookFault::IndexFull { .. } => "index full",
            BookFault::Short { .. } => "short",
        }
    }

    // The part of the program that refuses.
    pub fn layer(&self) -> Layer
        ensures answer { result ≡ layer_of self.now }
    {
        match self {
            BookFault::Event(f) => f.layer(),
            BookFault::StoreFull { .. } => Layer::Store,
            BookFault::Behind { .. } | BookFault::Beyond { .. } | BookFault::IndexFull { .. } =>
                Layer::Walk,
            BookFault::Short { .. } => Layer::Caller,
        }
    }

    // Where.
    pub fn place(&self) -> usize
        ensures answer { result ≡ place_of self.now }
    {
        match self {
            BookFault::Event(f) => f.place(),
            BookFault::StoreFull { event }
            | BookFault::Behind { event }
            | BookFault::Beyond { event }
            | BookFault::IndexFull { event } => *event,
            BookFault::Short { needed } => *needed,
        }
    }
}
