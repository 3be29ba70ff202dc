//! Small files word by word, and what reading them answers. The words are numbers, as the format has them, so that no
//! table of the reader is in the test.
#![tactic(auto)]

use event_file::{FileView, Reason};
use events::AuthorFirst;
use std::alloc::{AllocError, Global};

// The bytes of some words, the high byte first.
pub fn bytes_of(heap: Global, words: &[u32]) -> Result<Vec<u8>, AllocError> {
    let mut bytes = Vec::new(heap);
    for w in words {
        bytes.extend_from_slice(&w.to_be_bytes())?;
    }
    Ok(bytes)
}

// What reading some bytes as a file of type 0 answers: how many events, or why it is refused.
pub fn answer(heap: Global, bytes: Vec<u8>) -> Result<usize, Reason> {
    FileView::read(heap, bytes, &AuthorFirst)
        .map(|view| view.count())
        .map_err(|unread| unread.reason)
}

#[cfg(test)]
mod tests {
    use super::*;
    use event_file::write;
    use events::{BookFault, Character, Name, Position};
    use std::test::Fail;

    // How many events, or number and place of the refusal.
    type Told = Result<usize, (u8, usize)>;

    fn told(heap: Global, bytes: Vec<u8>) -> Told {
        answer(heap, bytes).map_err(|reason| match reason {
            Reason::Fault(fault) => {
                let refusal = BookFault::from(fault);
                (refusal.number(), refusal.place())
            }
            Reason::NoMemory => (0, 0),
        })
    }

    // A file of a head, the words of one event after another, and an end.
    fn file(heap: Global, head: u32, parts: &[[u32; 8]], end: u32) -> Result<Told, AllocError> {
        let mut bytes = bytes_of(heap, &[head])?;
        for part in parts {
            let event = bytes_of(heap, part)?;
            bytes.extend_from_slice(&event)?;
        }
        let end = bytes_of(heap, &[end])?;
        bytes.extend_from_slice(&end)?;
        Ok(told(heap, bytes))
    }

    // One event of four leading words and four parent words, under a head of count 1.
    fn one(heap: Global, part: [u32; 8]) -> Result<Told, AllocError> {
        file(heap, 0x1000_0001, &[part], 0xf000_000a)
    }

    // Two events: 1.0 inserts H at 0, and a second one.
    fn two(heap: Global, part: [u32; 8]) -> Result<Told, AllocError> {
        let first = [
            0x2000_0000,
            0x4000_0048,
            0x5000_0001,
            0x6000_0000,
            0,
            0,
            0,
            0,
        ];
        file(heap, 0x1000_0002, &[first, part], 0xf000_0012)
    }

    // The events of a file are gathered in a list, and that list is written as the same file.
    #[test]
    fn events_are_gathered_and_written(rt: HostRuntime) -> Result<(), Fail> {
        let words = [
            0x1000_0002,
            0x2000_0000,
            0x4000_0048,
            0x5000_0001,
            0x6000_0000,
            0,
            0,
            0,
            0,
            0x3000_0000,
            0,
            0x5000_0002,
            0x6000_0007,
            0x7000_0000,
            0,
            0,
            0,
            0xf000_0012,
        ];
        let bytes = bytes_of(rt.alloc(), &words)?;
        let view = FileView::read(rt.alloc(), bytes, &AuthorFirst).ok();
        assert!(rt; view.is_some());
        if let Some(view) = view {
            let events = view.events(rt.alloc())?;
            assert_eq!(rt; events.len(), 2);
            let mut out = [9; 72];
            assert_eq!(rt; write(&events, &AuthorFirst, &mut out), Ok(72));
            assert!(rt; out.as_slice() == view.bytes());
        }
        Ok(())
    }

    #[test]
    fn limits_of_names_characters_and_positions(rt: HostRuntime) {
        assert!(rt; Character::new(0xd7ff).is_ok());
        assert!(rt; Character::new(0xd800).is_err());
        assert!(rt; Character::new(0xdfff).is_err());
        assert!(rt; Character::new(0xe000).is_ok());
        assert!(rt; Character::new(0x10_ffff).is_ok());
        assert!(rt; Character::new(0x11_0000).is_err());
        assert!(rt; Name::new(65_535, 268_435_455).is_ok());
        assert!(rt; Name::new(65_536, 0).is_err());
        assert!(rt; Name::new(0, 268_435_456).is_err());
        assert!(rt; Position::new(268_435_455).is_ok());
        assert!(rt; Position::new(268_435_456).is_err());
    }

    #[test]
    fn numbers_of_what_cannot_be_made(rt: HostRuntime) -> Result<(), Fail> {
        let number = |fault| BookFault::from(fault).number();
        assert_eq!(rt; Name::new(65_536, 0).map_err(number), Err(5));
        assert_eq!(rt; Character::new(0xd800).map_err(number), Err(6));
        assert_eq!(rt;
            Position::new(268_435_456).map_err(|fault| fault.number()),
            Err(13)
        );
        Ok(())
    }

    #[test]
    fn lengths_and_heads(rt: HostRuntime) -> Result<(), Fail> {
        let heap = rt.alloc();
        assert_eq!(rt;
            told(heap, bytes_of(heap, &[0x1000_0000, 0xf000_0002])?),
            Ok(0)
        );
        assert_eq!(rt; told(heap, bytes_of(heap, &[])?), Err((1, 0)));
        assert_eq!(rt; told(heap, bytes_of(heap, &[0x1000_0000])?), Err((1, 1)));
        let mut odd = bytes_of(heap, &[0x1000_0000, 0xf000_0002])?;
        odd.push(0)?;
        assert_eq!(rt; told(heap, odd), Err((1, 2)));
        assert_eq!(rt;
            told(heap, bytes_of(heap, &[0x2000_0000, 0xf000_0002])?),
            Err((2, 0))
        );
        assert_eq!(rt;
            told(heap, bytes_of(heap, &[0x1100_0000, 0xf000_0002])?),
            Err((2, 0))
        );
        assert_eq!(rt;
            told(heap, bytes_of(heap, &[0x1001_0000, 0xf000_0002])?),
            Err((1, 2))
        );
        assert_eq!(rt;
            told(heap, bytes_of(heap, &[0x1001_0001, 0xf000_0002])?),
            Err((2, 0))
        );
        assert_eq!(rt;
            told(heap, bytes_of(heap, &[0x1000_0000, 0xf000_0003])?),
            Err((4, 1))
        );
        Ok(())
    }

    #[test]
    fn each_kind_in_its_place(rt: HostRuntime) -> Result<(), Fail> {
        let heap = rt.alloc();
        assert_eq!(rt;
            one(
                heap,
                [
                    0x2000_0000,
                    0x4000_0048,
                    0x5000_0001,
                    0x6000_0000,
                    0,
                    0,
                    0,
                    0,
                ],
            )?,
            Ok(1)
        );
        assert_eq!(rt;
            one(
                heap,
                [
                    0x8000_0000,
                    0x4000_0048,
                    0x5000_0001,
                    0x6000_0000,
                    0,
                    0,
                    0,
                    0,
                ],
            )?,
            Err((3, 1))
        );
        assert_eq!(rt;
            one(
                heap,
                [
                    0x3000_0000,
                    0x4000_0048,
                    0x5000_0001,
                    0x6000_0000,
                    0,
                    0,
                    0,
                    0,
                ],
            )?,
            Err((3, 2))
        );
        assert_eq!(rt;
            one(
                heap,
                [
                    0x2000_0000,
                    0x4000_0048,
                    0x6000_0001,
                    0x6000_0000,
                    0,
                    0,
                    0,
                    0,
                ],
            )?,
            Err((3, 3))
        );
        assert_eq!(rt;
            one(
                heap,
                [
                    0x2000_0000,
                    0x4000_0048,
                    0x5000_0001,
                    0x5000_0000,
                    0,
                    0,
                    0,
                    0,
                ],
            )?,
            Err((3, 4))
        );
        assert_eq!(rt;
            one(
                heap,
                [
                    0x2000_0000,
                    0x4000_0048,
                    0x5000_0001,
                    0x6000_0000,
                    0,
                    0x7000_0000,
                    0,
                    0,
                ],
            )?,
            Err((3, 6))
        );
        assert_eq!(rt;
            one(
                heap,
                [
                    0x2000_0000,
                    0x4000_0048,
                    0x5000_0001,
                    0x6000_0000,
                    0,
                    0,
                    0,
                    1,
                ],
            )?,
            Err((3, 8))
        );
        Ok(())
    }

    #[test]
    fn faults_of_events(rt: HostRuntime) -> Result<(), Fail> {
        let heap = rt.alloc();
        assert_eq!(rt;
            one(
                heap,
                [
                    0x2000_0000,
                    0x4000_0048,
                    0x5001_0000,
                    0x6000_0000,
                    0,
                    0,
                    0,
                    0,
                ],
            )?,
            Err((5, 0))
        );
        assert_eq!(rt;
            one(
                heap,
                [
                    0x2000_0000,
                    0x4000_d800,
                    0x5000_0001,
                    0x6000_0000,
                    0,
                    0,
                    0,
                    0,
                ],
            )?,
            Err((6, 0))
        );
        assert_eq!(rt;
            one(
                heap,
                [
                    0x2000_0000,
                    0x4000_d7ff,
                    0x5000_0001,
                    0x6000_0000,
                    0,
                    0,
                    0,
                    0,
                ],
            )?,
            Ok(1)
        );
        assert_eq!(rt;
            two(
                heap,
                [
                    0x2000_0000,
                    0x4000_0048,
                    0x5000_0001,
                    0x6000_0000,
                    0,
                    0,
                    0,
                    0,
                ],
            )?,
            Err((7, 1))
        );
        assert_eq!(rt;
            two(
                heap,
                [
                    0x2000_0000,
                    0x4000_0049,
                    0x5000_0001,
                    0x6000_0000,
                    0,
                    0,
                    0,
                    0,
                ],
            )?,
            Err((8, 1))
        );
        assert_eq!(rt;
            two(
                heap,
                [
                    0x2000_0000,
                    0x4000_0048,
                    0x5000_0001,
                    0x6000_0000,
                    0x7000_0000,
                    0,
                    0,
                    0,
                ],
            )?,
            Err((8, 1))
        );
        assert_eq!(rt;
            two(
                heap,
                [
                    0x2000_0001,
                    0x4000_0049,
                    0x5000_0001,
                    0x6000_0001,
                    0x7000_0001,
                    0,
                    0,
                    0,
                ],
            )?,
            Err((9, 1))
        );
        assert_eq!(rt;
            two(
                heap,
                [
                    0x2000_0001,
                    0x4000_0049,
                    0x5000_0001,
                    0x6000_0001,
                    0x7000_0000,
                    0x7000_0000,
                    0,
                    0,
                ],
            )?,
            Err((10, 1))
        );
        assert_eq!(rt;
            two(
                heap,
                [
                    0x2000_0001,
                    0x4000_0049,
                    0x5000_0001,
                    0x6000_0001,
                    0x7000_0000,
                    0,
                    0,
                    0,
                ],
            )?,
            Ok(2)
        );
        Ok(())
    }
}
