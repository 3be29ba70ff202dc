//! Names added to an index, found again and refused.
use crate::index::NameIndex;
use events::Name;
use std::test::Fail;

#[test]
fn finds_what_was_added(rt: HostRuntime) -> Result<(), Fail> {
    let first = Name {
        author: 7,
        number: 0,
    };
    let second = Name {
        author: 9,
        number: 0,
    };
    let third = Name {
        author: 7,
        number: 1,
    };
    let mut index = NameIndex::with_room(rt.alloc(), 3)?;
    assert!(rt; index.add(first));
    assert!(rt; index.add(second));
    assert!(rt; !index.add(first));
    assert_eq!(rt; index.find(third), None);
    assert!(rt; index.add(third));
    assert_eq!(rt; index.find(first), Some(0));
    assert_eq!(rt; index.find(second), Some(1));
    assert_eq!(rt; index.find(third), Some(2));
    assert_eq!(rt; index.len(), 3);
    Ok(())
}

#[test]
fn refuses_when_full(rt: HostRuntime) -> Result<(), Fail> {
    let name = Name {
        author: 1,
        number: 5,
    };
    let other = Name {
        author: 1,
        number: 6,
    };
    let mut index = NameIndex::with_room(rt.alloc(), 1)?;
    assert!(rt; index.add(name));
    assert!(rt; !index.add(other));
    index.clear();
    assert!(rt; index.add(other));
    assert_eq!(rt; index.find(name), None);
    Ok(())
}
