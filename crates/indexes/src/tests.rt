use crate::*;
use std::test::Fail;

fn entry(character: u16, prepared: u32, effect: Effect) -> Entry {
    Entry {
        character,
        prepared,
        effect,
        attachment: Attachment::LeftOf(9),
    }
}

// One after another: puts and refusals, states, counts, a trim, and an emptied index.
#[test]
fn flat_index(rt: HostRuntime) -> Result<(), Fail> {
    let mut index = FlatIndex::new(Vec::with_capacity(rt.alloc(), 3)?);
    assert!(rt; index.put(0, entry(7, 1, Effect::Present)));
    assert!(rt; index.put(0, entry(5, 0, Effect::Gone)));
    assert!(rt; !index.put(1, entry(7, 1, Effect::Present)));
    assert!(rt; !index.put(3, entry(6, 1, Effect::Present)));
    assert_eq!(rt; append(&mut index, entry(6, 1, Effect::Present)), Some(2));
    assert_eq!(rt; index.nth_prepared(1), Some(2));
    assert_eq!(rt; index.place_of(7), Some(1));
    assert_eq!(rt; index.present_before(2), Some(1));
    assert_eq!(rt; index.present_before(4), None);
    index.trim();
    assert_eq!(rt; index.len(), 2);
    assert_eq!(rt; index.prepared_count(), 2);
    index.clear();
    assert_eq!(rt; index.place_of(7), None);
    Ok(())
}
