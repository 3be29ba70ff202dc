//! Questions about versions, answered by their difference.
ghost use Rattle.std.specs.Prelude.{◌≤◌, [], length};
ghost use Rattle.versions.specs.Difference.{Refused};
ghost use Rattle.versions.specs.Questions.{AllBelow, Answered, OneBehind};

use crate::differ::{admit, differing};
use events::BookFault;
use stores::EventStore;

// Whether one of the events is behind a later one of the list, or the same. The output is used, not answered.
pub fn one_behind_another<S: EventStore>(
    store: &S,
    parents: &[u16],
    work: &mut [u32],
    out: &mut [u32],
) -> Result<bool, BookFault>
    ensures answer { Answered (Refused (length (S.EventStore.events store.now)) (S.EventStore.room store.now) parents.now [] (length work.old) (length out.old)) (OneBehind (S.EventStore.events store.now) parents.now) result }
{
    admit(store, parents, &[], work.len(), out.len())?;
    let mut rest = parents;
    while let [parent, later @ ..] = rest {
        let (alone, _) = differing(store, &[*parent], later, work, out);
        if alone == 0 {
            return Ok(true);
        }
        rest = later;
    }
    Ok(false)
}

// Whether a version has every event below n. The output is used, not answered.
pub fn contains_all_below<S: EventStore>(
    store: &S,
    heads: &[u16],
    n: usize,
    work: &mut [u32],
    out: &mut [u32],
) -> Result<bool, BookFault>
    ensures answer { Answered (Refused (length (S.EventStore.events store.now)) (S.EventStore.room store.now) heads.now [] (length work.old) (length out.old)) (AllBelow (S.EventStore.events store.now) heads.now n) result }
{
    admit(store, heads, &[], work.len(), out.len())?;
    let (held, _) = differing(store, heads, &[], work, out);
    if n == 0 {
        return Ok(true);
    }
    if n > held {
        return Ok(false);
    }
    Ok(out[held - n] as usize == n - 1)
}
