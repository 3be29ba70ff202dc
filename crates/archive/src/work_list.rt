//! Where events wait for others, in a lent work list. It has four parts of one cell for each event that there is room
//! for: the events in the order in which they are written, the archive number of each event, the first event that
//! waits at each event, and the event that waits behind each event.
ghost use Rattle.std.specs.Prelude.{◌≡◌, ℕ, ◌+◌, ◌*◌, ◌<◌, ◌≤◌, length, slice_index, slice_set};
ghost use Rattle.archive.specs.Parts.{number_of, first_of, behind_of};
ghost use Rattle.archive.specs.Calls.{Cleared, Held, OpenOne};

// What a lent cell of 32 bits has where it holds no event and no archive number.
const NONE: u32 = 4_294_967_295;

// The work list, how many events there is room for, and how many there are.
#[derive(Drop)]
pub(crate) struct WorkList<'a> {
    pub(crate) cells: &'a mut [u32],
    pub(crate) room: usize,
    pub(crate) count: usize,
    ghost sized: { 4 * room ≤ length cells.now },
    ghost inside: { count ≤ room },
    ghost small: { room ≤ 65536 },
}

impl<'a> WorkList<'a> {
    // Nothing is written and nothing waits.
    pub(crate) fn over(cells: &'a mut [u32], room: usize, count: usize) -> WorkList<'a>
        requires { (4 * room ≤ length cells.old) × ((count ≤ room) × (room ≤ 65536)) }
        ensures same { (result.cells.ghost_name ≡ cells.entry.ghost_name) × ((result.room ≡ room) × (result.count ≡ count)) }
        ensures after { Cleared result.cells.now room count }
    {
        cells[room..room + count].fill(NONE);
        cells[2 * room..2 * room + count].fill(NONE);
        WorkList { cells, room, count }
    }

    // What a cell holds, if it holds anything.
    fn held(&self, at: usize) -> Option<usize>
        requires { at < 4 * self.now.room }
        ensures answer { Held self.now.count (slice_index self.now.cells.now at) result }
    {
        let k = self.cells[at] as usize;
        (k < self.count).then_some(k)
    }

    // The archive number of event e, if it is written.
    pub(crate) fn number(&self, e: usize) -> Option<usize>
        requires { e < self.now.room }
        ensures answer { Held self.now.count (number_of self.now.room self.now.cells.now e) result }
    {
        self.held(self.room + e)
    }

    // The first of the listed events that is not written, if there is one.
    pub(crate) fn open_one(&self, listed: &[u16]) -> Option<usize>
        requires { (k : ℕ) → k < length listed.now → slice_index listed.now k < self.now.room }
        ensures answer { OpenOne self.now.count self.now.room self.now.cells.now listed.now result }
    {
        let open = listed.iter().find(|p| self.number(**p as usize).is_none())?;
        Some(*open as usize)
    }

    // The first event that waits at event p, if one does.
    pub(crate) fn first(&self, p: usize) -> Option<usize>
        requires { p < self.now.room }
        ensures answer { Held self.now.count (first_of self.now.room self.now.cells.now p) result }
    {
        self.held(2 * self.room + p)
    }

    // The event that waits behind event w, if one does.
    pub(crate) fn behind(&self, w: usize) -> Option<usize>
        requires { w < self.now.room }
        ensures answer { Held self.now.count (behind_of self.now.room self.now.cells.now w) result }
    {
        self.held(3 * self.room + w)
    }

    // Event e begins the line at event p.
    pub(crate) fn hang(&mut self, e: usize, p: usize)
        requires { (e < self.old.room) × (p < self.old.room) }
        ensures same { (self.new.cells.ghost_name ≡ self.old.cells.ghost_name) × ((self.new.room ≡ self.old.room) × (self.new.count ≡ self.old.count)) }
        ensures after { self.new.cells.now ≡ slice_set (slice_set self.old.cells.now (3 * self.old.room + e) (first_of self.old.room self.old.cells.now p)) (2 * self.old.room + p) e }
    {
        self.cells[3 * self.room + e] = self.cells[2 * self.room + p];
        self.cells[2 * self.room + p] = e as u32;
    }

    // Event e is written as number k.
    pub(crate) fn write(&mut self, e: usize, k: usize)
        requires { (e < self.old.room) × (k < self.old.room) }
        ensures same { (self.new.cells.ghost_name ≡ self.old.cells.ghost_name) × ((self.new.room ≡ self.old.room) × (self.new.count ≡ self.old.count)) }
        ensures after { self.new.cells.now ≡ slice_set (slice_set self.old.cells.now k e) (self.old.room + e) k }
    {
        self.cells[k] = e as u32;
        self.cells[self.room + e] = k as u32;
    }
}
