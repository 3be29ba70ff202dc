//! One step of a search: the latest event of the queue.
ghost use Rattle.std.specs.Prelude.{◌≡◌, ℕ, ◌<◌, length, Some};
ghost use Rattle.versions.specs.Marks.{told};
ghost use Rattle.versions.specs.Held.{QueueHeld, TakenBy, WrittenBy, mark_held};

use crate::marks::Mark;
use crate::search::Search;
use queue::heap::pop;
use queue::order::LatestFirst;

impl Search<'_> {
    // Takes the latest event from the queue, with its mark. Something is queued, since something is pending.
    pub(crate) fn take_latest(&mut self) -> (u32, Mark)
        requires queued { ((bound : ℕ) × QueueHeld self.old bound) × (0 < self.old.counters.pending) }
        ensures marked { told (mark_held self.old result.0) ≡ Some result.1 }
        ensures after { TakenBy result.0 self.old self.new }
    {
        let Some(event) = pop(self.work, self.counters.queued, &LatestFirst) else {
            unreachable!()
        };
        self.counters.queued -= 1;
        let Some(mark) = self.mark_of(event as usize) else {
            unreachable!()
        };
        self.counters.pending -= mark.alone();
        (event, mark)
    }

    // Writes an event down by its mark: one of the first version alone to the output, one of the second alone to the
    // back of the queue's area, backwards.
    pub(crate) fn write_down(&mut self, out: &mut [u32], event: u32, mark: Mark)
        requires { (self.old.counters.first < length out.old) × (self.old.counters.second < self.old.counters.room) }
        ensures after { WrittenBy event mark self.old out.old self.new out.new }
    {
        let s = self.counters;
        match mark {
            Mark::First => {
                out[s.first] = event;
                self.counters.first += 1;
            }
            Mark::Second => {
                self.work[s.room - 1 - s.second] = event;
                self.counters.second += 1;
            }
            Mark::Both => {}
        }
    }
}
