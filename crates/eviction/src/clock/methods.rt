// What a CLOCK policy does.
ghost use Rattle.std.specs.Prelude.{◌≡◌, ℕ, true, false, IfOk, MatchOption};
ghost use Rattle.eviction.specs.Sets.{with_slot, without_slot};
ghost use Rattle.eviction.specs.Bitmaps.{in_set};
ghost use Rattle.eviction.specs.Clocks.{new_clock, clock_put, clock_gone, clock_touch, clock_pick};
ghost use Rattle.eviction.specs.Faces.{face};
ghost use Rattle.eviction.specs.BitmapLaws.{in_set_below};

use super::{Clock, run};
use crate::policy::Policy;
use crate::slot_set::SlotSet;
use std::alloc::{AllocError, Global};

impl Policy for Clock {
    type Kind = ();

    ghost filled = { λ s. in_set s.filled.bits };

    ghost below = { λ s i h. in_set_below 128 s.filled.bits i s.filled.wide h };

    fn new(_heap: Global, _kind: ()) -> Result<Clock, AllocError>
        ensures empty { IfOk result (λ s. (i : ℕ) → in_set s.filled.bits i ≡ false) }
        ensures clock { IfOk result (λ s. face s ≡ new_clock) }
    {
        Ok(Clock {
            hand: 0,
            filled: SlotSet::empty(),
            marks: SlotSet::empty(),
        })
    }

    fn put(&mut self, slot: u8)
        ensures set { (i : ℕ) → in_set self.new.filled.bits i ≡ with_slot (in_set self.old.filled.bits) slot i }
        ensures clock { face self.new ≡ clock_put (face self.old) slot }
    {
        self.filled = self.filled.with(slot);
        self.marks = self.marks.with(slot);
    }

    fn gone(&mut self, slot: u8)
        ensures set { (i : ℕ) → in_set self.new.filled.bits i ≡ without_slot (in_set self.old.filled.bits) slot i }
        ensures clock { face self.new ≡ clock_gone (face self.old) slot }
    {
        self.filled = self.filled.without(slot);
        self.marks = self.marks.without(slot);
    }

    // A filled slot is marked.
    fn touch(&mut self, slot: u8)
        ensures set { (i : ℕ) → in_set self.new.filled.bits i ≡ in_set self.old.filled.bits i }
        ensures clock { face self.new ≡ clock_touch (face self.old) slot }
    {
        if self.filled.has(slot) {
            self.marks = self.marks.with(slot);
        }
    }

    // The hand goes to the end of the round, round once more, and then no slot has a mark.
    fn pick(&mut self) -> Option<u8>
        ensures set { (i : ℕ) → in_set self.new.filled.bits i ≡ in_set self.old.filled.bits i }
        ensures named { MatchOption result ((i : ℕ) → in_set self.old.filled.bits i ≡ false) (λ s. in_set self.old.filled.bits s ≡ true) }
        ensures picked { result ≡ (clock_pick (face self.old)).picked }
        ensures clock { face self.new ≡ (clock_pick (face self.old)).clock }
    {
        if self.filled.is_empty() {
            return None;
        }
        if let Some(slot) = run::to_end(self) {
            return Some(slot);
        }
        if let Some(slot) = run::to_end(self) {
            return Some(slot);
        }
        run::to_end(self)
    }
}
