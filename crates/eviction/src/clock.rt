// CLOCK: a hand goes round the slots, and the first filled slot without a mark leaves.
ghost use Rattle.std.specs.Prelude.{◌≡◌, ℕ, ◌<◌, true};
ghost use Rattle.eviction.specs.Bitmaps.{in_set};

use super::slot_set::SlotSet;

mod methods;
mod run;

#[derive(Drop)]
pub struct Clock {
    // the slot where the hand stands
    hand: u8,
    filled: SlotSet,
    // the slots that were put or hit since the hand passed them
    marks: SlotSet,
    ghost round: { hand < 128 },
    ghost marked: { (i : ℕ) → in_set marks.bits i ≡ true → in_set filled.bits i ≡ true },
}
