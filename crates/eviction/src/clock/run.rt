// The hand's way to the end of the round.
ghost use Rattle.std.specs.Prelude.{◌≡◌, MatchOption};
ghost use Rattle.eviction.specs.Faces.{face};
ghost use Rattle.eviction.specs.Runs.{Ended, Stopped};

use super::Clock;

// The first slot that can be picked before the round ends; the marks on the way are cleared.
pub fn to_end(clock: &mut Clock) -> Option<u8>
    ensures { MatchOption result (Ended (face clock.old) (face clock.new)) (λ s. Stopped (face clock.old) (face clock.new) s) }
{
    match clock.filled.first_apart(clock.marks, clock.hand) {
        Some(slot) => {
            clock.marks = clock.marks.without_between(clock.hand, slot);
            clock.hand = (slot + 1) % 128;
            Some(slot)
        }
        None => {
            clock.marks = clock.marks.below(clock.hand);
            clock.hand = 0;
            None
        }
    }
}
