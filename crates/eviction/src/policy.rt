// The interface of an eviction policy: it keeps the set of the filled slots, out of slots 0 to 127.
ghost use Rattle.std.specs.Prelude.{◌≡◌, ℕ, ◌<◌, Bool, true, false, IfOk, MatchOption};
ghost use Rattle.eviction.specs.Sets.{with_slot, without_slot};

use std::alloc::{AllocError, Global};

pub trait Policy: Sized {
    // what has to be chosen to make one
    type Kind: Copy;

    // whether a slot is filled
    ghost filled: { Self → ℕ → Bool };

    // A new one has no filled slot. All its memory is taken here.
    fn new(heap: Global, kind: Self::Kind) -> Result<Self, AllocError>
        ensures empty { IfOk result (λ s. (i : ℕ) → filled s i ≡ false) };

    // The slot is filled, also where it was filled before. A slot above 127 changes nothing.
    fn put(&mut self, slot: u8)
        ensures set { (i : ℕ) → filled self.new i ≡ with_slot (filled self.old) slot i };

    // The slot is not filled any more.
    fn gone(&mut self, slot: u8)
        ensures set { (i : ℕ) → filled self.new i ≡ without_slot (filled self.old) slot i };

    // The slot was hit.
    fn touch(&mut self, slot: u8)
        ensures set { (i : ℕ) → filled self.new i ≡ filled self.old i };

    // The filled slot that is to leave next; none where no slot is filled.
    fn pick(&mut self) -> Option<u8>
        ensures set { (i : ℕ) → filled self.new i ≡ filled self.old i }
        ensures named { MatchOption result ((i : ℕ) → filled self.old i ≡ false) (λ s. filled self.old s ≡ true) };

    ghost below: { (s : Self) (i : ℕ) → filled s i ≡ true → i < 128 };
}
