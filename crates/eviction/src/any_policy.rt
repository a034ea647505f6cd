// A policy that is chosen at run time.
ghost use Rattle.std.specs.Prelude.{◌≡◌, ℕ, true, false, IfOk, MatchOption};
ghost use Rattle.eviction.specs.Sets.{with_slot, without_slot};
ghost use Rattle.eviction.specs.Kinds.{any_filled, state, new_state, put_state, gone_state, touch_state, picked_slot, picked_state};
ghost use Rattle.eviction.specs.declared.any_policy.AnyPolicy.TheVariants.{Fifo, Clock};
ghost use Rattle.eviction.specs.OrderLaws.{listed_below};
ghost use Rattle.eviction.specs.BitmapLaws.{in_set_below};

use super::clock::Clock;
use super::fifo::Fifo;
use super::policy::Policy;
use std::alloc::{AllocError, Global};

#[derive(Clone, Copy)]
pub enum PolicyKind {
    Fifo,
    Clock,
}

#[derive(Drop)]
pub enum AnyPolicy {
    Fifo(Fifo),
    Clock(Clock),
}

impl Policy for AnyPolicy {
    type Kind = PolicyKind;

    ghost filled = { any_filled };

    ghost below = { elim [
      | Fifo s ↦ λ i h. listed_below s.order.items i s.ok h
      | Clock s ↦ λ i h. in_set_below 128 s.filled.bits i s.filled.wide h
    ] };

    fn new(heap: Global, kind: PolicyKind) -> Result<AnyPolicy, AllocError>
        ensures empty { IfOk result (λ s. (i : ℕ) → any_filled s i ≡ false) }
        ensures state { IfOk result (λ s. state s ≡ new_state kind) }
    {
        match kind {
            PolicyKind::Fifo => Ok(AnyPolicy::Fifo(<Fifo as Policy>::new(heap, ())?)),
            PolicyKind::Clock => Ok(AnyPolicy::Clock(<Clock as Policy>::new(heap, ())?)),
        }
    }

    fn put(&mut self, slot: u8)
        ensures set { (i : ℕ) → any_filled self.new i ≡ with_slot (any_filled self.old) slot i }
        ensures state { state self.new ≡ put_state (state self.old) slot }
    {
        match self {
            AnyPolicy::Fifo(fifo) => fifo.put(slot),
            AnyPolicy::Clock(clock) => clock.put(slot),
        }
    }

    fn gone(&mut self, slot: u8)
        ensures set { (i : ℕ) → any_filled self.new i ≡ without_slot (any_filled self.old) slot i }
        ensures state { state self.new ≡ gone_state (state self.old) slot }
    {
        match self {
            AnyPolicy::Fifo(fifo) => fifo.gone(slot),
            AnyPolicy::Clock(clock) => clock.gone(slot),
        }
    }

    fn touch(&mut self, slot: u8)
        ensures set { (i : ℕ) → any_filled self.new i ≡ any_filled self.old i }
        ensures state { state self.new ≡ touch_state (state self.old) slot }
    {
        match self {
            AnyPolicy::Fifo(fifo) => fifo.touch(slot),
            AnyPolicy::Clock(clock) => clock.touch(slot),
        }
    }

    fn pick(&mut self) -> Option<u8>
        ensures set { (i : ℕ) → any_filled self.new i ≡ any_filled self.old i }
        ensures named { MatchOption result ((i : ℕ) → any_filled self.old i ≡ false) (λ s. any_filled self.old s ≡ true) }
        ensures picked { result ≡ picked_slot (state self.old) }
        ensures state { state self.new ≡ picked_state (state self.old) }
    {
        match self {
            AnyPolicy::Fifo(fifo) => fifo.pick(),
            AnyPolicy::Clock(clock) => clock.pick(),
        }
    }
}
