// What a FIFO policy does.
ghost use Rattle.std.specs.Prelude.{◌≡◌, ℕ, true, false, [], IfOk, MatchOption};
ghost use Rattle.eviction.specs.Sets.{with_slot, without_slot};
ghost use Rattle.eviction.specs.Orders.{listed, left_out, put_last, oldest};
ghost use Rattle.eviction.specs.OrderLaws.{listed_below};

use super::{Fifo, places};
use crate::policy::Policy;
use std::alloc::{AllocError, Global};

impl Policy for Fifo {
    type Kind = ();

    ghost filled = { λ s. listed s.order.items };

    ghost below = { λ s i h. listed_below s.order.items i s.ok h };

    fn new(heap: Global, _kind: ()) -> Result<Fifo, AllocError>
        ensures empty { IfOk result (λ s. (i : ℕ) → listed s.order.items i ≡ false) }
        ensures order { IfOk result (λ s. s.order.items ≡ []) }
    {
        let order = Vec::with_capacity(heap, 128)?;
        Ok(Fifo { order })
    }

    // The slot becomes the last of the order.
    fn put(&mut self, slot: u8)
        ensures set { (i : ℕ) → listed self.new.order.items i ≡ with_slot (listed self.old.order.items) slot i }
        ensures order { self.new.order.items ≡ put_last self.old.order.items slot }
    {
        if slot < 128 {
            let order = &mut self.order;
            places::leave(order, slot);
            order.push_reserved(slot);
        }
    }

    fn gone(&mut self, slot: u8)
        ensures set { (i : ℕ) → listed self.new.order.items i ≡ without_slot (listed self.old.order.items) slot i }
        ensures order { self.new.order.items ≡ left_out self.old.order.items slot }
    {
        places::leave(&mut self.order, slot);
    }

    // A hit changes nothing.
    fn touch(&mut self, _slot: u8)
        ensures set { (i : ℕ) → listed self.new.order.items i ≡ listed self.old.order.items i }
        ensures order { self.new.order.items ≡ self.old.order.items }
    {}

    // The first of the order.
    fn pick(&mut self) -> Option<u8>
        ensures set { (i : ℕ) → listed self.new.order.items i ≡ listed self.old.order.items i }
        ensures named { MatchOption result ((i : ℕ) → listed self.old.order.items i ≡ false) (λ s. listed self.old.order.items s ≡ true) }
        ensures order { self.new.order.items ≡ self.old.order.items }
        ensures picked { result ≡ oldest self.old.order.items }
    {
        places::first_of(&self.order)
    }
}
