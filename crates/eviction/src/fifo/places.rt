// Places in the order of the slots.
ghost use Rattle.std.specs.Prelude.{◌≡◌, ◌==◌, true, position, vec_capacity};
ghost use Rattle.eviction.specs.Orders.{orderly};
ghost use Rattle.eviction.specs.Places.{Left, FirstOf};

// The place of the slot.
fn place_of(order: &[u8], slot: u8) -> Option<usize>
    ensures { result ≡ position (λ s. s == slot) order.now }
{
    order.iter().position(|other| *other == slot)
}

// The slot leaves the order.
pub fn leave(order: &mut Vec<u8>, slot: u8)
    requires { orderly order.old.items ≡ true }
    ensures order { Left order.old.items order.new.items slot }
    ensures capacity { vec_capacity order.new ≡ vec_capacity order.old }
{
    if let Some(place) = place_of(order, slot) {
        let _ = order.remove(place);
    }
}

// The first of the order.
pub fn first_of(order: &[u8]) -> Option<u8>
    ensures { FirstOf order.now result }
{
    order.first().copied()
}
