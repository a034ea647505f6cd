// First in, first out: the slot whose latest put is oldest leaves.
ghost use Rattle.std.specs.Prelude.{◌≡◌, ◌≤◌, true, vec_capacity};
ghost use Rattle.eviction.specs.Orders.{orderly};

mod methods;
mod places;

#[derive(Drop)]
pub struct Fifo {
    // the filled slots in the order of their latest puts
    order: Vec<u8>,
    ghost room: { 128 ≤ vec_capacity order },
    ghost ok: { orderly order.items ≡ true },
}
