// Which filled slot of a cache leaves when room is wanted.
#![tactic(auto)]

pub mod any_policy;
pub mod clock;
pub mod fifo;
pub mod policy;
mod slot_set;
#[cfg(test)]
mod tests;

pub use any_policy::{AnyPolicy, PolicyKind};
pub use clock::Clock;
pub use fifo::Fifo;
pub use policy::Policy;
