// Cache levels: a level over any other level, which keeps what was decided below.
#![tactic(auto)]

pub mod slot;

pub use slot::{Answer, Entry, Slot};
