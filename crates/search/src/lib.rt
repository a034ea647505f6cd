// The search inside a tuple: of elements with one mask, the one of highest rank that covers a key, by a hash index.
#![tactic(auto)]

pub mod element;
pub mod hash;
pub mod index;
#[cfg(test)]
mod tests;
pub mod tuple;

pub use element::Element;
pub use hash::{ByteSum, KeyHash};
pub use index::Index;
pub use tuple::Tuple;
