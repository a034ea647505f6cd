// Masked keys: which bits of a key a mask names, and which keys a mask and a value cover.
#![tactic(auto)]

pub mod masked_key;
pub mod rows;
#[cfg(test)]
mod tests;

pub use masked_key::{MaskedKey, OutsideMask};
pub use rows::{
    agree, covers, empty_mask, first_outside, masked, one_byte, overlaps, union, union_into, within,
};
