// Tuple-space search: a classifier that groups its rules by mask and searches each group by a hash.
#![tactic(auto)]

mod indexed;
mod masks;
pub mod ranked_mask;
mod scan;
pub mod space;
#[cfg(test)]
mod tests;
mod visit;

pub use ranked_mask::RankedMask;
pub use space::TupleSpace;
