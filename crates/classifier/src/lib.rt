// Which of the rules of one table decides a key.
#![tactic(auto)]

pub mod classifier;
pub mod element;
pub mod fault;
pub mod finding;
pub mod linear;
pub mod rule;
mod rules;
pub mod store;
#[cfg(test)]
mod tests;

pub use classifier::Classifier;
pub use element::Found;
pub use fault::ClassifierFault;
pub use finding::classifier_laws;
pub use linear::Linear;
pub use rule::{Find, Match, NewRule, Rule};
pub use store::Store;
