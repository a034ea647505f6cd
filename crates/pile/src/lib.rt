// The parts of a datapath that are chosen at run time.
#![tactic(auto)]

pub mod any_classifier;
#[cfg(test)]
mod tests;

pub use any_classifier::{AnyClassifier, ClassifierKind};
