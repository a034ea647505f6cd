// The lines that the program prints.
#![tactic(auto)]

pub mod answer;
mod display;
pub mod key;
pub mod page;
pub mod place;
mod put;
