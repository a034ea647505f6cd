// The text language of the program: statements, one to a line.
#![tactic(auto)]

pub mod piles;
pub mod statement;
