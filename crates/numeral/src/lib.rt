// Numbers and bytes as the words of a script write them.
#![tactic(auto)]

pub mod hex;
pub mod number;
