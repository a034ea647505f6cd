// Rules as the words of a script write them.
#![tactic(auto)]

pub mod draft;
pub mod field;
mod parts;
pub mod ports;
pub mod rows;
mod value;
