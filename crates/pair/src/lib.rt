// The two switches of a script, which get every call, and the answers that they give.
#![tactic(auto)]

pub mod book;
pub mod session;
pub mod switches;
