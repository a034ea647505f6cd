// The walk over four tables, what a level promises, and the tables as the lowest level.
#![tactic(auto)]

pub mod crossed;
pub mod fault;
pub mod four;
pub mod laws;
pub mod level;
pub mod tables;
pub mod walk;

pub use crossed::Crossed;
pub use fault::TablesFault;
pub use four::Four;
pub use laws::walk_laws;
pub use level::{Decision, Level, Mark, Peek, RuleName, RuleRecord};
pub use tables::Tables;
pub use walk::Walk;
