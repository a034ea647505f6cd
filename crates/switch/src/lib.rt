// The switch over any level.
#![tactic(auto)]

pub mod fault;
pub mod switch;
pub mod totals;

pub use fault::SwitchFault;
pub use switch::{Forwarded, Switch};
pub use totals::Totals;
