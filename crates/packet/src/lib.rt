// From a frame to its key: Ethernet II, one 802.1Q tag, IPv4, TCP and UDP.
#![tactic(auto)]

pub mod fault;
mod ipv4;
pub mod laws;
mod places;
pub mod reader;
mod transport;

pub use fault::FrameFault;
pub use laws::reading_laws;
pub use reader::{Key, Part, Reader, Reading, read, read_key};
