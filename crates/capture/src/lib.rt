// Packet captures: the classic pcap format.
#![tactic(auto)]

pub mod header;
pub mod reader;
