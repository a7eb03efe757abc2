//! A link that loses, repeats and delays, as definitions: packets with numbers, the two ends that send and take them,
//! and what any list of events leads to.
#![tactic(auto)]

mod event;
mod packet;

pub use event::Event;
pub use packet::{PACKET_HEADER, PACKET_MOST, PACKET_START, Packet};
