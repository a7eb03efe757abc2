//! Rings of entries behind gates: a stop leaves the list before a call, or the one after it.
#![tactic(auto)]

mod fault;
mod ring;
mod room;

pub use fault::RingFault;
pub use ring::Ring;
pub use room::Room;
