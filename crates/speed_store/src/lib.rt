//! The detailed speed of a unit (Annex IB, section III.12; the blocks and their ring: profile): the speeds of a minute
//! as its seconds come, and the ring of the blocks of the last minutes that moved.
#![tactic(auto)]

mod fault;
mod finding;
mod laws;
mod minute;
mod ring;
mod store;

pub use fault::SpeedFault;
pub use laws::what_the_ring_holds_of_a_run;
pub use minute::SpeedMinute;
pub use ring::{add_block, add_block_behind};
pub use speed_model::Block;
pub use store::SpeedStore;
