//! Detailed speed, as definitions (Annex IB, section III.12; the blocks and their ring: profile): the blocks of the
//! minutes of a power span, and those of a unit's image.
#![tactic(auto)]

mod block;

pub use block::{BLOCK_SIZE, BLOCK_SLOTS, Block};
