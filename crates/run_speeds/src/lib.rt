//! What the ring of detailed speed carries of a run (profile), as definitions and laws: over the calls that add a
//! block, whether they fail or not, and over all other calls.
#![tactic(auto)]

mod laws;

pub use laws::{
    a_block_is_carried, a_run_begins_with_no_block, calls_beside_the_ring_leave_it,
    other_calls_carry_the_blocks_on, writes_beside_the_ring_leave_it,
};
