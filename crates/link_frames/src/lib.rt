//! Frames of the link between a unit and what downloads it (Annex IB, Appendix 7): written with their sums, and heard
//! from a stream of bytes that comes in any pieces. Nothing here takes memory from the heap.
//!
//! The table of answers of a unit on the link (Annex IB, Appendix 7), as plain work on values: what a session does
//! about a frame, and what it sends of a message of which a part was read. No unit is asked here, and nothing takes
//! memory from the heap.
#![tactic(auto)]

// frames
mod frame;
mod hearing;
mod scanner;
mod writing;

// the table of answers
mod laws;
mod sending;
mod standing;
mod step;
mod table;

pub use frame::{Frame, Seen};
pub use laws::{
    a_fresh_line_answers_by_the_table, a_line_goes_on, a_part_is_of_some_message, a_run_goes_on,
};
pub use link_model::End;
pub use scanner::Scanner;
pub use sending::{MOST, Reply, begun, place_of, sent_on};
pub use standing::Standing;
pub use step::Step;
pub use table::step_of;
pub use writing::write_frame;
