//! What a run tells of itself: lists of lines, and for how many a run of a trace wants room (profile).
#![tactic(auto)]

mod lines;
mod outcome;

pub use lines::Lines;
pub use log_model::{Break, Find, Mark, Refused, SlotFault, Verdict};
pub use outcome::{MOST_OWED, Outcome};
