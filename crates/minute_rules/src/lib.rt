//! The class of each minute, from one second with power after another (Annex IB, section III.4).
#![tactic(auto)]

mod counted;
mod minutes;
mod slots;
mod tally;

pub use minute_model::{Minute, Rule};
pub use minutes::{Alike, Decided, Minutes};
