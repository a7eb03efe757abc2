//! The minutes of the unit (Annex IB, section III; the memory: profile): each is kept behind a mark, the last-kept
//! minute, which is written last, so that a stop leaves the minutes before or those with the new one.
#![tactic(auto)]

mod bits;
mod coming;
mod journal;
mod kept;
mod mend;
mod notes;
mod plan;
mod today;
mod words;

pub use journal::{Journal, UnitDay};
pub use kept::KeptMinute;
pub use unit_memory::UnitFault;
pub use unit_model::State;
