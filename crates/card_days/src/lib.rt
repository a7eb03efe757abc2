//! The string of days of a driver card, the file Driver_Activity_Data (Annex IB, Appendix 1, CardDriverActivity).
#![tactic(auto)]

mod bytes;
mod circle;
mod days;
mod fault;
mod head;
mod load;
mod rear;
mod tail;
mod walk;

pub use days::Days;
pub use fault::DaysFault;
pub use head::{DayHead, Tail};
