//! The judging of a driver card as an insertion finds it (profile): its string of days, its rings and its words, in
//! their order, each with the place at which it first fails; and what an accepted card tells.
#![tactic(auto)]

mod behind;
mod fault;
mod files;
mod looking;
mod memory;
mod round;
mod walk;
mod words;

pub use behind::date_of;
pub use fault::{BadFile, InsertFault};
pub use files::{Judged, judge_image};
pub use looking::{CardLook, judge, look};
