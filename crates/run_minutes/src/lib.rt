//! The keeping of decided minutes (profile): by the unit, and on the cards that were present in them. First each of
//! these cards is owed its entry, then the unit keeps the minute, and then each card that is still there keeps its
//! entry.
#![tactic(auto)]

mod bringing;
mod keeper;
mod keeping;
mod minutes;
mod tearing;

pub use keeper::{Keeper, Moment};
pub use minutes::{MinutesDecided, odometer_after};
