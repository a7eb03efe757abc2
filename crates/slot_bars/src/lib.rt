//! The minutes of a view by days, and those of one slot as bars: the longest runs of minutes of which the same is seen
//! (profile).
#![tactic(auto)]

mod bars;
mod days;
mod gaps;
mod seen;

pub use bars::{card_bars, unit_bars};
pub use days::{day_number, first_day};
pub use gaps::Gaps;
pub use seen::Seen;
