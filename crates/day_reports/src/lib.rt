//! The totals and the picture of the days of a unit file and of a card file (profile).
#![tactic(auto)]

mod cards;
mod distances;
mod hands;
mod units;

pub use cards::{card_chart, card_totals};
pub use units::{unit_chart, unit_totals};
