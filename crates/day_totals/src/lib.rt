//! The totals of each day of a view, a line a day and slot (profile).
#![tactic(auto)]

mod days;
mod figures;
mod laws;
mod line;

pub use days::{card_days_text, unit_days_text};
pub use figures::{Figure, minutes_in};
pub use laws::figures_add_up;
pub use line::write_duration;
