//! The view of a unit's minutes, or of a card's entries, as text (profile): one line for each change of what is shown,
//! and for each day that begins. A minute that shows what the one before it shows only moves the end of the last line.
#![tactic(auto)]

mod by_hand;
mod lines;
mod shown;
mod text;
mod views;

pub use by_hand::by_hand_text;
pub use lines::add_minute;
pub use shown::{Shown, crew_name};
pub use text::{lines_text, write_clock};
pub use views::{card_text, unit_text};
