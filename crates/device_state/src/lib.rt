//! What a unit and a card tell of themselves, and the lines that are printed of that (profile). They are read, and
//! never written.
#![tactic(auto)]

mod card;
mod devices;
mod lines;
mod unit;
mod values;

pub use card::{CardFault, card_state};
pub use devices::{DevicesTold, devices_state};
pub use lines::state_text;
pub use unit::{CardSeen, CardsSeen, DaysTold, Question, UnitTold, unit_state};
