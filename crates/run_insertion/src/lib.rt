//! A card that was put into a slot, or meets power there, is accepted or turned away (profile): it is revived, tells
//! its sizes, is judged, and gets the entries that it is owed, its session, and its row in the unit.
#![tactic(auto)]

mod entering;
mod laws;
mod lines;
mod noting;
mod seating;
mod waking;

pub use entering::accept;
pub use laws::{notes_on_a_card_go_on, the_events_of_a_card};
pub use lines::{Beside, Entering};
