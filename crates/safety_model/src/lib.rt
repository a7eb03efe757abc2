//! The crash-safety theorem of a run (profile), as records over what its devices' images show: whatever stops come,
//! every image that a stop may leave shows what the device held at the start followed by a part of the history from its
//! front, with every acknowledged minute.
#![tactic(auto)]

mod laws;

pub use laws::{a_card_in_time_is_accepted, a_later_card_is_turned_away};
