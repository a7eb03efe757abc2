//! A card's session, whole (profile): from whatever valid card on, what each image shows that a stop may leave in it.
//!
//! What comes out of a unit after any stops (profile): laws, that join what a run keeps with the file that a download
//! makes of it and with the view of that file.
#![tactic(auto)]

// a card's whole session
mod session_laws;

// a download behind cuts
mod download_laws;

pub use download_laws::{
    a_view_shows_the_unit, what_is_kept_is_handed_out, what_is_written_is_sent,
};
pub use session_laws::{a_session_is_whole, a_stopped_insertion_ends_with_the_same_entries};
