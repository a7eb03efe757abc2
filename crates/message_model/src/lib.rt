//! What a unit hands out on a download, as definitions (Annex IB, Appendix 7): the messages by their fields and as
//! bytes, those of a unit's image, the unit file, and the minutes that a unit file shows.
#![tactic(auto)]

mod laws;
pub mod sizes;

pub use laws::{
    a_file_answers_the_requests, a_file_shows_the_minutes, a_message_is_read_in_one_way,
    pieces_are_the_message,
};
