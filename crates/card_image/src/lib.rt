//! What a driver card's flat image says as a whole, as definitions (Annex IB, Appendix 1 and Appendix 2, section 4; the
//! end mark, the open session and the judging: profile): its string of days and its rings by the card's sizes, its
//! entries up to the end mark, the newest minute, and the checks of an insertion in their order, each with its place.
//! Laws say what writes leave of it.
#![tactic(auto)]

mod laws;

pub use laws::{
    a_session_is_alone, a_write_beside_is_not_seen, newest_is_behind_the_entries,
    the_last_entry_is_the_mark, vehicles_move_the_mark,
};
