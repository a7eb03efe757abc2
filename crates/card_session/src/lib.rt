//! Sessions of driver cards (profile): an insertion opens one and repairs what the one before left, a keep brings a
//! card a minute, and a withdrawal closes its session. A session is a value that knows no card; each call is lent one.
#![tactic(auto)]

mod by_hand;
mod insert;
mod laws;
mod session;
mod vehicle_use;
mod words;

pub use insert::Inserted;
pub use laws::{
    a_card_may_be_ended, a_keep_leaves_the_entries, a_keep_leaves_the_newest_minute,
    a_keep_leaves_the_session, a_keep_leaves_the_stored_time, a_keep_shows_its_entry,
    a_keep_shows_the_entries_of_before, a_stop_in_an_insertion_leaves_a_valid_card,
    a_stop_in_an_insertion_leaves_the_entries, a_stop_leaves_a_valid_card,
    a_stop_leaves_an_end_mark, a_withdrawal_ends_the_session, a_withdrawal_leaves_a_valid_card,
    a_withdrawal_leaves_the_entries, a_withdrawal_leaves_the_newest_minute,
    a_withdrawal_shows_the_entries, an_end_is_a_moment, an_insertion_leaves_no_entry_open,
    an_insertion_leaves_no_word_behind, an_insertion_leaves_the_entries,
    an_insertion_leaves_the_newest_minute, an_insertion_leaves_the_number,
    an_insertion_leaves_the_stored_time, an_insertion_opens_a_session,
    an_insertion_shows_the_entries, vehicles_are_the_list_of_their_ring,
};
pub use session::{CardSession, Kept};
pub use words::LATEST_MINUTE;
