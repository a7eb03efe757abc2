//! Entries by hand on a driver card (profile): what each moment of one leaves of a card, and of a session's first keep
//! behind them. Nothing of the card's minutes changes, a stopped one is cut again by the next insertion, and its words
//! count in their day.
#![tactic(auto)]

mod first;
mod first_laws;
mod laws;
mod written_laws;

pub use first::keep_with_hands;
pub use first_laws::{
    a_first_keep_leaves_a_valid_card, a_first_keep_leaves_the_entries,
    a_first_keep_leaves_the_newest_minute, a_first_keep_leaves_the_session,
    a_first_keep_shows_its_entry, a_first_keep_shows_the_entries_of_before,
    a_first_keep_tells_its_entries_by_hand, a_whole_first_keep_may_be_repaired,
};
pub use laws::{
    a_count_with_entries_by_hand_goes_on, a_first_keep_may_be_repaired,
    a_keep_behind_them_leaves_the_newest_minute, an_entry_by_hand_counts_in_its_day,
    an_entry_by_hand_leaves_a_valid_card, an_entry_by_hand_leaves_the_card,
    an_entry_by_hand_leaves_the_newest_minute, an_entry_by_hand_shows_the_entries_of_before,
    each_entry_by_hand_is_a_word_of_its_day, entries_by_hand_are_told_in_order,
    more_words_keep_the_overwriting,
};
pub use written_laws::{
    a_first_keep_begins_the_day_of_the_mark, a_first_keep_tells_whose_day_is_there,
    a_keep_is_written_behind, what_is_written_counts_no_more,
};
