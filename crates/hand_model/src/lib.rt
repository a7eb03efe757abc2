//! Entries by hand: what a driver tells at an insertion of the time without the card (Annex IB, section III, manual
//! entries; Appendix 1, ActivityChangeInfo). The words that tell them on a card, and which of them a card shows.
#![tactic(auto)]

mod entry;
mod held;
mod laws;

pub use entry::{manual_word, told_by_hand};
pub use held::{EnterFault, Held, MOST, of_day};
pub use laws::{
    a_word_by_hand_is_no_entry, a_word_by_hand_tells_its_entry, days_tell_entries_by_hand_still,
};
