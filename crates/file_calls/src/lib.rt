//! Single questions to a unit file and to a card file (profile): what the unit shows of a minute, its first day, its
//! registration; how many entries the card has, one of them, its vehicle entries. And laws: a match has one answer, and
//! the first message of a day counts.
#![tactic(auto)]

mod card;
mod laws;
mod unit;

pub use card::{CardEntries, vehicles};
pub use laws::{
    a_comparison_has_one_answer, a_match_has_one_answer, the_first_message_of_a_day_counts,
};
pub use unit::{UnitMinute, UnitMinutes, registration};
