//! The history of a run (profile): its decided minutes with the cards that were present in them, up to the limits of
//! its cuts, and what a unit and a card are to hold of it, as definitions (specs/) with their laws.
#![tactic(auto)]

mod laws;

pub use laws::{
    a_book_follows, a_closed_history_stays, a_limit_counts_from_the_second_second,
    a_limit_may_be_told_later, a_second_adds_what_it_decides, minutes_rise,
    power_alone_adds_nothing, rules_see_the_span,
};
