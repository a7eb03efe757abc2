//! Events and faults of a unit (Annex IB, section III.12; Appendix 1, EventFaultType): which are told of a run, and
//! which are kept. Small types, and definitions over whole lists (specs/).
#![tactic(auto)]

mod entries;
mod kinds;
mod laws;

pub use entries::{Held, Over, Span};
pub use kinds::{
    CARD_FAULT, CARD_NOT_VALID, DRIVING_WITHOUT_CARD, EVENT_PLACES, FAULT_PLACES,
    INSERTION_WHILE_DRIVING, OVER_SPEEDING, POWER_INTERRUPTION, Purpose, SESSION_NOT_CLOSED,
    TIME_OVERLAP,
};
pub use laws::{
    similar_events_of_a_day_are_counted, the_best_of_the_last_days_are_kept,
    the_best_of_the_last_days_of_a_run_are_kept, the_most_recent_are_kept,
    the_most_recent_of_a_run_are_kept,
};
