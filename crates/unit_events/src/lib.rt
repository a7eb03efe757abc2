//! The events of a run in which no card bears on any second (Annex IB, section III.12): driving without a card, over
//! speedings and interruptions of power, as definitions over its power spans (specs/), and that they are the run's
//! events. Beside them what the events of any run share: their types, which are sure, and which bytes tell of them.
#![tactic(auto)]

mod laws;

pub use laws::the_events_of_a_run_without_cards;
