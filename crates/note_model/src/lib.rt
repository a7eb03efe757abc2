//! What a run notes on its unit beside the minutes (profile; events: Annex IB, section III.12), as definitions:
//! odometers, insertions, withdrawals, places, events and faults, and what the unit's rings and tables show of them.
#![tactic(auto)]

mod laws;

pub use laws::seconds_are_those_of_the_course;
