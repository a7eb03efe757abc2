//! Recording a trace on the devices (profile): the unit keeps each decided minute, and each card its entries, whatever
//! calls on them fail; and an outcome tells which minutes were acknowledged, where power was lost or a card torn out,
//! what was found of the cards, and which actions were refused.
#![tactic(auto)]

mod accepting;
mod acts;
mod driving;
mod entered_events;
mod entered_rings;
mod inserting;
mod resuming;
mod run;

pub use entered_events::{
    what_an_accepted_card_brings_is_what_is_judged, what_is_noted_of_a_card_are_its_events,
    what_is_noted_of_a_card_is_shown,
};
pub use entered_rings::what_accept_writes_in_the_rings;
pub use log_model::{Break, Find, Mark, Refused, SlotFault, Verdict};
pub use run::run_trace;
pub use run_opening::RunFault;
pub use run_outcome::{Lines, Outcome};
