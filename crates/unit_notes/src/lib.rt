//! What a unit notes beside its minutes (profile): insertions and withdrawals of cards, places, events, over speedings
//! and faults, each in its ring. An entry appears whole: a stop at a moment of a call leaves the entry whose place is
//! taken, no entry there, or the new one. Which event makes room for a new one: Annex IB, section III.12.
#![tactic(auto)]

mod insertion;
mod laws;
mod memory;
mod noting;
mod over;
mod retention;
mod rings;
mod tables;
mod unit_event;

pub use insertion::Insertion;
pub use laws::{
    a_front_tells_its_event, a_front_tells_its_over_speeding, an_entry_tells_its_insertion,
    an_entry_tells_its_place, the_held_events_are_those_noted,
    the_places_of_its_type_have_it_noted,
};
pub use memory::UnitNotes;
pub use retention::{
    an_event_that_begins_no_later_is_not_kept, empty_places_are_a_start,
    the_earliest_place_is_the_first_of_the_least, the_events_of_a_run_take_their_places,
    the_events_that_are_to_be_kept_are_held_after_a_run,
};
pub use unit_event::UnitEvent;
