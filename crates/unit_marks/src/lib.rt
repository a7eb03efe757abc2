//! What a unit file and a card file tell beside minutes: the distances of days, the interruptions of the power, and the
//! places, events and faults (Annex IB, Appendix 7, 2.2.6 and 3.4).
#![tactic(auto)]

mod cards;
mod entries;
mod laws;
mod marks;

pub use cards::card_marks;
pub use entries::entry_marks;
pub use laws::{
    a_place_of_a_card_is_read_as_it_is_written, a_place_of_a_unit_is_read_as_it_is_written,
    an_event_of_a_card_is_read_as_it_is_written, an_event_of_a_unit_is_read_as_it_is_written,
};
pub use marks::{Marks, marks_of};
