//! What tests and programs are made with: units and cards in memory whose calls stop, the images of units, and what a
//! unit and a card hold of a day, read again.
#![tactic(auto)]

mod fault;
pub mod image;
mod media;
mod reading;
mod traces;
mod units;

pub use fault::Untold;
pub use media::{Room, card_with, unit_with};
pub use reading::{
    DAYS, Held, State, Told, UNCLOSED, VEHICLES, bytes, card_tells, held_by_unit, told_by_card,
    told_by_unit, unclosed_on, unit_bytes, unit_tells,
};
pub use traces::trace_of;
pub use units::{
    IDENTITY, M0, NO_ROOM, NUMBER_A, NUMBER_B, SMALLEST, T0, card_image, card_number,
    card_of_zeros, image_of, new_card, new_image, new_unit, one_stop, stops, upgraded_image,
};
