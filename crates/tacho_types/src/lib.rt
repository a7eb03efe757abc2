//! The data elements that the unit and its cards share (Annex IB, Appendix 1), as values and as bytes. Numbers stand
//! with their highest byte first. Reading what was written gives the value, and writing what was read gives the bytes.
#![tactic(auto)]

mod calendar;
mod card_number;
mod decimal;
mod numbers;
mod places;
mod texts;

pub use calendar::DAYS;
pub use card_number::{FullCardNumber, Nation, read_card_number, write_card_number};
pub use decimal::{BadValue, Bcd2, read_bcd2, write_bcd2};
pub use numbers::{
    Distance, Odometer, TimeReal, read_distance, read_odometer, read_time, write_distance,
    write_odometer, write_time,
};
pub use places::{PlaceEntry, read_place, write_place};
pub use texts::{
    Name36, Registration, read_name, read_registration, write_name, write_padded,
    write_registration,
};
