//! Which card is in which slot with which session, and what a run knows of both cards (profile). Values alone: no
//! device is called.
#![tactic(auto)]

mod cabin;
mod cards;
mod laws;

pub use cabin::Cabin;
pub use cards::{Accepted, Cards, Crew, Known};
pub use laws::{
    a_session_that_kept_its_minute_goes_on, an_ended_minute_is_known,
    slots_and_sessions_stand_from_a_later_minute_on,
};
