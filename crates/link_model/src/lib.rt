//! The link between a unit and what downloads it (Annex IB, Appendix 7), as definitions: which frames a stream of bytes
//! holds, by its grammar, and what a unit answers to them, by one table of checks.
#![tactic(auto)]

mod laws;
pub mod lengths;
mod request;
pub mod services;
mod side;

pub use laws::{
    answers_fit, hears_any_pieces, hears_the_frames, hears_what_is_written, one_reading,
    writes_what_is_heard,
};
pub use request::{Request, number_of};
pub use side::End;
