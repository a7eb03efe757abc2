//! How the run of a unit alone goes, turn by turn: what its seconds, its log and its keeping have to do with the
//! history of the run, as definitions (specs/) and lemmas (proofs/) that a recorder's loop cites.
#![tactic(auto)]

mod laws;

pub use laws::{
    a_followed_book_follows, a_minute_stays_dark, a_power_on_fails, a_power_on_finds, a_run_begins,
    a_turn_breaks_off, a_turn_goes_on, an_off_line_is_dark,
};
