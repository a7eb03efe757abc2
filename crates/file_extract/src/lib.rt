//! What of a file is whole and of the first generation, as an exact file that every form takes (Annex IB, Appendix 7;
//! which entries are passed on, and what is told of the others: profile).
#![tactic(auto)]

mod card;
mod entries;
mod judging;
mod laws;
mod odd_days;
mod passing;
mod unit;

pub use card::{CardPart, first_part};
pub use entries::{Download, DownloadEntry, entries_in};
pub use judging::extract_card;
pub use laws::{
    a_card_file_is_not_refused, a_card_file_is_passed_on_whole, a_unit_file_is_passed_on_whole,
};
pub use odd_days::{Pointed, newest_whole, oldest_whole, point_anew};
pub use passing::{Pick, bytes_of, passed_on};
pub use unit::unit_part;
