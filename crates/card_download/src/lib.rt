//! The download of a driver card (Annex IB, Appendix 7, 3.4): the files of a card are read by its commands, and written
//! to a sink as a card file. It takes no memory from the heap, and writes nothing to the card.
#![tactic(auto)]

mod card;
mod fault;
mod files;
mod laws;

pub use card::write_card_file;
pub use fault::CardFileFault;
pub use laws::{a_card_file_is_in_the_grammar, a_view_shows_the_card};
