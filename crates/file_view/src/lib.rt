//! What a unit file and a card file show (Annex IB, Appendix 7): the unit's minutes and the card's entries, and their
//! view text (profile). A file outside its grammar is refused with the place of what is wrong.
#![tactic(auto)]

mod card;
mod day_words;
mod entry;
mod fault;
mod files;
mod front;
mod hands;
mod laws;
mod parts;
mod places;
mod runs;
mod string;
mod unit;
mod vehicles;

pub use card::{
    CardHistory, CardRead, card_history, card_text, day_heads, last_days, read_card, read_card_file,
};
pub use entry::part;
pub use fault::ViewFault;
pub use files::{file_behind, file_len, file_value};
pub use front::{FrontRead, read_front};
pub use hands::by_hand;
pub use laws::{a_card_file_does_not_fail, a_unit_file_does_not_fail};
pub use places::{MessageAt, messages_at};
pub use runs::add_run;
pub use unit::{UnitHistory, last_messages, read_download, unit_history, unit_text};
