//! The files of a driver card (Annex IB, Appendix 2, section 4): where they stand in the card's flat image, how
//! Application_Identification is read, and the image of a new card.
//!
//! The entries of a driver card's files (Annex IB, Appendix 1) as values and as bytes: reading what was written gives
//! the value, and writing what was read gives the bytes. And the rings in which they stand on a card: its vehicles, its
//! places, and the events of each type, of which the earliest makes room for a new one.
#![tactic(auto)]

// files and a new card
mod application;
mod new_card;
mod table;

// entries of the files
mod card_event;
mod current_use;
mod event_set;
mod events;
mod rings;
mod vehicle;

pub use application::{BadApplication, read_application};
pub use card_event::{CardEvent, read_event, write_event};
pub use card_layout::{Application, CardFile, Fid, Range};
pub use current_use::{CurrentUse, read_current_use, write_current_use};
pub use events::{has_event, note_event};
pub use new_card::{CardIdentity, blank_card};
pub use rings::{note_place, places, vehicles};
pub use table::{file_of, file_range, files, image_size};
pub use vehicle::{Vehicle, read_vehicle, write_vehicle};
