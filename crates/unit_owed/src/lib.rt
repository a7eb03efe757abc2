//! What a unit's image says of the entries that it owes to cards (profile): as definitions in `specs/` the rows of its
//! image, what is owed to a card, and the writes that begin a row and that put an entry into one.
//!
//! The rows of a unit's memory in which it keeps what it owes to cards (profile), over any medium: a row is begun for a
//! card, an entry is put into it, and what is owed is read. All rows are read in one read.
#![tactic(auto)]

// calls on owed rows
mod owing;
mod rows;
mod writing;

pub use activity_codec::{Entry, Owed};
pub use owing::{Asked, ask, has_row, owed};
pub use writing::{begin_owed, begin_owed_at, put_owed, put_owed_at};
