//! The messages of a download (Annex IB, Appendix 7, 2.2.6): read by their grammar, made of a unit's image in pieces,
//! and joined of pieces.
#![tactic(auto)]

mod entries;
mod joining;
mod outline;
mod parts;
mod reading;
mod sending;
mod window;

pub use joining::{JoinFault, Joiner, split_at};
pub use link_model::Request;
pub use outline::{Outline, find_next_outline, find_outline};
pub use reading::{BadMessage, MessageRead, OverviewRead, day_words, overview, read_message};
pub use sending::{MessageFault, PieceFault, message, piece};
