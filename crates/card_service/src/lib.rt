//! A driver card that answers commands coming over a stream of bytes: each behind its length, as a virtual reader of
//! PC/SC sends them (profile).
#![tactic(auto)]

mod packets;
mod serving;

pub use packets::{ANSWER_MOST, Gathering, LONGEST, write_packet};
pub use serving::{ANSWER_TO_RESET, Asked, CardFault, MOST_TURNS, serve_card};
