//! A session of a unit on the link (Annex IB, Appendix 7): what it answers to each frame that it hears, by the table of
//! answers, of the messages of the unit's image. It writes nothing to the unit, and takes no memory from the heap.
//!
//! The service of a unit on the link (Annex IB, Appendix 7): bytes come from a source in any pieces, each frame among
//! them is answered by a session, and the answers go to a sink. It takes no memory from the heap; but for a service of
//! lines of hexadecimal digits, which keeps a line until it ends.
#![tactic(auto)]

// the session
mod asking;
mod session;

// the service
mod fault;
mod line;
mod lines;
mod peer;
mod service;

pub use asking::AnswerFault;
pub use fault::{LinesFault, ServeFault};
pub use lines::serve_lines;
pub use peer::Peer;
pub use service::{MOST, serve};
pub use session::Session;
