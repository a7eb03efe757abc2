//! The commands of a driver card (Annex IB, Appendix 2, section 3.6): their bytes, a card over a medium that answers
//! them, and a medium over a card that is reached by them alone.
#![tactic(auto)]

mod codec;
mod files;
mod issue;
mod loading;
mod place;
mod port;
mod sending;
mod sim_card;

pub use codec::{read_command, write_command};
pub use loading::{PortFault, read_sizes};
pub use port::Port;
pub use sim_card::SimCard;
pub use tach_media::Answer;
