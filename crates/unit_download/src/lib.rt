//! A unit downloaded (Annex IB, Appendix 7): the loader's side and the unit's run against each other, and the finished
//! messages go to a sink, which then has the unit's file. The unit is read, and never written.
//!
//! How long a unit's file is, and how many of its messages are of a day (profile). The file is downloaded into memory.
#![tactic(auto)]

// a unit downloaded
mod exchange;
mod fault;
mod loading;
mod tape;
mod wire;

// the size of a unit's file
mod counting;
mod measuring;

pub use counting::day_count;
pub use fault::DownloadFault;
pub use loading::{download, exchange_all};
pub use measuring::{FileSize, measure};
pub use tape::{Tape, Unlisted};
pub use wire::{Passed, Wire};
