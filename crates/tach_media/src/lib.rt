//! The outside of the tachograph: sources and sinks of bytes, media and chips that a stop may cut off at any
//! moment, and what stands for each of them in memory, or where there is none.
//!
//! Writes that are known before the first of them: a plan of pieces, each a place and its bytes, and the one call that
//! writes it.
#![tactic(auto)]

// what stops, fails and is counted
mod counts;
mod fault;
mod log;
mod stop;

// streams of bytes
mod mem_streams;
mod std_streams;
mod stream;
mod transfer;

// media
mod absent;
mod lent;
mod medium;
mod mem_medium;
mod number;
mod slice;

// chips
mod absent_chip;
mod chip;

// plans of writes
mod plan;

pub use absent::AbsentMedium;
pub use absent_chip::AbsentChip;
pub use chip::{Answer, Chip};
pub use counts::Counts;
pub use fault::{Failed, Memory};
pub use log::Left;
use log::Log;
pub use medium::Medium;
pub use mem_medium::MemMedium;
pub use mem_streams::{MemSink, MemSource};
pub use number::read_number;
pub use plan::{Plan, put_pieces};
pub use slice::SliceMedium;
pub use std_streams::{StdSink, StdSource};
pub use stop::Stop;
pub use stream::{Sink, Source};
pub use transfer::{TakeFault, put_all, take_all};
