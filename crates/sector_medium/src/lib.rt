//! A memory that a stop leaves whole, write by write, over a disk that keeps only its sectors whole.
#![tactic(auto)]

mod copy;
mod disk;
mod file;
mod found;
mod mem_disk;
mod over;
mod record;
mod redo_medium;
mod steps;

pub use copy::CopyNames;
pub use disk::Disk;
pub use file::{FileDisk, Missing};
use found::{Found, Redo};
pub use mem_disk::{Cut, MOST_GROUPS, MemDisk};
use over::read_over;
use record::seen;
pub use redo_medium::RedoMedium;
use steps::{settle, store};
