//! The failures of a device, and of want of memory.
use std::alloc::AllocError;

/// The one fault of the outside: a call on a source, a sink, a medium or a chip did not do its work.
#[derive(Clone, Copy, Debug, PartialEq, Eq)]
pub struct Failed;

/// There is no memory for what a call would keep.
#[derive(Clone, Copy, Debug, PartialEq, Eq)]
pub struct Memory;

impl From<AllocError> for Memory {
    fn from(_error: AllocError) -> Memory {
        Memory
    }
}
