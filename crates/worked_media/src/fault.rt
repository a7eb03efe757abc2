use std::alloc::{AllocError, AllocFailed};
use tach_media::{Failed, Memory};
use trace_text::TraceFault;

/// Why nothing is told.
#[derive(Clone, Copy, Debug, PartialEq, Eq)]
pub enum Untold {
    /// There is no memory for it.
    Memory,
    /// A call on the device failed.
    Failed,
    /// The device has another size.
    Size,
    /// The unit's image does not decode, or the card's sizes are bad.
    Image,
    /// The card has more than one day.
    Days,
    /// The text spells no trace.
    Trace(TraceFault),
}

impl From<AllocError> for Untold {
    fn from(_error: AllocError) -> Untold {
        Untold::Memory
    }
}

impl<T: Drop> From<AllocFailed<T>> for Untold {
    fn from(_error: AllocFailed<T>) -> Untold {
        Untold::Memory
    }
}

impl From<Memory> for Untold {
    fn from(_error: Memory) -> Untold {
        Untold::Memory
    }
}

impl From<Failed> for Untold {
    fn from(_error: Failed) -> Untold {
        Untold::Failed
    }
}

impl From<TraceFault> for Untold {
    fn from(fault: TraceFault) -> Untold {
        Untold::Trace(fault)
    }
}
