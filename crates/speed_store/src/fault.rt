//! Why the blocks of a unit are not read.
use gated_ring::RingFault;
use tach_media::Failed;

/// Why the detailed speed of a unit was not loaded.
#[derive(Clone, Copy, Debug, PartialEq, Eq)]
pub enum SpeedFault {
    /// The medium failed.
    Failed,
    /// The pointer of the ring, which is not below 1440.
    BadPointer(u32),
}

impl From<Failed> for SpeedFault {
    ghost use Rattle.std.specs.Prelude.{◌≡◌};
    ghost use Rattle.speed_store.specs.declared.fault.SpeedFault.{SpeedFault};

    ghost from_gives = { λ _ fault. fault ≡ SpeedFault.Failed };

    fn from(_failed: Failed) -> SpeedFault {
        SpeedFault::Failed
    }
}

impl From<RingFault> for SpeedFault {
    ghost use Rattle.std.specs.Prelude.{◌≡◌};
    ghost use Rattle.speed_store.specs.Faults.{of_ring};

    ghost from_gives = { λ ring fault. fault ≡ of_ring ring };

    fn from(fault: RingFault) -> SpeedFault {
        match fault {
            RingFault::Failed => SpeedFault::Failed,
            RingFault::BadPointer(pointer) => SpeedFault::BadPointer(pointer),
        }
    }
}
