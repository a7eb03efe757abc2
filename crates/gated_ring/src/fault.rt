//! Why a ring was not loaded.
ghost use Rattle.std.specs.Prelude.{◌≡◌};

use tach_media::Failed;

/// Why a ring was not loaded.
#[derive(Clone, Copy, Debug, PartialEq, Eq)]
pub enum RingFault {
    /// The medium failed.
    Failed,
    /// The pointer, which is not below the count of entries.
    BadPointer(u32),
}

impl From<Failed> for RingFault {
    ghost use Rattle.gated_ring.specs.declared.fault.RingFault.TheVariants.{Failed};

    ghost from_gives = { λ _ fault. fault ≡ Failed };

    fn from(_failed: Failed) -> RingFault {
        RingFault::Failed
    }
}
