//! Why the memory of a unit is not read.
use tach_media::Failed;

/// Why the memory of a unit is not read.
#[derive(Clone, Copy, Debug, PartialEq, Eq)]
pub enum UnitFault {
    /// The medium failed.
    Failed,
    /// The image does not decode: the place of the first field, in order of places, that fails.
    BadUnit(u32),
}

impl From<Failed> for UnitFault {
    ghost use Rattle.std.specs.Prelude.{◌≡◌};
    ghost use Rattle.unit_memory.specs.declared.fault.UnitFault.{UnitFault};

    ghost from_gives = { λ _ fault. fault ≡ UnitFault.Failed };

    fn from(_failed: Failed) -> UnitFault {
        UnitFault::Failed
    }
}
