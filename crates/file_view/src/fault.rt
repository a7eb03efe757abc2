//! Why a file was not read.
use std::alloc::AllocError;

/// Why a file was not read.
#[derive(Clone, Copy, Debug, PartialEq, Eq)]
pub enum ViewFault {
    /// The bytes are no file of this kind. The place of the first message or entry that is not in its grammar, in bytes
    /// from the front, or the file's length where a needed entry is missing.
    BadFile(u32),
    /// Out of memory.
    Memory,
}

impl From<AllocError> for ViewFault {
    ghost use Rattle.std.specs.Prelude.{◌≡◌};
    ghost use Rattle.file_view.specs.declared.fault.ViewFault.TheVariants.{Memory};

    ghost from_gives = { λ _ fault. fault ≡ Memory };

    fn from(_error: AllocError) -> ViewFault {
        ViewFault::Memory
    }
}
