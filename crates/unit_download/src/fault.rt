//! Why a download ends before it is finished.
use link_session::AnswerFault;
use tach_media::Memory;

/// Why a download ended before it was finished.
#[derive(Clone, Copy, Debug, PartialEq, Eq)]
pub enum DownloadFault {
    /// The unit failed.
    Failed,
    /// The unit's image does not decode: the place of the first field, in order of places, that fails.
    BadUnit(u32),
    /// The unit gave no answer to the loader's frame, or one that the loader refuses.
    Changed,
    /// The sink failed.
    WriteFault,
    /// Memory ran out: for the room of a message, for a piece, or for the wire.
    Memory,
}

impl From<Memory> for DownloadFault {
    ghost use Rattle.std.specs.Prelude.{◌≡◌};
    ghost use Rattle.unit_download.specs.declared.fault.DownloadFault.{DownloadFault};

    ghost from_gives = { λ _ fault. fault ≡ DownloadFault.Memory };

    fn from(_memory: Memory) -> DownloadFault {
        DownloadFault::Memory
    }
}

impl From<AnswerFault> for DownloadFault {
    ghost use Rattle.std.specs.Prelude.{◌≡◌};
    ghost use Rattle.unit_download.specs.Ending.{fault_of};

    ghost from_gives = { λ fault made. made ≡ fault_of fault };

    fn from(fault: AnswerFault) -> DownloadFault {
        match fault {
            AnswerFault::Failed => DownloadFault::Failed,
            AnswerFault::BadUnit(place) => DownloadFault::BadUnit(place),
        }
    }
}
