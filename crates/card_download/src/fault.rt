//! Why a card file was not written to its end.
use card_commands::PortFault;

/// Why a card file was not written to its end.
#[derive(Clone, Copy, Debug, PartialEq, Eq)]
pub enum CardFileFault {
    /// A call on the card failed.
    Failed,
    /// The sink failed.
    WriteFault,
    /// The number, from 1, of the first field of Application_Identification that is out of its range.
    BadApplication(u8),
}

/// Why bytes of a card were not written to their end.
#[derive(Clone, Copy, Debug, PartialEq, Eq)]
pub enum CopyFault {
    /// A call on the card failed.
    Failed,
    /// The sink failed.
    WriteFault,
}

impl From<PortFault> for CardFileFault {
    ghost use Rattle.std.specs.Prelude.{◌≡◌};
    ghost use Rattle.card_download.specs.Faults.{of_port};

    ghost from_gives = { λ fault made. made ≡ of_port fault };

    fn from(fault: PortFault) -> CardFileFault {
        match fault {
            PortFault::Failed => CardFileFault::Failed,
            PortFault::BadApplication(field) => CardFileFault::BadApplication(field),
        }
    }
}

impl From<CopyFault> for CardFileFault {
    ghost use Rattle.std.specs.Prelude.{◌≡◌};
    ghost use Rattle.card_download.specs.Faults.{of_copy};

    ghost from_gives = { λ fault made. made ≡ of_copy fault };

    fn from(fault: CopyFault) -> CardFileFault {
        match fault {
            CopyFault::Failed => CardFileFault::Failed,
            CopyFault::WriteFault => CardFileFault::WriteFault,
        }
    }
}
