//! Why a service ends before its source.
use crate::AnswerFault;

/// Why a service ended before its source.
#[derive(Clone, Copy, Debug, PartialEq, Eq)]
pub enum ServeFault {
    /// The source failed.
    ReadFault,
    /// The sink failed.
    WriteFault,
    /// The unit failed.
    Failed,
    /// The unit's image does not decode: the place of the first field, in order of places, that fails.
    BadUnit(u32),
    /// More came than is answered: of `serve` and `serve_lines` more than 16777216 bytes; of packet_service's
    /// `serve_packets` a datagram of more than 264 bytes, or bytes at each of 4294967295 reads.
    TooLong,
}

/// Why a service of lines ended before its source.
#[derive(Clone, Copy, Debug, PartialEq, Eq)]
pub enum LinesFault {
    /// As a service of bytes ends.
    Ended(ServeFault),
    /// This line, from 1, spells no bytes.
    BadLine(u32),
    /// Out of memory.
    Memory,
}

impl From<ServeFault> for LinesFault {
    ghost use Rattle.std.specs.Prelude.{◌≡◌};
    ghost use Rattle.link_session.specs.declared.fault.LinesFault.{LinesFault};

    ghost from_gives = { λ fault made. made ≡ LinesFault.Ended fault };

    fn from(fault: ServeFault) -> LinesFault {
        LinesFault::Ended(fault)
    }
}

impl From<AnswerFault> for ServeFault {
    ghost use Rattle.std.specs.Prelude.{◌≡◌};
    ghost use Rattle.link_session.specs.Served.{fault_of};

    ghost from_gives = { λ fault made. made ≡ fault_of fault };

    fn from(fault: AnswerFault) -> ServeFault {
        match fault {
            AnswerFault::Failed => ServeFault::Failed,
            AnswerFault::BadUnit(place) => ServeFault::BadUnit(place),
        }
    }
}
