//! Why a card was not accepted.
ghost use Rattle.std.specs.Prelude.{◌≡◌};

use card_layout::Fid;
use tach_media::Failed;

/// The file of a card that first fails its checks, with the place in it.
#[derive(Clone, Copy, Debug, PartialEq, Eq)]
pub struct BadFile {
    pub fid: Fid,
    pub place: u32,
}

/// Why a card was not accepted.
#[derive(Clone, Copy, Debug, PartialEq, Eq)]
pub enum InsertFault {
    /// A call on the card failed.
    Failed,
    /// The card is not valid: the file that first fails in the order of judging, with the place in it.
    NotValid { fid: Fid, place: u32 },
    /// The card is valid, and its stored time is later than now, both in seconds since 1970-01-01.
    TimeOverlap { stored: u32, now: u32 },
}

impl From<Failed> for InsertFault {
    ghost use Rattle.card_validity.specs.declared.fault.InsertFault.TheVariants.{Failed};

    ghost from_gives = { λ _ fault. fault ≡ Failed };

    fn from(_failed: Failed) -> InsertFault {
        InsertFault::Failed
    }
}
