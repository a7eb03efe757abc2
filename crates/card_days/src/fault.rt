//! Why a string was not loaded.
ghost use Rattle.std.specs.Prelude.{◌≡◌};

use tach_media::Failed;

/// Why the days of a string were not loaded.
#[derive(Clone, Copy, Debug, PartialEq, Eq)]
pub enum DaysFault {
    /// The medium failed.
    Failed,
    /// The string holds no days (Appendix 1, CardDriverActivity); it first fails at this place in the file of days.
    BadDays(u32),
}

impl From<Failed> for DaysFault {
    ghost use Rattle.card_days.specs.declared.fault.DaysFault.TheVariants.{Failed};

    ghost from_gives = { λ _ fault. fault ≡ Failed };

    fn from(_failed: Failed) -> DaysFault {
        DaysFault::Failed
    }
}
