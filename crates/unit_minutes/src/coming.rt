//! The minute that comes, as it is written.
ghost use Rattle.std.specs.Prelude.{◌≡◌, ◌≤◌};
ghost use Rattle.activity_codec.specs.declared.day.TheConstants.{DAY_MINUTES};
ghost use Rattle.unit_model.specs.declared.layout.TheConstants.{HIGHEST_ODOMETER, LAST_MINUTE};
ghost use Rattle.unit_minutes.specs.Coming.{IsComing};
ghost use Rattle.unit_minutes.specs.Kept.{coming_of};

use crate::bits::{SlotBits, slot_bits};
use crate::kept::KeptMinute;

/// A minute as it is written: its number, the bits of its states, and the odometer at its end.
#[derive(Clone, Copy, Debug, PartialEq, Eq)]
pub struct Coming {
    pub minute: u32,
    pub bits: SlotBits,
    pub odometer: u32,
}

/// A minute that is kept, as it is written.
pub fn coming_of(kept: &KeptMinute) -> Coming
    requires low { DAY_MINUTES ≤ kept.now.minute }
    requires small { kept.now.minute ≤ LAST_MINUTE }
    requires odometer { kept.now.odometer.0 ≤ HIGHEST_ODOMETER }
    ensures coming { result ≡ coming_of kept.now }
    ensures minute { result.minute ≡ kept.now.minute }
    ensures fits { IsComing result }
{
    Coming {
        minute: kept.minute,
        bits: slot_bits(kept),
        odometer: kept.odometer.0,
    }
}
