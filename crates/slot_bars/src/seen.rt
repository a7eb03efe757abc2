//! What is seen of one slot in a minute.
ghost use Rattle.std.specs.Prelude.{◌≡◌, ◌++◌, OnOk};
ghost use Rattle.slot_bars.specs.Seeing.{state_in, slot_seen, beside_words};

use crate::gaps::Gaps;
use activity_codec::{Activity, Slot, is_same_activity};
use std::alloc::AllocError;
use view_model::{State, UnitShown, Viewed};
use view_text::Shown;

/// What is seen of one slot in a minute.
#[derive(Clone, Copy, Debug, Default, PartialEq, Eq)]
pub struct Seen {
    /// The activity.
    pub act: Activity,
    /// Whether a card was present.
    pub present: bool,
    /// Whether the minute is CREW; any other minute is SINGLE.
    pub crew: bool,
    /// Whether the minute was recorded.
    pub known: bool,
}

impl Shown for Seen {
    ghost use Rattle.slot_bars.specs.Seeing.{same_seen, seen_words};
    ghost use Rattle.slot_bars.specs.Exact.{seen_exact};

    ghost same = { same_seen };

    ghost words = { seen_words };

    ghost exact = { seen_exact };

    fn is_same(self, other: Self) -> bool {
        is_same_activity(self.act, other.act)
            && self.present == other.present
            && self.crew == other.crew
            && self.known == other.known
    }

    fn write(self, text: &mut Vec<u8>) -> Result<(), AllocError> {
        if !self.known {
            text.extend_from_slice(b"unknown")?;
            return Ok(());
        }
        text.extend_from_slice(self.act.name())?;
        text.extend_from_slice(self.beside())?;
        Ok(())
    }
}

impl Seen {
    /// What is said beside the activity.
    fn beside(self) -> &'static [u8]
        ensures { result.now ≡ beside_words self }
    {
        if !self.present {
            return b", no card";
        }
        if self.crew { b", crew" } else { b"" }
    }
}

/// The state of a slot.
pub(crate) fn state_in(slot: Slot, shown: UnitShown) -> State
    ensures { result ≡ state_in slot shown }
{
    match slot {
        Slot::Driver => shown.driver,
        Slot::CoDriver => shown.codriver,
    }
}

/// What is seen of a slot.
pub(crate) fn slot_seen(gaps: &Gaps, slot: Slot, minute: Viewed<UnitShown>) -> Viewed<Seen>
    ensures { result ≡ slot_seen gaps.now slot minute }
{
    let state = state_in(slot, minute.shown);
    let crew = minute.shown.crew;
    let known = state.present || !gaps.is_in(minute.minute);
    Viewed {
        minute: minute.minute,
        shown: Seen {
            act: state.act,
            present: state.present,
            crew,
            known,
        },
    }
}
