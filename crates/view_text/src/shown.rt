//! What a view shows of a minute: that of a unit, and that of a card.
ghost use Rattle.std.specs.Prelude.{◌≡◌, ◌++◌, OnOk, Bool, true, List, ℕ};
ghost use Rattle.view_model.specs.Lines.{same_state, same_bool};
ghost use Rattle.view_text.specs.Text.{crew_word, state_words};

use activity_codec::{Activity, is_same_activity, is_same_slot};
use std::alloc::AllocError;
use view_model::{CardShown, State, UnitShown};

/// What a view shows of a minute.
pub trait Shown: Copy {
    // whether the same is shown
    ghost same: { Self → Self → Bool };

    // in which words
    ghost words: { Self → List ℕ };

    /// Whether the same is shown.
    fn is_same(self, other: Self) -> bool
        ensures { result ≡ same self other };

    /// Writes what is shown at the end of a text.
    fn write(self, text: &mut Vec<u8>) -> Result<(), AllocError>
        ensures { OnOk result (text.new.items ≡ text.old.items ++ words self) };

    // the same is shown of equal values alone
    ghost exact: { (one other : Self) → same one other ≡ true → one ≡ other };
}

impl Shown for UnitShown {
    ghost use Rattle.view_model.specs.Lines.{same_unit};
    ghost use Rattle.view_text.specs.Text.{unit_words};
    ghost use Rattle.view_text.specs.Exact.{unit_exact};

    ghost same = { same_unit };

    ghost words = { unit_words };

    ghost exact = { unit_exact };

    fn is_same(self, other: Self) -> bool {
        is_same_state(self.driver, other.driver)
            && is_same_state(self.codriver, other.codriver)
            && self.crew == other.crew
    }

    fn write(self, text: &mut Vec<u8>) -> Result<(), AllocError> {
        text.extend_from_slice(b"driver=")?;
        write_state(text, self.driver)?;
        text.extend_from_slice(b" codriver=")?;
        write_state(text, self.codriver)?;
        text.extend_from_slice(b" ")?;
        text.extend_from_slice(crew_name(self.crew))?;
        Ok(())
    }
}

impl Shown for CardShown {
    ghost use Rattle.view_model.specs.Lines.{same_card};
    ghost use Rattle.view_text.specs.Text.{card_words};
    ghost use Rattle.view_text.specs.Exact.{card_exact};

    ghost same = { same_card };

    ghost words = { card_words };

    ghost exact = { card_exact };

    fn is_same(self, other: Self) -> bool {
        is_same_slot(self.slot, other.slot)
            && is_same_activity(self.act, other.act)
            && self.crew == other.crew
    }

    fn write(self, text: &mut Vec<u8>) -> Result<(), AllocError> {
        text.extend_from_slice(self.slot.name())?;
        text.extend_from_slice(b"=")?;
        text.extend_from_slice(self.act.name())?;
        text.extend_from_slice(b" ")?;
        text.extend_from_slice(crew_name(self.crew))?;
        Ok(())
    }
}

/// Whether the same is shown of a slot.
fn is_same_state(one: State, other: State) -> bool
    ensures { result ≡ same_state one other }
{
    is_same_activity(one.act, other.act) && one.present == other.present
}

/// The activity of a slot, and whether a card was present in it.
fn write_state(text: &mut Vec<u8>, state: State) -> Result<(), AllocError>
    ensures { OnOk result (text.new.items ≡ text.old.items ++ state_words state) }
{
    text.extend_from_slice(state_name(state))?;
    Ok(())
}

/// The words of a state, as one text.
fn state_name(state: State) -> &'static [u8]
    ensures { result.now ≡ state_words state }
{
    if state.present {
        match state.act {
            Activity::Rest => b"rest,in".as_slice(),
            Activity::Available => b"available,in",
            Activity::Work => b"work,in",
            Activity::Driving => b"drive,in",
        }
    } else {
        match state.act {
            Activity::Rest => b"rest,out".as_slice(),
            Activity::Available => b"available,out",
            Activity::Work => b"work,out",
            Activity::Driving => b"drive,out",
        }
    }
}

/// The word for CREW (true) or SINGLE.
pub fn crew_name(crew: bool) -> &'static [u8]
    ensures { result.now ≡ crew_word crew }
{
    if crew { b"crew" } else { b"single" }
}
