//! How an entry of a card file differs from the unit file.
ghost use Rattle.std.specs.Prelude.{◌≡◌, ◌++◌, OnOk, Bool, true, List, ℕ};
ghost use Rattle.card_match.specs.Differences.{instead_in};
ghost use Rattle.card_match.specs.Text.{crewed, card_has, unit_has};

use activity_codec::{Activity, Slot, is_same_activity, is_same_slot};
use std::alloc::AllocError;
use view_model::State;
use view_text::{Shown, crew_name};

/// What the unit file has in place of an entry.
#[derive(Clone, Copy, Debug, PartialEq, Eq)]
pub enum Instead {
    /// No such minute.
    NoMinute,
    /// No card in the entry's slot.
    NoCard,
    /// Another activity.
    Doing(Activity),
    /// The same activity, but CREW (true) where the entry is SINGLE, or the other way round.
    Crew(bool),
}

impl Instead {
    /// What a slot has in place of an activity.
    pub fn of(act: Activity, state: State, crew: bool) -> Instead
        ensures { result ≡ instead_in act state crew }
    {
        if !state.present {
            return Instead::NoCard;
        }
        if is_same_activity(state.act, act) {
            return Instead::Crew(crew);
        }
        Instead::Doing(state.act)
    }
}

/// How an entry differs.
#[derive(Clone, Copy, Debug, PartialEq, Eq)]
pub struct Difference {
    /// The entry's slot.
    pub slot: Slot,
    /// Its activity.
    pub act: Activity,
    /// What the unit file has in place of it.
    pub instead: Instead,
}

impl Shown for Difference {
    ghost use Rattle.card_match.specs.Differences.{same_difference};
    ghost use Rattle.card_match.specs.Text.{difference_words};
    ghost use Rattle.card_match.specs.Exact.{difference_exact};

    ghost same = { same_difference };

    ghost words = { difference_words };

    ghost exact = { difference_exact };

    fn is_same(self, other: Self) -> bool {
        is_same_slot(self.slot, other.slot)
            && is_same_activity(self.act, other.act)
            && self.instead == other.instead
    }

    fn write(self, text: &mut Vec<u8>) -> Result<(), AllocError> {
        text.extend_from_slice(self.slot.name())?;
        text.extend_from_slice(b" card=")?;
        write_card(text, self.act, self.instead)?;
        text.extend_from_slice(b" unit=")?;
        write_unit(text, self.act, self.instead)?;
        Ok(())
    }
}

/// Writes what the card has.
fn write_card(text: &mut Vec<u8>, act: Activity, instead: Instead) -> Result<(), AllocError>
    ensures { OnOk result (text.new.items ≡ text.old.items ++ card_has act instead) }
{
    match instead {
        Instead::NoMinute => write(text, act.name()),
        Instead::NoCard => write(text, act.name()),
        Instead::Doing(_) => write(text, act.name()),
        Instead::Crew(crew) => write_crewed(text, act, !crew),
    }
}

/// Writes what the unit has in place of it.
fn write_unit(text: &mut Vec<u8>, act: Activity, instead: Instead) -> Result<(), AllocError>
    ensures { OnOk result (text.new.items ≡ text.old.items ++ unit_has act instead) }
{
    match instead {
        Instead::NoMinute => write(text, b"none"),
        Instead::NoCard => write(text, b"out"),
        Instead::Doing(other) => write(text, other.name()),
        Instead::Crew(crew) => write_crewed(text, act, crew),
    }
}

/// Writes an activity and CREW or SINGLE.
fn write_crewed(text: &mut Vec<u8>, act: Activity, crew: bool) -> Result<(), AllocError>
    ensures { OnOk result (text.new.items ≡ text.old.items ++ crewed act crew) }
{
    text.extend_from_slice(act.name())?;
    text.extend_from_slice(b",")?;
    text.extend_from_slice(crew_name(crew))?;
    Ok(())
}

/// Writes bytes at the end.
fn write(text: &mut Vec<u8>, bytes: &[u8]) -> Result<(), AllocError>
    ensures { OnOk result (text.new.items ≡ text.old.items ++ bytes.now) }
{
    text.extend_from_slice(bytes)?;
    Ok(())
}
