//! The entry of a minute is put among those owed to its card.
ghost use Rattle.std.specs.Prelude.{is_err};
ghost use Rattle.tacho_types.specs.CardNumber.{card_number_bytes};
ghost use Rattle.unit_minutes.specs.Writes.{owe_most};
ghost use Rattle.device_calls.specs.Calls.{LeavesOwing, RulesOwing, UnitIsReady, UnitStandsOwing};
ghost use Rattle.device_calls.specs.Calls.{HasRowAt, UnitAnswersWithin};

use activity_codec::Entry;
use tach_media::{Chip, Failed, Medium};
use tacho_types::FullCardNumber;
use trace_model::Card;
use unit_minutes::Journal;

/// An entry that a card is to be owed: of which number the card is, in which row of the unit, and the entry.
#[derive(Clone, Copy)]
pub struct OwedEntry {
    /// The number of the card.
    pub number: FullCardNumber,
    /// The index of its row, 0 to 7.
    pub row: u32,
    /// The entry.
    pub entry: Entry,
}

/// Puts the entry of the minute that comes next among those that are owed to a card which was accepted, in the slot or
/// torn out since. The row of its number is the one at this index: nothing is read.
///
/// No line here reads the cards, which of them it is, or its number: `rules` and `leaves` speak of them.
///
/// # Errors
///
/// `Failed` where the unit failed; then the entry may be there or not.
pub fn owe<M: Medium, C: Chip, D: Chip>(
    unit: &mut M,
    journal: &mut Journal,
    mine: &C,
    others: &D,
    which: Card,
    owed: OwedEntry,
) -> Result<(), Failed>
    requires ready { UnitIsReady journal.old (M.state unit.old) }
    requires row { HasRowAt owed.row (card_number_bytes owed.number) (M.state unit.old) }
    ensures stands { UnitStandsOwing result journal.old journal.new (M.state unit.old) (M.state unit.new) }
    ensures rules { RulesOwing which result (card_number_bytes owed.number) owed.entry (M.state unit.old)
        (M.state unit.new) (C.state mine.now) (D.state others.now) }
    ensures leaves { LeavesOwing which (card_number_bytes owed.number) owed.entry (M.state unit.old) (M.state unit.new)
        (C.state mine.now) }
    ensures answers { UnitAnswersWithin owe_most (is_err result) (M.state unit.old) (M.state unit.new) }
{
    journal.put_owed_at(unit, owed.row, &owed.entry)
}
