//! A card that was inserted gets its row in the unit.
ghost use Rattle.std.specs.Prelude.{◌<◌, option_map};
ghost use Rattle.std.specs.Prelude.{is_err};
ghost use Rattle.tacho_types.specs.CardNumber.{card_number_bytes};
ghost use Rattle.unit_minutes.specs.Writes.{begin_most};
ghost use Rattle.device_calls.specs.Calls.{LeavesBegun, RulesBegun, UnitIsReady, UnitStandsBegun};
ghost use Rattle.device_calls.specs.Calls.{MayBeginRow, UnitAnswersWithin};

use tach_media::{Chip, Failed, Medium};
use tacho_types::FullCardNumber;
use trace_model::Card;
use unit_minutes::Journal;

/// A row of the unit that is to be begun: of which number, from which session on, at which index, and the number whose
/// row stays.
#[derive(Clone, Copy)]
pub struct NewRow {
    /// The number of the card.
    pub number: FullCardNumber,
    /// The second in which its session began, not 0.
    pub session: u32,
    /// The index of the row, 0 to 7.
    pub index: u32,
    /// The number of the other card, whose row stays.
    pub spared: Option<FullCardNumber>,
}

/// Begins the row of a card that was inserted, whose session began then. The row of the number that is spared stays:
/// the other card's, where that has one. It is the row which `enter` told, and nothing is read.
///
/// No line here reads the cards, which of them it is, or the spared number: `rules` and `leaves` speak of them.
///
/// # Errors
///
/// `Failed` where the unit failed; then the row may be begun or not.
pub fn begin<M: Medium, C: Chip, D: Chip>(
    unit: &mut M,
    journal: &mut Journal,
    mine: &C,
    others: &D,
    which: Card,
    row: NewRow,
) -> Result<(), Failed>
    requires ready { UnitIsReady journal.old (M.state unit.old) }
    requires session { 0 < row.session }
    requires row { MayBeginRow row.index (card_number_bytes row.number)
        (option_map (λ n. card_number_bytes n) row.spared) (M.state unit.old) }
    ensures stands { UnitStandsBegun result (card_number_bytes row.number) row.index
        (option_map (λ n. card_number_bytes n) row.spared) journal.old journal.new (M.state unit.old)
        (M.state unit.new) }
    ensures rules { RulesBegun which result (card_number_bytes row.number) row.session
        (option_map (λ n. card_number_bytes n) row.spared) (M.state unit.old) (M.state unit.new)
        (C.state mine.now) (D.state others.now) }
    ensures leaves { LeavesBegun which result (card_number_bytes row.number) row.session
        (option_map (λ n. card_number_bytes n) row.spared) (M.state unit.old) (M.state unit.new) }
    ensures answers { UnitAnswersWithin begin_most (is_err result) (M.state unit.old) (M.state unit.new) }
{
    journal.begin_owed_at(unit, row.index, &row.number, row.session)
}
