//! The match of a card's entries against a unit's minutes.
ghost use Rattle.std.specs.Prelude.{◌≡◌, ◌<◌, ◌^◌, List, map, IfOk, length};
ghost use Rattle.file_view.specs.Histories.{entry_told, minute_told, minutes_on};
ghost use Rattle.card_retention.specs.Retains.{Rise};
ghost use Rattle.activity_codec.specs.declared.entries.Entry.{Entry as CardEntry};
ghost use Rattle.card_match.specs.Differences.{AreDifferences};
ghost use Rattle.card_match.specs.Cases.{AreRising, fresh};

use crate::cases::{Case, Use, cases_of, tell_lines, tell_uses};
use crate::verdict::{Differences, find_differences, first_day};
use std::alloc::{AllocError, Global};
use view_model::{CardShown, Line, UnitShown};

/// Compares the entries of a card's lines with the minutes of a unit's lines, by the uses of the unit's vehicle that
/// the card tells. It takes time by the lines, the uses and the minutes that both files tell, and memory by the
/// entries.
///
/// # Errors
///
/// `AllocError` where memory runs out.
pub fn compare_entries(
    alloc: Global,
    uses: &[Use],
    unit: &[Line<UnitShown>],
    card: &[Line<CardShown>],
) -> Result<Differences, AllocError>
    requires rise { Rise (map entry_told (minutes_on card.now)) }
    requires few { length (minutes_on card.now) < 2 ^ 32 }
    ensures { IfOk result (λ all. AreDifferences
        (record { uses = uses.now; minutes = map minute_told (minutes_on unit.now) })
        (map entry_told (minutes_on card.now)) all) }
{
    let mut cases = cases_of(alloc, card)?;
    answer(alloc, cases.as_mut_slice(), uses, unit)
}

/// The answer of cases of which nothing is known yet.
fn answer(
    alloc: Global,
    cases: &mut [Case],
    uses: &[Use],
    unit: &[Line<UnitShown>],
) -> Result<Differences, AllocError>
    requires rising { AreRising cases.old }
    requires few { length cases.old < 2 ^ 32 }
    ensures { IfOk result (λ all. (entries : List CardEntry) → cases.old ≡ map fresh entries
        → AreDifferences (record { uses = uses.now; minutes = map minute_told (minutes_on unit.now) }) entries all) }
{
    tell_uses(cases, uses);
    tell_lines(cases, unit);
    find_differences(alloc, cases, first_day(unit))
}
