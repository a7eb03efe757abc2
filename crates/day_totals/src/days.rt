//! The totals of days, one after the other.
ghost use Rattle.std.specs.Prelude.{◌≡◌, ◌≤◌, ◌<◌, ◌++◌, IfOk, OnOk, ℕ, List, length};
ghost use Rattle.std.specs.List.Sorted.{IsNonDecreasingBy};
ghost use Rattle.file_view.specs.Histories.{AreLines, minutes_on};
ghost use Rattle.view_model.specs.Lines.{same_unit, same_card};
ghost use Rattle.slot_bars.specs.DayLines.{IsOneDay};
ghost use Rattle.slot_bars.specs.DaysOf.{day_of};
ghost use Rattle.calendar_days.specs.Calendar.{IsDateText};
ghost use Rattle.day_totals.specs.Figures.{day_told};
ghost use Rattle.day_totals.specs.Text.{IsUnitTotals, IsCardTotals, unit_day_text, card_day_text};

use crate::figures::{by_day, distance_on};
use crate::line::write_totals;
use activity_codec::Slot;
use calendar_days::day_text;
use slot_bars::{Gaps, card_bars, day_number, first_day, unit_bars};
use std::alloc::{AllocError, Global};
use view_model::{CardShown, Distance, Gap, Line, UnitShown};

/// The totals of a unit, by the lines of its view: two lines a day.
///
/// # Errors
///
/// `AllocError` where memory runs out.
pub fn unit_days_text(
    alloc: Global,
    lines: &[Line<UnitShown>],
    gaps: &[Gap],
    distances: &[Distance],
) -> Result<Vec<u8>, AllocError>
    requires { AreLines same_unit lines.now }
    ensures { IfOk result (λ text. IsUnitTotals gaps.now distances.now (minutes_on lines.now) text.items) }
{
    let in_order = Gaps::of(alloc, gaps)?;
    let told = by_day(alloc, distances)?;
    let mut text = Vec::new(alloc);
    let mut rest = lines;
    'days: while rest.len() > 0 {
        let (day, behind) = rest.split_at(first_day(rest));
        write_unit_day(alloc, &mut text, day, &in_order, told.as_slice())?;
        rest = behind;
    }
    Ok(text)
}

/// The totals of a card, by the lines of its view: a line a day.
///
/// # Errors
///
/// `AllocError` where memory runs out.
pub fn card_days_text(
    alloc: Global,
    lines: &[Line<CardShown>],
    distances: &[Distance],
) -> Result<Vec<u8>, AllocError>
    requires { AreLines same_card lines.now }
    ensures { IfOk result (λ text. IsCardTotals distances.now (minutes_on lines.now) text.items) }
{
    let told = by_day(alloc, distances)?;
    let mut text = Vec::new(alloc);
    let mut rest = lines;
    'days: while rest.len() > 0 {
        let (day, behind) = rest.split_at(first_day(rest));
        write_card_day(alloc, &mut text, day, told.as_slice())?;
        rest = behind;
    }
    Ok(text)
}

/// Adds the two lines of a day of a unit.
fn write_unit_day(
    alloc: Global,
    text: &mut Vec<u8>,
    lines: &[Line<UnitShown>],
    gaps: &Gaps,
    distances: &[Distance],
) -> Result<(), AllocError>
    requires day { IsOneDay lines.now }
    requires order { IsNonDecreasingBy day_told distances.now }
    ensures { OnOk result ((date : List ℕ) × IsDateText (day_of (minutes_on lines.now)) date
        × (text.new.items ≡ text.old.items ++ unit_day_text gaps.now distances.now date (minutes_on lines.now))) }
{
    let day = day_number(lines);
    let date = day_text(day);
    let km = distance_on(distances, day);
    let driver = unit_bars(alloc, lines, gaps, Slot::Driver)?;
    write_totals(text, date.as_slice(), b"driver", driver.as_slice(), km)?;
    let codriver = unit_bars(alloc, lines, gaps, Slot::CoDriver)?;
    write_totals(text, date.as_slice(), b"codriver", codriver.as_slice(), km)?;
    Ok(())
}

/// Adds the line of a day of a card.
fn write_card_day(
    alloc: Global,
    text: &mut Vec<u8>,
    lines: &[Line<CardShown>],
    distances: &[Distance],
) -> Result<(), AllocError>
    requires day { IsOneDay lines.now }
    requires order { IsNonDecreasingBy day_told distances.now }
    ensures { OnOk result ((date : List ℕ) × IsDateText (day_of (minutes_on lines.now)) date
        × (text.new.items ≡ text.old.items ++ card_day_text distances.now date (minutes_on lines.now))) }
{
    let day = day_number(lines);
    let date = day_text(day);
    let km = distance_on(distances, day);
    let bars = card_bars(alloc, lines)?;
    write_totals(text, date.as_slice(), b"holder", bars.as_slice(), km)?;
    Ok(())
}
