//! The picture of the days of a unit, and of a card.
ghost use Rattle.std.specs.Prelude.{◌≡◌, ◌++◌, IfOk, OnOk, ℕ, List, length};
ghost use Rattle.std.specs.List.Sorted.{IsNonDecreasingBy};
ghost use Rattle.calendar_days.specs.Calendar.{IsDateText};
ghost use Rattle.view_model.specs.Lines.{same_unit, same_card};
ghost use Rattle.file_view.specs.Histories.{AreLines, minutes_on};
ghost use Rattle.slot_bars.specs.DayLines.{AreDayLines, IsOneDay};
ghost use Rattle.slot_bars.specs.DaysOf.{day_of, days_of};
ghost use Rattle.day_chart.specs.Marks.{mark_day};
ghost use Rattle.day_chart.specs.Chart.{IsUnitChart, IsCardChart, unit_band, card_band};

use crate::band::{write_band_head, write_lane};
use crate::frame::{CARD_BAND, FIRST_BAND, FRAME_HEIGHT, UNIT_BAND, frame_head};
use crate::mark::{by_day, marks_on, write_marks};
use activity_codec::Slot;
use calendar_days::day_text;
use slot_bars::{Gaps, card_bars, day_number, first_day, unit_bars};
use std::alloc::{AllocError, Global};
use view_model::{CardShown, Gap, Line, Mark, UnitShown};

/// The picture of a unit, by the lines of its view, with these marks; its text are the totals.
///
/// # Errors
///
/// `AllocError` where memory runs out.
pub fn unit_chart(
    alloc: Global,
    lines: &[Line<UnitShown>],
    gaps: &[Gap],
    marks: &[Mark],
    totals: &[u8],
) -> Result<Vec<u8>, AllocError>
    requires { AreLines same_unit lines.now }
    ensures { IfOk result (λ text. IsUnitChart gaps.now marks.now totals.now (minutes_on lines.now) text.items) }
{
    let in_order = Gaps::of(alloc, gaps)?;
    let told = by_day(alloc, marks)?;
    let count = days_in(lines);
    let mut text = frame_head(alloc, FRAME_HEIGHT + UNIT_BAND * count as u128, totals)?;
    let mut place = 0u64;
    let mut rest = lines;
    'days: while rest.len() > 0 {
        let (day, behind) = rest.split_at(first_day(rest));
        write_unit_band(alloc, &mut text, day, &in_order, told.as_slice(), place)?;
        place += 1;
        rest = behind;
    }
    text.extend_from_slice(b"</svg>\n")?;
    Ok(text)
}

/// The picture of a card, by the lines of its view, with these marks; its text are the totals.
///
/// # Errors
///
/// `AllocError` where memory runs out.
pub fn card_chart(
    alloc: Global,
    lines: &[Line<CardShown>],
    marks: &[Mark],
    totals: &[u8],
) -> Result<Vec<u8>, AllocError>
    requires { AreLines same_card lines.now }
    ensures { IfOk result (λ text. IsCardChart marks.now totals.now (minutes_on lines.now) text.items) }
{
    let told = by_day(alloc, marks)?;
    let count = days_in(lines);
    let mut text = frame_head(alloc, FRAME_HEIGHT + CARD_BAND * count as u128, totals)?;
    let mut place = 0u64;
    let mut rest = lines;
    'days: while rest.len() > 0 {
        let (day, behind) = rest.split_at(first_day(rest));
        write_card_band(alloc, &mut text, day, told.as_slice(), place)?;
        place += 1;
        rest = behind;
    }
    text.extend_from_slice(b"</svg>\n")?;
    Ok(text)
}

/// How many days these lines have.
fn days_in<T: Copy>(lines: &[Line<T>]) -> u64
    requires { AreDayLines lines.now }
    ensures { result ≡ length (days_of (minutes_on lines.now)) }
{
    let mut count = 0u64;
    let mut rest = lines;
    'days: while rest.len() > 0 {
        let (_day, behind) = rest.split_at(first_day(rest));
        count += 1;
        rest = behind;
    }
    count
}

/// Adds the band of a day of a unit.
fn write_unit_band(
    alloc: Global,
    text: &mut Vec<u8>,
    lines: &[Line<UnitShown>],
    gaps: &Gaps,
    marks: &[Mark],
    place: u64,
) -> Result<(), AllocError>
    requires day { IsOneDay lines.now }
    requires order { IsNonDecreasingBy mark_day marks.now }
    ensures { OnOk result ((date : List ℕ) × IsDateText (day_of (minutes_on lines.now)) date
        × (text.new.items ≡ text.old.items ++ unit_band gaps.now marks.now place date (minutes_on lines.now))) }
{
    let day = day_number(lines);
    let date = day_text(day);
    write_band_head(
        text,
        FIRST_BAND + UNIT_BAND * place as u128,
        date.as_slice(),
    )?;
    let driver = unit_bars(alloc, lines, gaps, Slot::Driver)?;
    write_lane(text, date.as_slice(), b"driver", driver.as_slice())?;
    let codriver = unit_bars(alloc, lines, gaps, Slot::CoDriver)?;
    text.extend_from_slice(b"<g transform=\"translate(0 30)\">\n")?;
    write_lane(text, date.as_slice(), b"codriver", codriver.as_slice())?;
    write_marks(text, date.as_slice(), day, marks_on(marks, day))?;
    text.extend_from_slice(b"<use xlink:href=\"#axis\"/></g></g>\n")?;
    Ok(())
}

/// Adds the band of a day of a card.
fn write_card_band(
    alloc: Global,
    text: &mut Vec<u8>,
    lines: &[Line<CardShown>],
    marks: &[Mark],
    place: u64,
) -> Result<(), AllocError>
    requires day { IsOneDay lines.now }
    requires order { IsNonDecreasingBy mark_day marks.now }
    ensures { OnOk result ((date : List ℕ) × IsDateText (day_of (minutes_on lines.now)) date
        × (text.new.items ≡ text.old.items ++ card_band marks.now place date (minutes_on lines.now))) }
{
    let day = day_number(lines);
    let date = day_text(day);
    write_band_head(
        text,
        FIRST_BAND + CARD_BAND * place as u128,
        date.as_slice(),
    )?;
    let bars = card_bars(alloc, lines)?;
    write_lane(text, date.as_slice(), b"holder", bars.as_slice())?;
    write_marks(text, date.as_slice(), day, marks_on(marks, day))?;
    text.extend_from_slice(b"<use xlink:href=\"#axis\"/></g>\n")?;
    Ok(())
}
