//! The text of lines.
ghost use Rattle.std.specs.Prelude.{◌≡◌, ◌++◌, ◌<◌, IfOk, OnOk, codes};
ghost use Rattle.std.specs.List.{AllByRecursion};
ghost use Rattle.view_model.specs.Lines.{day_of_minute};
ghost use Rattle.view_text.specs.Text.{IsTextOf};
ghost use Rattle.calendar_days.specs.Calendar.{IsDateText};
ghost use Rattle.calendar_days.specs.Clock.{clock_text};
ghost use Rattle.view_text.specs.Adding.{AddsDay, AddsLine};

use crate::shown::Shown;
use activity_codec::DAY_MINUTES;
use arrayvec::ArrayVec;
use calendar_days::{clock_text, day_text};
use std::alloc::{AllocError, Global};
use tacho_types::DAYS;
use view_model::Line;

/// The text of lines, one after another. The date of a day is made once for lines that follow one another on it.
///
/// # Errors
///
/// `AllocError` where memory runs out.
pub fn lines_text<T: Shown>(alloc: Global, lines: &[Line<T>]) -> Result<Vec<u8>, AllocError>
    requires { AllByRecursion (λ line. day_of_minute line.first < DAYS) lines.now }
    ensures { IfOk result (λ text. IsTextOf T.words lines.now text.items) }
{
    let mut text = Vec::new(alloc);
    let mut day = 0;
    let mut date = day_text(day);
    for line in lines {
        let own = line.first / DAY_MINUTES;
        date = date_on(date, day, own);
        day = own;
        write_line(&mut text, date.as_slice(), *line)?;
    }
    Ok(text)
}

/// The date of a day, by that of a day before, which may be the same.
fn date_on(date: ArrayVec<u8, 10>, before: u32, day: u32) -> ArrayVec<u8, 10>
    requires range { day < DAYS }
    requires before { IsDateText before date.items }
    ensures { IsDateText day result.items }
{
    if day == before {
        return date;
    }
    day_text(day)
}

/// One more line, on a day of this date.
fn write_line<T: Shown>(text: &mut Vec<u8>, date: &[u8], line: Line<T>) -> Result<(), AllocError>
    requires { IsDateText (day_of_minute line.first) date.now }
    ensures { OnOk result (AddsLine T.words text.old.items text.new.items line) }
{
    text.extend_from_slice(date)?;
    write_span(text, line.first, line.last)?;
    line.shown.write(text)?;
    text.extend_from_slice(b"\n")?;
    Ok(())
}

/// The date of a day number.
///
/// # Errors
///
/// `AllocError` where memory runs out.
pub fn write_day(text: &mut Vec<u8>, day: u32) -> Result<(), AllocError>
    requires { day < DAYS }
    ensures { OnOk result (AddsDay text.old.items text.new.items day) }
{
    let date = day_text(day);
    text.extend_from_slice(date.as_slice())?;
    Ok(())
}

/// Adds the time of day of a minute, counted from some midnight, `HH:MM`.
///
/// # Errors
///
/// `AllocError` where memory runs out.
pub fn write_clock(text: &mut Vec<u8>, minute: u32) -> Result<(), AllocError>
    ensures { OnOk result (text.new.items ≡ text.old.items ++ clock_text minute) }
{
    text.extend_from_slice(&clock_text(minute))?;
    Ok(())
}

/// The times of day of the first and of the last minute, behind the date.
fn write_span(text: &mut Vec<u8>, first: u32, last: u32) -> Result<(), AllocError>
    ensures { OnOk result (text.new.items ≡ text.old.items
        ++ (codes " " ++ clock_text first ++ codes "-" ++ clock_text last ++ codes " ")) }
{
    text.extend_from_slice(b" ")?;
    write_clock(text, first)?;
    text.extend_from_slice(b"-")?;
    write_clock(text, last)?;
    text.extend_from_slice(b" ")?;
    Ok(())
}
