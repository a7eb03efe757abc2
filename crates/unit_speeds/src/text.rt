//! The text of detailed speed.
ghost use Rattle.std.specs.Prelude.{◌≡◌, ◌≤◌, ◌<◌, ◌++◌, ◌^◌, length, IfOk, IfErr, OnOk};
ghost use Rattle.file_view.specs.Faults.{IfBadFile};
ghost use Rattle.file_view.specs.UnitFiles.{IsBadUnitFile};
ghost use Rattle.file_view.specs.Showing.{before_last};
ghost use Rattle.tacho_types.specs.declared.calendar.TheConstants.{DAYS};
ghost use Rattle.unit_speeds.specs.Text.{AddsDate, AddsSpeedLine, AreSpeedLines, PrintsSpeeds, figure_text, last_lines};

use crate::blocks::lines_in;
use crate::line::SpeedLine;
use activity_codec::{DAY_SECONDS, MINUTE_SECONDS};
use calendar_days::day_text;
use file_view::{ViewFault, messages_at};
use itoa::Buffer;
use std::alloc::{AllocError, Global};
use view_text::write_clock;

/// The detailed speed of a unit file, a line a minute: of all its blocks, or of the last so many.
///
/// # Errors
///
/// As those of `file_view::read_download`.
pub fn speeds_text(alloc: Global, b: &[u8], last: Option<u32>) -> Result<Vec<u8>, ViewFault>
    requires { length b.now < 2 ^ 32 }
    ensures text { IfOk result (λ text. PrintsSpeeds last b.now text.items) }
    ensures bad { IfErr result (λ fault. IfBadFile fault (λ place. IsBadUnitFile place b.now)) }
{
    let all = messages_at(alloc, b)?;
    let lines = lines_in(alloc, b, all.as_slice())?;
    let text = last_text(alloc, lines.as_slice(), last)?;
    Ok(text)
}

/// The text of the last so many lines, or of all.
fn last_text(alloc: Global, lines: &[SpeedLine], last: Option<u32>) -> Result<Vec<u8>, AllocError>
    ensures { IfOk result (λ text. AreSpeedLines (last_lines last lines.now) text.items) }
{
    let from = first_of(lines.len(), last);
    lines_text(alloc, &lines[from..])
}

/// Which of so many is the first of the last so many.
fn first_of(count: usize, last: Option<u32>) -> usize
    ensures most { result ≤ count }
    ensures value { result ≡ before_last last count }
{
    match last {
        Some(n) => count.saturating_sub(n as usize),
        None => 0,
    }
}

/// The text of lines, one after another.
fn lines_text(alloc: Global, lines: &[SpeedLine]) -> Result<Vec<u8>, AllocError>
    ensures { IfOk result (λ text. AreSpeedLines lines.now text.items) }
{
    let mut text = Vec::new(alloc);
    for line in lines {
        write_line(&mut text, *line)?;
    }
    Ok(text)
}

/// One more line.
fn write_line(text: &mut Vec<u8>, line: SpeedLine) -> Result<(), AllocError>
    ensures { OnOk result (AddsSpeedLine text.old.items text.new.items line) }
{
    write_date(text, line.time / DAY_SECONDS)?;
    text.extend_from_slice(b" ")?;
    write_clock(text, line.time / MINUTE_SECONDS)?;
    write_figure(text, b" max ", line.most)?;
    write_figure(text, b" mean ", line.mean)?;
    write_figure(text, b" moving ", line.moving)?;
    text.extend_from_slice(b"\n")?;
    Ok(())
}

/// The date of a day.
fn write_date(text: &mut Vec<u8>, day: u32) -> Result<(), AllocError>
    requires { day < DAYS }
    ensures { OnOk result (AddsDate text.old.items text.new.items day) }
{
    let date = day_text(day);
    text.extend_from_slice(date.as_slice())?;
    Ok(())
}

/// A name and a number.
fn write_figure(text: &mut Vec<u8>, name: &[u8], number: usize) -> Result<(), AllocError>
    ensures { OnOk result (text.new.items ≡ text.old.items ++ figure_text name.now number) }
{
    let mut digits = Buffer::new();
    let decimal = digits.format(number);
    text.extend_from_slice(name)?;
    text.extend_from_slice(decimal.as_bytes())?;
    Ok(())
}
