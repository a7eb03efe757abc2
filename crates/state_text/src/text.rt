//! The text of lines.
ghost use Rattle.std.specs.Prelude.{◌≡◌, ◌<◌, ◌++◌, IfOk, OnOk, ℕ, List, codes, decimal, drop};
ghost use Rattle.tacho_types.specs.declared.calendar.TheConstants.{DAYS};
ghost use Rattle.state_text.specs.Lines.{day_of, AreDated};
ghost use Rattle.state_text.specs.Shown.{shown};
ghost use Rattle.state_text.specs.Text.{plate_text, card_text, owed_text, bad_file_text, minute_text, second_text};
ghost use Rattle.state_text.specs.Text.{value_text, AddsLine, AreLinesText};

use crate::line::{Line, OwedTo, Value, day_of, device_name, name_text, rule_name};
use crate::shown::{write_shown, write_two_hex};
use calendar_days::{day_text, seconds_text};
use itoa::Buffer;
use std::alloc::{AllocError, Global};
use tacho_types::{FullCardNumber, Name36, Registration};
use view_text::write_clock;

/// The text of lines, one after the other.
///
/// # Errors
///
/// `AllocError` where memory runs out.
pub fn lines_text(alloc: Global, lines: &[Line]) -> Result<Vec<u8>, AllocError>
    requires { AreDated lines.now }
    ensures { IfOk result (λ text. AreLinesText lines.now text.items) }
{
    let mut text = Vec::new(alloc);
    for line in lines {
        write_line(&mut text, line)?;
    }
    Ok(text)
}

/// Adds a line: the device's name, the line's, the value.
fn write_line(text: &mut Vec<u8>, line: &Line) -> Result<(), AllocError>
    requires { day_of line.now.value < DAYS }
    ensures { OnOk result (AddsLine text.old.items text.new.items line.now) }
{
    let date = day_text(day_of(&line.value));
    text.extend_from_slice(device_name(line.device))?;
    text.extend_from_slice(name_text(line.name))?;
    text.extend_from_slice(b" ")?;
    write_value(text, &line.value, date.as_slice())?;
    text.extend_from_slice(b"\n")?;
    Ok(())
}

/// Adds a value, which lies on the day of this date.
fn write_value(text: &mut Vec<u8>, value: &Value, date: &[u8]) -> Result<(), AllocError>
    ensures { OnOk result (text.new.items ≡ text.old.items ++ value_text date.now value.now) }
{
    match value {
        Value::Valid => add(text, b"valid"),
        Value::Unread => add(text, b"unread"),
        Value::BadAt(place) => write_behind(text, b"bad at ", *place),
        Value::BadField(field) => write_behind(text, b"bad field ", *field as u32),
        Value::BadFile { fid, place } => write_bad_file(text, *fid, *place),
        Value::Nothing => add(text, b"-"),
        Value::Count(n) => write_number(text, *n),
        Value::ByRule(rule) => add(text, rule_name(*rule)),
        Value::Vin(vin) => write_shown(text, vin),
        Value::Plate(registration) => write_plate(text, registration),
        Value::Card(number) => write_card(text, number),
        Value::Holder(name) => write_holder(text, name),
        Value::Owed(owed) => write_owed(text, owed),
        Value::Day(_) => add(text, date),
        Value::Minute(minute) => write_minute(text, date, *minute),
        Value::Second(second) => write_second(text, date, *second),
    }
}

/// Adds bytes.
fn add(text: &mut Vec<u8>, bytes: &[u8]) -> Result<(), AllocError>
    ensures { OnOk result (text.new.items ≡ text.old.items ++ bytes.now) }
{
    text.extend_from_slice(bytes)?;
    Ok(())
}

/// Adds a number.
fn write_number(text: &mut Vec<u8>, n: u32) -> Result<(), AllocError>
    ensures { OnOk result (text.new.items ≡ text.old.items ++ decimal n) }
{
    let mut digits = Buffer::new();
    let number = digits.format(n);
    text.extend_from_slice(number.as_bytes())?;
    Ok(())
}

/// Adds words, and a number behind them.
fn write_behind(text: &mut Vec<u8>, words: &[u8], n: u32) -> Result<(), AllocError>
    ensures { OnOk result (text.new.items ≡ text.old.items ++ words.now ++ decimal n) }
{
    text.extend_from_slice(words)?;
    write_number(text, n)?;
    Ok(())
}

/// Adds the file of a card that fails, and the place in it.
fn write_bad_file(text: &mut Vec<u8>, fid: u16, place: u32) -> Result<(), AllocError>
    ensures { OnOk result (text.new.items ≡ text.old.items ++ bad_file_text fid place) }
{
    text.extend_from_slice(b"bad file ")?;
    write_two_hex(text, (fid / 256) as u8)?;
    write_two_hex(text, (fid % 256) as u8)?;
    write_behind(text, b" at ", place)?;
    Ok(())
}

/// Adds a registration: the nation's number, and the plate.
fn write_plate(text: &mut Vec<u8>, registration: &Registration) -> Result<(), AllocError>
    ensures { OnOk result (text.new.items ≡ text.old.items ++ plate_text registration.now) }
{
    let (_pages, plate) = registration.0.split_at(2);
    write_number(text, registration.0[0] as u32)?;
    text.extend_from_slice(b" ")?;
    write_shown(text, plate)?;
    Ok(())
}

/// Adds a name.
fn write_holder(text: &mut Vec<u8>, name: &Name36) -> Result<(), AllocError>
    ensures { OnOk result (text.new.items ≡ text.old.items ++ shown (drop 1 name.now.0)) }
{
    let (_page, characters) = name.0.split_at(1);
    write_shown(text, characters)
}

/// Adds a card's number: that of the state that issued it, and its own.
fn write_card(text: &mut Vec<u8>, card: &FullCardNumber) -> Result<(), AllocError>
    ensures { OnOk result (text.new.items ≡ text.old.items ++ card_text card.now) }
{
    write_number(text, card.state.0 as u32)?;
    text.extend_from_slice(b" ")?;
    write_shown(text, &card.number)?;
    Ok(())
}

/// Adds what is owed to a card.
fn write_owed(text: &mut Vec<u8>, owed: &OwedTo) -> Result<(), AllocError>
    ensures { OnOk result (text.new.items ≡ text.old.items ++ owed_text owed.now) }
{
    write_card(text, &owed.card)?;
    write_behind(text, b" ", owed.minutes)?;
    Ok(())
}

/// Adds a minute of the day of this date.
fn write_minute(text: &mut Vec<u8>, date: &[u8], minute: u32) -> Result<(), AllocError>
    ensures { OnOk result (text.new.items ≡ text.old.items ++ minute_text date.now minute) }
{
    text.extend_from_slice(date)?;
    text.extend_from_slice(b"T")?;
    write_clock(text, minute)?;
    text.extend_from_slice(b"Z")?;
    Ok(())
}

/// Adds a second of the day of this date.
fn write_second(text: &mut Vec<u8>, date: &[u8], second: u32) -> Result<(), AllocError>
    ensures { OnOk result (text.new.items ≡ text.old.items ++ second_text date.now second) }
{
    text.extend_from_slice(date)?;
    text.extend_from_slice(b"T")?;
    text.extend_from_slice(&seconds_text(second))?;
    text.extend_from_slice(b"Z")?;
    Ok(())
}
