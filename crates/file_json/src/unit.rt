//! A message of a unit file.
ghost use Rattle.std.specs.Prelude.{◌≡◌, ◌++◌, IfOk, OnOk};
ghost use Rattle.json.specs.Print.{print};
ghost use Rattle.json.specs.Tree.{json_tokens};
ghost use Rattle.message_model.specs.Messages.{Message as FileMessage, IsMessage, message_bytes};
ghost use Rattle.file_json.specs.Parts.{AreNamedParts};
ghost use Rattle.file_json.specs.Units.{message_name, message_shown, parts_of};

use crate::parts::{ACTIVITIES, EVENTS, OVERVIEW, Part, SPEEDS, TECHNICAL, write_parts};
use json_fields::TextWriter;
use std::alloc::{AllocError, Global};

/// A message begins with 76 and its number (Appendix 7, 2.2.6).
const HEADER: usize = 2;

/// The text of a message.
pub(crate) fn message_text(
    alloc: Global,
    place: usize,
    message: &[u8],
) -> Result<Vec<u8>, AllocError>
    requires { (m : FileMessage) × IsMessage m × (message.now ≡ message_bytes m) }
    ensures { IfOk result (λ text. text.items ≡ print (json_tokens (message_shown place message.now))) }
{
    let mut writer = TextWriter::new(alloc);
    write_message(alloc, &mut writer, place, message)?;
    Ok(writer.into_text())
}

/// Writes a message: where it stands, its number, what it is, and its parts.
fn write_message(
    alloc: Global,
    writer: &mut TextWriter,
    place: usize,
    message: &[u8],
) -> Result<(), AllocError>
    requires { (m : FileMessage) × IsMessage m × (message.now ≡ message_bytes m) }
    ensures { OnOk result (writer.new ≡ writer.old ++ json_tokens (message_shown place message.now)) }
{
    let number = message[1];
    writer.begin_object()?;
    writer.key("place")?;
    writer.u64(place as u64)?;
    writer.key("trep")?;
    writer.u64(number as u64)?;
    writer.key("message")?;
    writer.string(message_name(number))?;
    write_parts(alloc, writer, parts_of(number), &message[HEADER..])?;
    writer.end_object()?;
    Ok(())
}

/// What a message is, by its number.
fn message_name(number: u8) -> &'static str
    ensures { result.now ≡ message_name number }
{
    match number {
        1 => "overview",
        2 => "activities",
        3 => "eventsAndFaults",
        4 => "detailedSpeed",
        _ => "technicalData",
    }
}

/// Its parts.
fn parts_of(number: u8) -> &'static [Part]
    ensures parts { result.now ≡ parts_of number }
    ensures named { AreNamedParts result.now }
{
    match number {
        1 => &OVERVIEW,
        2 => &ACTIVITIES,
        3 => &EVENTS,
        4 => &SPEEDS,
        _ => &TECHNICAL,
    }
}
