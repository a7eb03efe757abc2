//! The line of a device whose file, or file system, lacks what its medium asks of it.
ghost use Rattle.std.specs.Prelude.{◌≡◌, ◌≤◌, length, OnOk};
ghost use Rattle.std.specs.Io.KnownBytes.{Appends};
ghost use Rattle.tach_media.specs.Streams.{CountsFaults};
ghost use Rattle.run_model.specs.Names.{device_name};
ghost use Rattle.failure_lines.specs.Lacks.{missing_words, missing_line, missing_text};

use crate::timed::{MOST, add};
use arrayvec::ArrayVec;
use run_model::Device;
use sector_medium::Missing;
use tach_media::{Failed, Sink, put_all};

/// Writes one line of what a device lacks: of the unit, else of the first card, else of the second one; nothing
/// where none of them lacks anything.
///
/// # Errors
///
/// `Failed` where the sink failed.
pub fn put_missing<K: Sink>(
    sink: &mut K,
    unit: Option<Missing>,
    card_a: Option<Missing>,
    card_b: Option<Missing>,
) -> Result<(), Failed>
    ensures told { OnOk result (Appends (K.held sink.old) (K.held sink.new) (missing_text unit card_a card_b)) }
    ensures cause { CountsFaults (K.faults sink.old) (K.faults sink.new) result }
{
    put_all(sink, missing_text(unit, card_a, card_b).as_slice())?;
    Ok(())
}

/// The line of the first device that lacks something; nothing where none does.
fn missing_text(
    unit: Option<Missing>,
    card_a: Option<Missing>,
    card_b: Option<Missing>,
) -> ArrayVec<u8, MOST>
    ensures { result.items ≡ missing_text unit card_a card_b }
{
    match unit {
        Some(missing) => missing_line(Device::Unit, missing),
        None => match card_a {
            Some(missing) => missing_line(Device::CardA, missing),
            None => match card_b {
                Some(missing) => missing_line(Device::CardB, missing),
                None => ArrayVec::new(),
            },
        },
    }
}

/// What the file of a device, or its file system, lacks.
fn missing_line(device: Device, missing: Missing) -> ArrayVec<u8, MOST>
    ensures { result.items ≡ missing_line device missing }
{
    let mut text = ArrayVec::new();
    add(&mut text, device_name(device));
    add(&mut text, b": ");
    add(&mut text, missing_words(missing));
    add(&mut text, b"\n");
    text
}

/// What a device is called.
fn device_name(device: Device) -> &'static [u8]
    ensures name { result.now ≡ device_name device }
    ensures few { length result.now ≤ 6 }
{
    match device {
        Device::Unit => b"unit",
        Device::CardA => b"card-a",
        Device::CardB => b"card-b",
    }
}

/// What is missing, as a line tells it.
fn missing_words(missing: Missing) -> &'static [u8]
    ensures words { result.now ≡ missing_words missing }
    ensures few { length result.now ≤ 42 }
{
    match missing {
        Missing::Locks => b"no locks in its file system",
        Missing::SynchronisedFolders => b"no synchronised folders in its file system",
        Missing::Bytes => b"its file is too short",
        Missing::Copy => b"no copy of what it held could be made",
    }
}
