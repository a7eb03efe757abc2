//! What the messages of a unit consist of (Annex IB, Appendix 7, 2.2.6).
ghost use Rattle.std.specs.Prelude.{◌≡◌, ◌*◌, ◌≤◌, ◌++◌, OnOk, length};
ghost use Rattle.byteorder.specs.Endian.{big_number};
ghost use Rattle.json.specs.Json.{array};
ghost use Rattle.json.specs.Tree.{json_tokens};
ghost use Rattle.json_fields.specs.Shown.{AddsMembers};
ghost use Rattle.file_json.specs.Parts.{HasParts, IsThere, changes_shown, part_len, part_then, parts_then};

use byteorder::{BigEndian, ByteOrder};
use json_fields::{
    Kind, Name, TextWriter, write_change, write_fields, write_record, write_records,
};
use std::alloc::{AllocError, Global};

/// A part of a message.
#[derive(Clone, Copy)]
pub enum Part {
    /// The fields of a record.
    Fields(Kind),
    /// A record under a name.
    Record {
        name: Name,
        kind: Kind,
    },
    /// A count of records, 1 byte or 2 wide, and as many records behind it.
    List {
        name: Name,
        count_width: usize,
        kind: Kind,
    },
    /// A number of two bytes, and as many changes of activity.
    Changes,
}

/// The overview.
pub const OVERVIEW: [Part; 5] = [
    Part::Fields(Kind::Certificates),
    Part::Fields(Kind::VehicleOfUnit),
    Part::List {
        name: Name::VuCompanyLocksRecords,
        count_width: 1,
        kind: Kind::Lock,
    },
    Part::List {
        name: Name::VuControlActivityRecords,
        count_width: 1,
        kind: Kind::Control,
    },
    Part::Fields(Kind::Signature),
];

/// The activities of a day.
pub const ACTIVITIES: [Part; 6] = [
    Part::Fields(Kind::Day),
    Part::List {
        name: Name::VuCardIWRecords,
        count_width: 2,
        kind: Kind::Insertion,
    },
    Part::Changes,
    Part::List {
        name: Name::VuPlaceDailyWorkPeriodRecords,
        count_width: 1,
        kind: Kind::UnitPlace,
    },
    Part::List {
        name: Name::SpecificConditionRecords,
        count_width: 2,
        kind: Kind::Condition,
    },
    Part::Fields(Kind::Signature),
];

/// Events and faults.
pub const EVENTS: [Part; 6] = [
    Part::List {
        name: Name::VuFaultRecords,
        count_width: 1,
        kind: Kind::UnitFault,
    },
    Part::List {
        name: Name::VuEventRecords,
        count_width: 1,
        kind: Kind::UnitEvent,
    },
    Part::Record {
        name: Name::VuOverSpeedingControlData,
        kind: Kind::OverspeedControl,
    },
    Part::List {
        name: Name::VuOverSpeedingEventRecords,
        count_width: 1,
        kind: Kind::Overspeed,
    },
    Part::List {
        name: Name::VuTimeAdjustmentRecords,
        count_width: 1,
        kind: Kind::Adjustment,
    },
    Part::Fields(Kind::Signature),
];

/// The detailed speed.
pub const SPEEDS: [Part; 2] = [
    Part::List {
        name: Name::VuDetailedSpeedBlocks,
        count_width: 2,
        kind: Kind::SpeedBlock,
    },
    Part::Fields(Kind::Signature),
];

/// The technical data.
pub const TECHNICAL: [Part; 4] = [
    Part::Record {
        name: Name::VuIdentification,
        kind: Kind::UnitIdentification,
    },
    Part::Record {
        name: Name::SensorPaired,
        kind: Kind::Sensor,
    },
    Part::List {
        name: Name::VuCalibrationRecords,
        count_width: 1,
        kind: Kind::Calibration,
    },
    Part::Fields(Kind::Signature),
];

/// Writes the parts of a message as members of an object, one after the other.
pub(crate) fn write_parts(
    alloc: Global,
    writer: &mut TextWriter,
    parts: &[Part],
    bytes: &[u8],
) -> Result<(), AllocError>
    requires { HasParts parts.now bytes.now }
    ensures { OnOk result (AddsMembers writer.old writer.new (parts_then parts.now bytes.now)) }
{
    let mut rest = bytes;
    for part in parts {
        let (_own, behind) = rest.split_at(part_len(*part, rest));
        write_part(alloc, writer, *part, rest)?;
        rest = behind;
    }
    Ok(())
}

/// How many bytes the part has that stands at the front of these.
fn part_len(part: Part, bytes: &[u8]) -> usize
    requires { IsThere part bytes.now }
    ensures { result ≡ part_len part bytes.now }
{
    match part {
        Part::Fields(kind) => kind.width(),
        Part::Record { kind, .. } => kind.width(),
        Part::List {
            count_width,
            kind,
            ..
        } => count_width + kind.width() * number(bytes, count_width),
        Part::Changes => 2 + 2 * number(bytes, 2),
    }
}

/// The number in the first one or two bytes.
fn number(bytes: &[u8], width: usize) -> usize
    requires some { 1 ≤ width }
    requires few { width ≤ 2 }
    requires there { width ≤ length bytes.now }
    ensures { result ≡ big_number width bytes.now }
{
    if width == 1 {
        bytes[0] as usize
    } else {
        BigEndian::read_u16(bytes) as usize
    }
}

/// Writes the part that stands at the front of these bytes.
fn write_part(
    alloc: Global,
    writer: &mut TextWriter,
    part: Part,
    bytes: &[u8],
) -> Result<(), AllocError>
    requires { IsThere part bytes.now }
    ensures { OnOk result (AddsMembers writer.old writer.new (part_then part bytes.now)) }
{
    match part {
        Part::Fields(kind) => write_fields(alloc, writer, kind.fields(), bytes),
        Part::Record { name, kind } => {
            writer.key(name.text())?;
            write_record(alloc, writer, kind.fields(), bytes)
        }
        Part::List {
            name,
            count_width,
            kind,
        } => {
            writer.key(name.text())?;
            let records = number(bytes, count_width);
            write_records(
                alloc,
                writer,
                kind.fields(),
                kind.width(),
                records,
                &bytes[count_width..],
            )
        }
        Part::Changes => {
            writer.key(Name::ActivityChangeInfos.text())?;
            write_changes(writer, false, number(bytes, 2), &bytes[2..])
        }
    }
}

/// Writes so many changes of activity, one after the other, as a JSON array: of a unit or on a card.
pub(crate) fn write_changes(
    writer: &mut TextWriter,
    on_card: bool,
    count: usize,
    bytes: &[u8],
) -> Result<(), AllocError>
    requires { 2 * count ≤ length bytes.now }
    ensures { OnOk result (writer.new ≡ writer.old ++ json_tokens (array (changes_shown on_card count bytes.now))) }
{
    writer.begin_array()?;
    let mut rest = bytes;
    let mut left = count;
    while left != 0 {
        let (word, behind) = rest.split_at(2);
        write_change(writer, on_card, BigEndian::read_u16(word))?;
        rest = behind;
        left -= 1;
    }
    writer.end_array()?;
    Ok(())
}
