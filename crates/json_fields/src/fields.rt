//! Fields of records, and the records that they make.
ghost use Rattle.std.specs.Prelude.{◌≡◌, ◌++◌, ◌*◌, ◌≤◌, OnOk, length};
ghost use Rattle.json.specs.Tree.{json_tokens};
ghost use Rattle.json_fields.specs.Groups.{group_fields};
ghost use Rattle.json_fields.specs.Texts.{or_none};
ghost use Rattle.json_fields.specs.Shown.{AddsMembers, AreFields, ArePlain, CanShow, entry_shown, group_value};
ghost use Rattle.json_fields.specs.Shown.{members_then, plain_shown, record_shown, records_shown, value_shown};
ghost use Rattle.json_fields.specs.Shown.{width_of_record};

use crate::codes::Coding;
use crate::names::Name;
use crate::tables::{
    CARD_IDENTIFICATION, DOWNLOAD_ACTIVITY, DOWNLOADABLE_PERIOD, HOLDER_IDENTIFICATION, PLACE,
    PREVIOUS_VEHICLE, SOFTWARE,
};
use crate::values::{are_zeros, write_plain};
use crate::writer::TextWriter;
use std::alloc::{AllocError, Global};

/// How the bytes of a field are shown.
#[derive(Clone, Copy)]
pub enum Form {
    /// A number of one to eight bytes, the highest first.
    Number,
    /// A number for each byte.
    Numbers,
    /// Digits, two for each byte.
    Bytes,
    /// A time of four bytes in seconds since 1970-01-01 00:00 GMT, of which 0 is none.
    Time,
    /// A code page and characters behind it (Appendix 1, Name); none where all is 0.
    Text,
    /// Characters alone; none where all is 0.
    Characters,
    /// A code of one byte, and what it stands for.
    Coded(Coding),
    /// A card's type, the state that issued it, and its number (Appendix 1, FullCardNumber); none where all is 0.
    Card,
    /// A nation, and a plate with its code page (Appendix 1, VehicleRegistrationIdentification); none where all is 0.
    Registration,
    /// A surname and first names (Appendix 1, HolderName); none where all is 0.
    HolderName,
    /// A record of fields that are no records; none where all is 0.
    Group(Group),
}

/// A record that is a field of others.
#[derive(Clone, Copy)]
pub enum Group {
    /// VuDownloadablePeriod.
    DownloadablePeriod,
    /// VuDownloadActivityData.
    DownloadActivity,
    /// PreviousVehicleInfo.
    PreviousVehicle,
    /// PlaceRecord.
    Place,
    /// VuSoftwareIdentification.
    Software,
    /// CardIdentification.
    CardIdentification,
    /// DriverCardHolderIdentification.
    HolderIdentification,
}

impl Group {
    /// Its fields.
    fn fields(self) -> &'static [Field]
        ensures fields { result.now ≡ group_fields self }
        ensures plain { ArePlain result.now }
    {
        match self {
            Group::DownloadablePeriod => &DOWNLOADABLE_PERIOD,
            Group::DownloadActivity => &DOWNLOAD_ACTIVITY,
            Group::PreviousVehicle => &PREVIOUS_VEHICLE,
            Group::Place => &PLACE,
            Group::Software => &SOFTWARE,
            Group::CardIdentification => &CARD_IDENTIFICATION,
            Group::HolderIdentification => &HOLDER_IDENTIFICATION,
        }
    }
}

/// A field of a record: its name, how many bytes it has, and how they are shown.
#[derive(Clone, Copy)]
pub struct Field {
    pub name: Name,
    pub width: usize,
    pub form: Form,
}

/// Writes a record as a JSON object, field by field.
///
/// # Errors
///
/// `AllocError` where memory runs out.
pub fn write_record(
    alloc: Global,
    writer: &mut TextWriter,
    fields: &[Field],
    bytes: &[u8],
) -> Result<(), AllocError>
    requires table { AreFields fields.now }
    requires sized { width_of_record fields.now ≤ length bytes.now }
    ensures { OnOk result (writer.new ≡ writer.old ++ json_tokens (record_shown fields.now bytes.now)) }
{
    writer.begin_object()?;
    write_fields(alloc, writer, fields, bytes)?;
    writer.end_object()?;
    Ok(())
}

/// Writes the fields of a record as members of an object, one after the other.
///
/// # Errors
///
/// `AllocError` where memory runs out.
pub fn write_fields(
    alloc: Global,
    writer: &mut TextWriter,
    fields: &[Field],
    bytes: &[u8],
) -> Result<(), AllocError>
    requires table { AreFields fields.now }
    requires sized { width_of_record fields.now ≤ length bytes.now }
    ensures { OnOk result (AddsMembers writer.old writer.new (members_then value_shown fields.now bytes.now)) }
{
    let mut rest = bytes;
    for field in fields {
        let (value, behind) = rest.split_at(field.width);
        writer.key(field.name.text())?;
        write_value(alloc, writer, field.form, value)?;
        rest = behind;
    }
    Ok(())
}

/// Writes the bytes of a field as a JSON value.
fn write_value(
    alloc: Global,
    writer: &mut TextWriter,
    form: Form,
    bytes: &[u8],
) -> Result<(), AllocError>
    requires { CanShow form (length bytes.now) }
    ensures { OnOk result (writer.new ≡ writer.old ++ json_tokens (value_shown form bytes.now)) }
{
    if let Form::Group(group) = form {
        return write_group(alloc, writer, group.fields(), bytes);
    }
    write_plain(alloc, writer, form, bytes)
}

/// Writes a record of fields that are no records: null where all its bytes are 0.
fn write_group(
    alloc: Global,
    writer: &mut TextWriter,
    fields: &[Field],
    bytes: &[u8],
) -> Result<(), AllocError>
    requires plain { ArePlain fields.now }
    requires sized { width_of_record fields.now ≤ length bytes.now }
    ensures { OnOk result (writer.new ≡ writer.old ++ json_tokens (or_none (group_value fields.now) bytes.now)) }
{
    if are_zeros(bytes) {
        writer.null()?;
        return Ok(());
    }
    writer.begin_object()?;
    write_plain_fields(alloc, writer, fields, bytes)?;
    writer.end_object()?;
    Ok(())
}

/// Writes fields that are no records as members of an object, one after the other.
fn write_plain_fields(
    alloc: Global,
    writer: &mut TextWriter,
    fields: &[Field],
    bytes: &[u8],
) -> Result<(), AllocError>
    requires plain { ArePlain fields.now }
    requires sized { width_of_record fields.now ≤ length bytes.now }
    ensures { OnOk result (AddsMembers writer.old writer.new (members_then plain_shown fields.now bytes.now)) }
{
    let mut rest = bytes;
    for field in fields {
        let (value, behind) = rest.split_at(field.width);
        writer.key(field.name.text())?;
        write_plain(alloc, writer, field.form, value)?;
        rest = behind;
    }
    Ok(())
}

/// Writes an entry of a list: null where all its bytes are 0, else its record.
fn write_entry(
    alloc: Global,
    writer: &mut TextWriter,
    fields: &[Field],
    bytes: &[u8],
) -> Result<(), AllocError>
    requires table { AreFields fields.now }
    requires sized { width_of_record fields.now ≤ length bytes.now }
    ensures { OnOk result (writer.new ≡ writer.old ++ json_tokens (entry_shown fields.now bytes.now)) }
{
    if are_zeros(bytes) {
        writer.null()?;
        return Ok(());
    }
    write_record(alloc, writer, fields, bytes)
}

/// Writes so many records, one after the other, as a JSON array.
///
/// # Errors
///
/// `AllocError` where memory runs out.
pub fn write_records(
    alloc: Global,
    writer: &mut TextWriter,
    fields: &[Field],
    width: usize,
    count: usize,
    bytes: &[u8],
) -> Result<(), AllocError>
    requires table { AreFields fields.now }
    requires width { width ≡ width_of_record fields.now }
    requires sized { count * width ≤ length bytes.now }
    ensures { OnOk result (writer.new ≡ writer.old ++ json_tokens (records_shown count fields.now bytes.now)) }
{
    writer.begin_array()?;
    let mut rest = bytes;
    let mut left = count;
    while left != 0 {
        let (record, behind) = rest.split_at(width);
        write_entry(alloc, writer, fields, record)?;
        rest = behind;
        left -= 1;
    }
    writer.end_array()?;
    Ok(())
}
