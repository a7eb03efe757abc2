//! A file of a card file.
ghost use Rattle.std.specs.Prelude.{◌≡◌, ◌+◌, ◌*◌, ◌<◌, ◌≤◌, ◌^◌, ◌++◌, ◌∷◌, [], ℕ, List, true, None};
ghost use Rattle.std.specs.Prelude.{IfOk, IfErr, OnOk, drop, length, slice_index, take};
ghost use Rattle.byteorder.specs.Endian.{big_number};
ghost use Rattle.json.specs.Json.{array};
ghost use Rattle.json.specs.Print.{print};
ghost use Rattle.json.specs.Tree.{items_tokens, json_tokens};
ghost use Rattle.json_fields.specs.Shown.{AddsMembers};
ghost use Rattle.file_json.specs.Pieces.{entry_in};
ghost use Rattle.file_json.specs.Cards.{AreSets, IsRing, bytes_then, conditions_told, content_then};
ghost use Rattle.file_json.specs.Cards.{days_told, entry_shown, file_name, fits};
ghost use Rattle.file_json.specs.Cards.{kind_name, list_shown, lists_shown, ring_fits, ring_told, sets_fit, sets_told};
ghost use Rattle.file_json.specs.Cards.{shape_of, told};

use crate::days::{Pointers, write_string};
use byteorder::{BigEndian, ByteOrder};
use card_layout::{FILE_HEAD, Fid};
use json_fields::{Kind, Name, TextWriter, write_digits, write_record, write_records};
use std::alloc::{AllocError, Global};

/// What a file of a card holds.
#[derive(Clone, Copy)]
pub enum Shape {
    /// One record.
    Record(Kind),
    /// The events, a list for each of their types (Appendix 1, CardEventData).
    Events,
    /// The faults, a list for each of their types (Appendix 1, CardFaultData).
    Faults,
    /// The string of days, behind two pointers (Appendix 1, CardDriverActivity).
    Days,
    /// The vehicles used, behind their pointer (Appendix 1, CardVehiclesUsed).
    Vehicles,
    /// The places, behind their pointer (Appendix 1, CardPlaceDailyWorkPeriod).
    Places,
    /// The specific conditions (Appendix 1, SpecificConditionRecord).
    Conditions,
    /// Bytes that nobody reads.
    Bytes,
}

/// A pointer of one byte or two, and a list of records behind it.
#[derive(Clone, Copy)]
pub struct Ring {
    /// What the pointer is called.
    pub pointer: Name,
    /// How many bytes it has.
    pub width: usize,
    /// What the list is called.
    pub list: Name,
    /// What its records are.
    pub kind: Kind,
}

/// The vehicles used: a pointer of two bytes.
pub const VEHICLES: Ring = Ring {
    pointer: Name::VehiclePointerNewestRecord,
    width: 2,
    list: Name::CardVehicleRecords,
    kind: Kind::Vehicle,
};

/// The places: a pointer of one byte.
pub const PLACES: Ring = Ring {
    pointer: Name::PlacePointerNewestRecord,
    width: 1,
    list: Name::PlaceRecords,
    kind: Kind::CardPlace,
};

/// So many lists of as many records each.
#[derive(Clone, Copy)]
pub struct Sets {
    /// How many lists there are.
    pub count: usize,
    /// What they are called.
    pub list: Name,
    /// What their records are.
    pub kind: Kind,
}

/// The events: six types.
pub const EVENT_SETS: Sets = Sets {
    count: 6,
    list: Name::CardEventRecords,
    kind: Kind::CardEvent,
};

/// The faults: two types.
pub const FAULT_SETS: Sets = Sets {
    count: 2,
    list: Name::CardFaultRecords,
    kind: Kind::CardFault,
};

/// The head of a file: where it stands, its identifier, and 0 for its value or 1 for its signature.
#[derive(Clone, Copy)]
pub struct FileHead {
    pub place: usize,
    pub fid: u16,
    pub kind: u8,
}

/// The text of a file, which these bytes spell with its head; of the string of days all records, or the newest so many.
pub(crate) fn file_text(
    alloc: Global,
    last: Option<u32>,
    place: usize,
    file: &[u8],
) -> Result<Vec<u8>, AllocError>
    requires { 5 ≤ length file.now }
    ensures { IfOk result (λ text. text.items ≡ print (json_tokens (entry_shown last place (entry_in file.now)))) }
{
    let head = file_head(file, place);
    let mut writer = TextWriter::new(alloc);
    write_file(alloc, &mut writer, last, head, &file[FILE_HEAD..])?;
    Ok(writer.into_text())
}

/// The head of the file at the front.
fn file_head(rest: &[u8], place: usize) -> FileHead
    requires { 5 ≤ length rest.now }
    ensures { result ≡ record { place = place; fid = big_number 2 rest.now; kind = slice_index rest.now 2 } }
{
    let fid = BigEndian::read_u16(rest);
    let kind = rest[2];
    FileHead { place, fid, kind }
}

/// Writes a file: where it stands, which it is, whether it is its value or a signature, and what it holds.
fn write_file(
    alloc: Global,
    writer: &mut TextWriter,
    last: Option<u32>,
    head: FileHead,
    value: &[u8],
) -> Result<(), AllocError>
    ensures { OnOk result (writer.new ≡ writer.old ++ json_tokens
        (entry_shown last head.place (record { fid = head.fid; kind = head.kind; value = value.now }))) }
{
    writer.begin_object()?;
    writer.key("place")?;
    writer.u64(head.place as u64)?;
    writer.key("fileId")?;
    write_digits(alloc, writer, &head.fid.to_be_bytes())?;
    writer.key("name")?;
    writer.string(file_name(head.fid))?;
    writer.key("kind")?;
    writer.string(kind_name(head.kind))?;
    writer.key("length")?;
    writer.u64(value.len() as u64)?;
    write_content(alloc, writer, last, shape_of(head.fid, head.kind), value)?;
    writer.end_object()?;
    Ok(())
}

/// What a kind is called.
fn kind_name(kind: u8) -> &'static str
    ensures { result.now ≡ kind_name kind }
{
    if kind == 0 { "value" } else { "signature" }
}

/// Writes what a file holds: by its shape where its length fits that, else as bytes.
fn write_content(
    alloc: Global,
    writer: &mut TextWriter,
    last: Option<u32>,
    shape: Shape,
    value: &[u8],
) -> Result<(), AllocError>
    ensures { OnOk result (AddsMembers writer.old writer.new (content_then last shape value.now)) }
{
    if fits(shape, value.len()) {
        writer.key("value")?;
        return write_told(alloc, writer, last, shape, value);
    }
    writer.key("bytes")?;
    write_digits(alloc, writer, value)
}

/// Whether so many bytes have this shape.
fn fits(shape: Shape, len: usize) -> bool
    ensures { result ≡ fits shape len }
{
    match shape {
        Shape::Record(kind) => len == kind.width(),
        Shape::Events => sets_fit(EVENT_SETS, len),
        Shape::Faults => sets_fit(FAULT_SETS, len),
        Shape::Days => len >= 4,
        Shape::Vehicles => ring_fits(VEHICLES, len),
        Shape::Places => ring_fits(PLACES, len),
        Shape::Conditions => len % Kind::Condition.width() == 0,
        Shape::Bytes => false,
    }
}

/// Whether so many bytes are lists of as many records each.
fn sets_fit(sets: Sets, len: usize) -> bool
    requires { AreSets sets }
    ensures { result ≡ sets_fit sets len }
{
    len % (sets.count * sets.kind.width()) == 0
}

/// Whether so many bytes are a pointer and records.
fn ring_fits(ring: Ring, len: usize) -> bool
    ensures { result ≡ ring_fits ring len }
{
    if len < ring.width {
        return false;
    }
    (len - ring.width) % ring.kind.width() == 0
}

/// Writes a value by its shape.
fn write_told(
    alloc: Global,
    writer: &mut TextWriter,
    last: Option<u32>,
    shape: Shape,
    value: &[u8],
) -> Result<(), AllocError>
    requires { fits shape (length value.now) ≡ true }
    ensures { OnOk result (writer.new ≡ writer.old ++ json_tokens (told last shape value.now)) }
{
    match shape {
        Shape::Record(kind) => write_record(alloc, writer, kind.fields(), value),
        Shape::Events => write_sets(alloc, writer, EVENT_SETS, value),
        Shape::Faults => write_sets(alloc, writer, FAULT_SETS, value),
        Shape::Days => write_days(alloc, writer, last, value),
        Shape::Vehicles => write_ring(alloc, writer, VEHICLES, value),
        Shape::Places => write_ring(alloc, writer, PLACES, value),
        Shape::Conditions => write_conditions(alloc, writer, value),
        Shape::Bytes => write_digits(alloc, writer, value),
    }
}

/// Writes lists of as many records each, under their name.
fn write_sets(
    alloc: Global,
    writer: &mut TextWriter,
    sets: Sets,
    value: &[u8],
) -> Result<(), AllocError>
    requires { AreSets sets }
    ensures { OnOk result (writer.new ≡ writer.old ++ json_tokens (sets_told sets value.now)) }
{
    writer.begin_object()?;
    writer.key(sets.list.text())?;
    write_lists(alloc, writer, sets, value.len() / sets.count, value)?;
    writer.end_object()?;
    Ok(())
}

/// Writes lists of so many bytes each as a JSON array.
fn write_lists(
    alloc: Global,
    writer: &mut TextWriter,
    sets: Sets,
    len: usize,
    value: &[u8],
) -> Result<(), AllocError>
    requires { sets.count * len ≤ length value.now }
    ensures { OnOk result (writer.new ≡ writer.old
        ++ json_tokens (array (lists_shown sets.count len sets.kind value.now))) }
{
    writer.begin_array()?;
    let mut rest = value;
    let mut left = sets.count;
    while left != 0 {
        let (list, behind) = rest.split_at(len);
        write_list(alloc, writer, sets.kind, list)?;
        rest = behind;
        left -= 1;
    }
    writer.end_array()?;
    Ok(())
}

/// Writes the records of a list, as many as there are.
fn write_list(
    alloc: Global,
    writer: &mut TextWriter,
    kind: Kind,
    value: &[u8],
) -> Result<(), AllocError>
    ensures { OnOk result (writer.new ≡ writer.old ++ json_tokens (list_shown kind value.now)) }
{
    write_records(
        alloc,
        writer,
        kind.fields(),
        kind.width(),
        value.len() / kind.width(),
        value,
    )
}

/// Writes the specific conditions, under their name.
fn write_conditions(alloc: Global, writer: &mut TextWriter, value: &[u8]) -> Result<(), AllocError>
    ensures { OnOk result (writer.new ≡ writer.old ++ json_tokens (conditions_told value.now)) }
{
    writer.begin_object()?;
    writer.key(Name::SpecificConditionRecords.text())?;
    write_list(alloc, writer, Kind::Condition, value)?;
    writer.end_object()?;
    Ok(())
}

/// Writes a pointer, and the records behind it.
fn write_ring(
    alloc: Global,
    writer: &mut TextWriter,
    ring: Ring,
    value: &[u8],
) -> Result<(), AllocError>
    requires pointer { IsRing ring }
    requires there { ring.width ≤ length value.now }
    ensures { OnOk result (writer.new ≡ writer.old ++ json_tokens (ring_told ring value.now)) }
{
    writer.begin_object()?;
    writer.key(ring.pointer.text())?;
    writer.u64(BigEndian::read_uint(value, ring.width))?;
    writer.key(ring.list.text())?;
    write_list(alloc, writer, ring.kind, &value[ring.width..])?;
    writer.end_object()?;
    Ok(())
}

/// Writes the pointers of the string of days, its records, and its bytes; or the newest so many of the records.
fn write_days(
    alloc: Global,
    writer: &mut TextWriter,
    last: Option<u32>,
    value: &[u8],
) -> Result<(), AllocError>
    requires { 4 ≤ length value.now }
    ensures { OnOk result (writer.new ≡ writer.old ++ json_tokens (days_told last value.now)) }
{
    let oldest = BigEndian::read_u16(value) as usize;
    let newest = BigEndian::read_u16(&value[2..]) as usize;
    writer.begin_object()?;
    writer.key(Name::ActivityPointerOldestDayRecord.text())?;
    writer.u64(oldest as u64)?;
    writer.key(Name::ActivityPointerNewestRecord.text())?;
    writer.u64(newest as u64)?;
    writer.key(Name::ActivityDailyRecords.text())?;
    let pointers = Pointers { oldest, newest };
    write_string(alloc, writer, last, pointers, &value[4..])?;
    write_bytes(alloc, writer, last, &value[4..])?;
    writer.end_object()?;
    Ok(())
}

/// Writes the bytes of a string, where all of its records are told.
fn write_bytes(
    alloc: Global,
    writer: &mut TextWriter,
    last: Option<u32>,
    string: &[u8],
) -> Result<(), AllocError>
    ensures { OnOk result (AddsMembers writer.old writer.new (bytes_then last string.now)) }
{
    match last {
        None => write_all_bytes(alloc, writer, string),
        Some(_last) => Ok(()),
    }
}

/// Writes the bytes of a string, under their name.
fn write_all_bytes(alloc: Global, writer: &mut TextWriter, string: &[u8]) -> Result<(), AllocError>
    ensures { OnOk result (AddsMembers writer.old writer.new (bytes_then None string.now)) }
{
    writer.key("bytes")?;
    write_digits(alloc, writer, string)
}

/// What a file is called (Appendix 2, section 4).
fn file_name(fid: u16) -> &'static str
    ensures { result.now ≡ file_name fid }
{
    match Fid(fid) {
        Fid::ICC => "icc",
        Fid::IC => "ic",
        Fid::APPLICATION => "applicationIdentification",
        Fid::EVENTS => "eventsData",
        Fid::FAULTS => "faultsData",
        Fid::ACTIVITY => "driverActivityData",
        Fid::VEHICLES => "vehiclesUsed",
        Fid::PLACES => "places",
        Fid::CURRENT_USE => "currentUsage",
        Fid::CONTROL => "controlActivityData",
        Fid::DOWNLOAD => "cardDownload",
        Fid::IDENTIFICATION => "identification",
        Fid::LICENCE => "drivingLicenceInfo",
        Fid::CONDITIONS => "specificConditions",
        Fid::CARD_CERTIFICATE => "cardCertificate",
        Fid::CA_CERTIFICATE => "caCertificate",
        _ => "other",
    }
}

/// The shape of a file's value; a signature is bytes.
fn shape_of(fid: u16, kind: u8) -> Shape
    ensures { result ≡ shape_of fid kind }
{
    if kind != 0 {
        return Shape::Bytes;
    }
    match Fid(fid) {
        Fid::ICC => Shape::Record(Kind::Icc),
        Fid::IC => Shape::Record(Kind::Ic),
        Fid::APPLICATION => Shape::Record(Kind::ApplicationIdentification),
        Fid::EVENTS => Shape::Events,
        Fid::FAULTS => Shape::Faults,
        Fid::ACTIVITY => Shape::Days,
        Fid::VEHICLES => Shape::Vehicles,
        Fid::PLACES => Shape::Places,
        Fid::CURRENT_USE => Shape::Record(Kind::CurrentUse),
        Fid::CONTROL => Shape::Record(Kind::CardControl),
        Fid::DOWNLOAD => Shape::Record(Kind::CardDownload),
        Fid::IDENTIFICATION => Shape::Record(Kind::Identification),
        Fid::LICENCE => Shape::Record(Kind::Licence),
        Fid::CONDITIONS => Shape::Conditions,
        Fid::CARD_CERTIFICATE => Shape::Record(Kind::CardCertificate),
        Fid::CA_CERTIFICATE => Shape::Record(Kind::CardCertificate),
        _ => Shape::Bytes,
    }
}
