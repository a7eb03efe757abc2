//! The places, events and faults that a card file tells, as marks of a picture.
ghost use Rattle.std.specs.Prelude.{◌≡◌, ◌<◌, ◌≤◌, ◌^◌, ◌++◌, ℕ, List, IfOk, IfErr, OnOk, length, drop, slice_index};
ghost use Rattle.byteorder.specs.Endian.{big_number};
ghost use Rattle.card_layout.specs.Images.{number_at};
ghost use Rattle.card_image.specs.CardFile.{FileEntry};
ghost use Rattle.file_view.specs.Faults.{IfBadFile};
ghost use Rattle.file_view.specs.CardFiles.{IsBadCardFile};
ghost use Rattle.file_view.specs.Files.{AreFiles};
ghost use Rattle.unit_marks.specs.Cards.{TellsCardEntries, card_mark, card_width, files_marks, if_written, kind_told};
ghost use Rattle.unit_marks.specs.Cards.{list_marks, pointer_width, value_marks};

use crate::entries::{Kind, sign_of};
use crate::marks::byte_at;
use byteorder::{BigEndian, ByteOrder};
use card_layout::Fid;
use file_view::{ViewFault, file_behind, file_len, file_value, read_card_file};
use std::alloc::{AllocError, Global};
use view_model::{Mark, Sign};

/// How many bytes a place has (Annex IB, Appendix 1, PlaceRecord).
pub const CARD_PLACE: usize = 10;

/// How many bytes an event or a fault has (Annex IB, Appendix 1, CardEventRecord, CardFaultRecord).
pub const CARD_EVENT: usize = 24;

/// How many bytes stand in front of the places: the pointer to the newest of them.
pub const POINTER: usize = 1;

/// Where an event has its begin, behind its type.
pub const CARD_EVENT_BEGIN: usize = 1;

/// Where a place has its time (Annex IB, Appendix 1, PlaceRecord).
pub const CARD_ENTRY_TIME: usize = 0;

/// Where it has its type.
pub const CARD_ENTRY_TYPE: usize = 4;

/// Where it has its country.
pub const CARD_COUNTRY: usize = 5;

/// The places, events and faults that a card file tells, in the order of its files.
///
/// # Errors
///
/// As those of `file_view::read_card_file`.
pub fn card_marks(alloc: Global, b: &[u8]) -> Result<Vec<Mark>, ViewFault>
    requires { length b.now < 2 ^ 32 }
    ensures marks { IfOk result (λ marks. TellsCardEntries b.now marks.items) }
    ensures bad { IfErr result (λ fault. IfBadFile fault (λ place. IsBadCardFile place b.now)) }
{
    let _history = read_card_file(alloc, b)?;
    let marks = marks_of_files(alloc, b)?;
    Ok(marks)
}

/// Those of its files.
fn marks_of_files(alloc: Global, b: &[u8]) -> Result<Vec<Mark>, AllocError>
    requires { (entries : List FileEntry) × AreFiles entries b.now }
    ensures { (entries : List FileEntry) → AreFiles entries b.now
        → IfOk result (λ marks. marks.items ≡ files_marks entries) }
{
    let mut marks = Vec::new(alloc);
    let mut rest = b;
    while rest.len() != 0 {
        let len = file_len(rest);
        let told = kind_at_front(rest);
        let value = file_value(rest, len);
        let behind = file_behind(rest, len);
        add_file(&mut marks, told, value)?;
        rest = behind;
    }
    Ok(marks)
}

/// What the records of the file at the front are.
fn kind_at_front(rest: &[u8]) -> Option<Kind>
    requires { 5 ≤ length rest.now }
    ensures { result ≡ kind_told (big_number 2 rest.now) (slice_index rest.now 2) }
{
    kind_told(BigEndian::read_u16(rest), rest[2])
}

/// What a file's records are, by its identifier; a signature has none.
fn kind_told(fid: u16, kind: u8) -> Option<Kind>
    ensures { result ≡ kind_told fid kind }
{
    if kind != 0 {
        return None;
    }
    match Fid(fid) {
        Fid::EVENTS => Some(Kind::Event),
        Fid::FAULTS => Some(Kind::Fault),
        Fid::PLACES => Some(Kind::Place),
        _ => None,
    }
}

/// Adds the marks of a file's value.
fn add_file(marks: &mut Vec<Mark>, told: Option<Kind>, value: &[u8]) -> Result<(), AllocError>
    ensures { OnOk result (marks.new.items ≡ marks.old.items ++ value_marks told value.now) }
{
    match told {
        Some(kind) => add_records(marks, kind, behind_pointer(kind, value)),
        None => Ok(()),
    }
}

/// A value behind its pointer, if it has one.
fn behind_pointer(kind: Kind, value: &[u8]) -> &[u8]
    ensures { result.now ≡ drop (pointer_width kind) value.now }
{
    let (_pointer, behind) = value.split_at(pointer_width(kind).min(value.len()));
    behind
}

/// How many bytes stand in front of the records of a kind.
fn pointer_width(kind: Kind) -> usize
    ensures { result ≡ pointer_width kind }
{
    match kind {
        Kind::Place => POINTER,
        Kind::Event => 0,
        Kind::Fault => 0,
    }
}

/// How many bytes a record has.
fn card_width(kind: Kind) -> usize
    ensures width { result ≡ card_width kind }
    ensures most_read { 10 ≤ result }
{
    match kind {
        Kind::Place => CARD_PLACE,
        Kind::Event => CARD_EVENT,
        Kind::Fault => CARD_EVENT,
    }
}

/// Adds the marks of as many records as are there whole.
fn add_records(marks: &mut Vec<Mark>, kind: Kind, bytes: &[u8]) -> Result<(), AllocError>
    ensures { OnOk result (marks.new.items ≡ marks.old.items ++ list_marks kind bytes.now) }
{
    let width = card_width(kind);
    let mut rest = bytes;
    let mut left = bytes.len() / width;
    while left != 0 {
        let (entry, behind) = rest.split_at(width);
        add_written(marks, card_mark(kind, entry))?;
        rest = behind;
        left -= 1;
    }
    Ok(())
}

/// Adds the mark of a record that was written.
fn add_written(marks: &mut Vec<Mark>, mark: Mark) -> Result<(), AllocError>
    ensures { OnOk result (marks.new.items ≡ marks.old.items ++ if_written mark) }
{
    if mark.second != 0 {
        marks.push(mark)?;
    }
    Ok(())
}

/// The mark of a record.
fn card_mark(kind: Kind, entry: &[u8]) -> Mark
    requires { 10 ≤ length entry.now }
    ensures { result ≡ card_mark kind entry.now }
{
    match kind {
        Kind::Place => card_place(entry),
        Kind::Event => card_event(Sign::Event, entry),
        Kind::Fault => card_event(Sign::Fault, entry),
    }
}

/// The mark of a place.
fn card_place(entry: &[u8]) -> Mark
    requires { 10 ≤ length entry.now }
    ensures { result ≡ card_mark Kind.Place entry.now }
{
    Mark {
        sign: sign_of(byte_at(entry, CARD_ENTRY_TYPE)),
        code: byte_at(entry, CARD_COUNTRY),
        second: BigEndian::read_u32(&entry[CARD_ENTRY_TIME..CARD_ENTRY_TIME + 4]),
    }
}

/// The mark of an event or a fault.
fn card_event(sign: Sign, entry: &[u8]) -> Mark
    requires { 10 ≤ length entry.now }
    ensures { result ≡ record {
      sign = sign;
      code = number_at entry.now 0 1;
      second = number_at entry.now CARD_EVENT_BEGIN 4;
    } }
{
    Mark {
        sign,
        code: byte_at(entry, 0),
        second: BigEndian::read_u32(&entry[CARD_EVENT_BEGIN..CARD_EVENT_BEGIN + 4]),
    }
}
