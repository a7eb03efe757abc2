//! The places, events and faults that a unit file tells, as marks of a picture.
ghost use Rattle.std.specs.Prelude.{◌≡◌, ◌+◌, ◌≤◌, ◌<◌, ◌++◌, ◌∷◌, [], ◌^◌, ℕ, List, length, map, drop, IfOk, IfErr};
ghost use Rattle.std.specs.Prelude.{OnOk};
ghost use Rattle.card_layout.specs.Images.{number_at};
ghost use Rattle.message_model.specs.Messages.{Message as FileMessage, DayMessage, EventMessage, ADay, AnEventList};
ghost use Rattle.unit_messages.specs.Reading.{BeginsWith};
ghost use Rattle.file_view.specs.Faults.{IfBadFile};
ghost use Rattle.file_view.specs.UnitFiles.{IsBadUnitFile};
ghost use Rattle.file_view.specs.Places.{ArePlaced, IsPlaced};
ghost use Rattle.unit_marks.specs.Marks.{kind_in, begin_in};
ghost use Rattle.unit_marks.specs.Entries.{TellsEntries, BeginWith, sign_of, mark_of, place_marks, event_marks};
ghost use Rattle.unit_marks.specs.Entries.{marks_told};

use crate::marks::{EVENT_BEGIN, byte_at};
use byteorder::{BigEndian, ByteOrder};
use file_view::{MessageAt, ViewFault, messages_at, part};
use message_model::sizes::{EVENT, FAULT, INSERTION, OVER, PLACE};
use std::alloc::{AllocError, Global};
use unit_messages::Request;
use view_model::{Mark, Sign};

/// The kinds of entries that are marks.
#[derive(Clone, Copy, Debug, PartialEq, Eq)]
pub enum Kind {
    Place,
    Event,
    Fault,
}

/// Where a place has its time, behind the card's number (Annex IB, Appendix 1, VuPlaceDailyWorkPeriodRecord).
pub const ENTRY_TIME: usize = 18;

/// Where it has its type.
pub const ENTRY_TYPE: usize = 22;

/// Where it has its country.
pub const COUNTRY: usize = 23;

/// Where the message of a day has its insertions, behind 76, its number, its date and its odometer.
const INSERTIONS: usize = 9;

/// Where the message of events has its faults, behind 76 and its number.
const FAULTS: usize = 2;

/// What stands between the events and the over speedings: the last control, the begin of the first over speeding, and
/// their number.
const CONTROL: usize = 9;

/// How many bytes a change word has.
const WORD: usize = 2;

/// The places, events and faults that a unit file tells, in the order of its messages.
///
/// # Errors
///
/// As those of `file_view::read_download`.
pub fn entry_marks(alloc: Global, b: &[u8]) -> Result<Vec<Mark>, ViewFault>
    requires { length b.now < 2 ^ 32 }
    ensures marks { IfOk result (λ marks. TellsEntries b.now marks.items) }
    ensures bad { IfErr result (λ fault. IfBadFile fault (λ place. IsBadUnitFile place b.now)) }
{
    let all = messages_at(alloc, b)?;
    let marks = marks_in(alloc, b, all.as_slice())?;
    Ok(marks)
}

/// Those of messages.
fn marks_in(alloc: Global, b: &[u8], all: &[MessageAt]) -> Result<Vec<Mark>, AllocError>
    requires { (messages : List FileMessage) × ArePlaced b.now all.now messages }
    ensures { (messages : List FileMessage) → ArePlaced b.now all.now messages
        → IfOk result (λ marks. marks.items ≡ marks_told messages) }
{
    let mut marks = Vec::new(alloc);
    for at in all {
        add_message(&mut marks, b, *at)?;
    }
    Ok(marks)
}

/// Adds those of a message.
fn add_message(marks: &mut Vec<Mark>, b: &[u8], at: MessageAt) -> Result<(), AllocError>
    requires { (m : FileMessage) × IsPlaced b.now at m }
    ensures { (m : FileMessage) → IsPlaced b.now at m
        → OnOk result (marks.new.items ≡ marks.old.items ++ marks_told (m ∷ [])) }
{
    match at.request {
        Request::Day(_date) => {
            add_places(marks, &b[at.place..])?;
            Ok(())
        }
        Request::Events => {
            add_events(marks, &b[at.place..])?;
            Ok(())
        }
        _ => Ok(()),
    }
}

/// Adds the places of the message of a day at the front.
fn add_places(marks: &mut Vec<Mark>, message: &[u8]) -> Result<(), AllocError>
    requires { (m : DayMessage) × BeginsWith (ADay m) message.now }
    ensures { (m : DayMessage) → BeginsWith (ADay m) message.now
        → OnOk result (marks.new.items ≡ marks.old.items ++ place_marks m) }
{
    let insertions = behind(message, INSERTIONS);
    let words = behind_many(insertions, INSERTION as usize);
    let places = behind_many(words, WORD);
    add_entries(marks, places, PLACE as usize, Kind::Place)?;
    Ok(())
}

/// Adds the faults, the events and the over speedings of the message at the front.
fn add_events(marks: &mut Vec<Mark>, message: &[u8]) -> Result<(), AllocError>
    requires { (m : EventMessage) × BeginsWith (AnEventList m) message.now }
    ensures { (m : EventMessage) → BeginsWith (AnEventList m) message.now
        → OnOk result (marks.new.items ≡ marks.old.items ++ event_marks m) }
{
    let faults = behind(message, FAULTS);
    let events = behind_few(faults, FAULT as usize);
    let control = behind_few(events, EVENT as usize);
    let overs = behind(control, CONTROL);
    add_entries(marks, faults, FAULT as usize, Kind::Fault)?;
    add_entries(marks, events, EVENT as usize, Kind::Event)?;
    add_entries(marks, overs, OVER as usize, Kind::Event)?;
    Ok(())
}

/// What stands behind so many bytes.
fn behind(bytes: &[u8], count: usize) -> &[u8]
    requires { count ≤ length bytes.now }
    ensures { result.now ≡ drop count bytes.now }
{
    &bytes[count..]
}

/// What stands behind the entries at the front, whose count has one byte.
fn behind_few(bytes: &[u8], size: usize) -> &[u8]
    requires few { size < 256 }
    requires entries { (entries : List (List ℕ)) × BeginWith 1 size entries bytes.now }
    ensures { (entries : List (List ℕ)) (begin : BeginWith 1 size entries bytes.now) → result.now ≡ begin.rest }
{
    let count = byte_at(bytes, 0) as usize;
    let end = 1 + size * count;
    behind(bytes, end)
}

/// The same of entries whose count has two bytes.
fn behind_many(bytes: &[u8], size: usize) -> &[u8]
    requires few { size < 256 }
    requires entries { (entries : List (List ℕ)) × BeginWith 2 size entries bytes.now }
    ensures { (entries : List (List ℕ)) (begin : BeginWith 2 size entries bytes.now) → result.now ≡ begin.rest }
{
    let count = short_at_front(bytes) as usize;
    let end = 2 + size * count;
    behind(bytes, end)
}

/// The number of two bytes at the front.
fn short_at_front(bytes: &[u8]) -> u16
    requires { 2 ≤ length bytes.now }
    ensures { result ≡ number_at bytes.now 0 2 }
{
    BigEndian::read_u16(&bytes[0..2])
}

/// Adds the marks of the entries at the front.
fn add_entries(
    marks: &mut Vec<Mark>,
    bytes: &[u8],
    size: usize,
    kind: Kind,
) -> Result<(), AllocError>
    requires few { size < 256 }
    requires long { 24 < size }
    requires entries { (entries : List (List ℕ)) × BeginWith 1 size entries bytes.now }
    ensures { (entries : List (List ℕ)) → BeginWith 1 size entries bytes.now
        → OnOk result (marks.new.items ≡ marks.old.items ++ map (mark_of kind) entries) }
{
    let count = byte_at(bytes, 0) as usize;
    for i in 0..count {
        let from = 1 + size * i;
        let entry = part(bytes, from, size);
        add_entry(marks, entry, kind)?;
    }
    Ok(())
}

/// Adds the mark of an entry.
fn add_entry(marks: &mut Vec<Mark>, entry: &[u8], kind: Kind) -> Result<(), AllocError>
    requires { 24 < length entry.now }
    ensures { OnOk result (marks.new.items ≡ marks.old.items ++ mark_of kind entry.now ∷ []) }
{
    marks.push(mark_of(kind, entry))?;
    Ok(())
}

/// The mark of an entry.
fn mark_of(kind: Kind, entry: &[u8]) -> Mark
    requires { 24 < length entry.now }
    ensures { result ≡ mark_of kind entry.now }
{
    match kind {
        Kind::Place => place_mark(entry),
        Kind::Event => event_mark(Sign::Event, entry),
        Kind::Fault => event_mark(Sign::Fault, entry),
    }
}

/// The mark of a place.
fn place_mark(entry: &[u8]) -> Mark
    requires { 24 < length entry.now }
    ensures { result ≡ mark_of Kind.Place entry.now }
{
    Mark {
        sign: sign_of(byte_at(entry, ENTRY_TYPE)),
        code: byte_at(entry, COUNTRY),
        second: BigEndian::read_u32(&entry[ENTRY_TIME..ENTRY_TIME + 4]),
    }
}

/// Whether a place begins a daily work period or ends one.
pub(crate) fn sign_of(entry_type: u8) -> Sign
    ensures { result ≡ sign_of entry_type }
{
    if entry_type % 2 == 0 {
        Sign::Begin
    } else {
        Sign::End
    }
}

/// The mark of an event or a fault.
fn event_mark(sign: Sign, entry: &[u8]) -> Mark
    requires { 24 < length entry.now }
    ensures { result ≡ record { sign = sign; code = kind_in entry.now; second = begin_in entry.now } }
{
    Mark {
        sign,
        code: byte_at(entry, 0),
        second: BigEndian::read_u32(&entry[EVENT_BEGIN..EVENT_BEGIN + 4]),
    }
}
