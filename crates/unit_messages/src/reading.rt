//! Messages of a download, read by their grammar (Annex IB, Appendix 7, 2.2.6).
ghost use Rattle.std.specs.Prelude.{ℕ, ◌^◌, ◌≡◌, ◌≤◌, ◌<◌, ◌+◌, ◌*◌, ◌==◌, length, IfOk, IfErr, IfSome, Some};
ghost use Rattle.card_layout.specs.Images.{number_at};
ghost use Rattle.unit_model.specs.Image.{words_at};
ghost use Rattle.message_model.specs.Messages.{Overview, DayMessage, AnOverview, ADay};
ghost use Rattle.unit_messages.specs.Reading.{BeginsWith, IsReadAs, BeginsNoMessage, IsOverviewRead};
ghost use Rattle.unit_messages.specs.Parts.{parts_end, read_as, words_place, word_count, are_words, day_at_front};
ghost use Rattle.unit_messages.specs.Parts.{numbered_at_front, at_front};

use crate::parts::{
    DAY_PARTS, EVENT_PARTS, HEADER, OVERVIEW_PARTS, Part, SPEED_PARTS, TECHNICAL_PARTS, four_in,
    parts_end, two_in,
};
use link_model::Request;
use link_model::services::{
    DAY_NUMBER, DAY_SECONDS, EVENTS_NUMBER, MESSAGE, OVERVIEW_NUMBER, SPEED_NUMBER,
    TECHNICAL_NUMBER,
};
use tacho_types::{Registration, TimeReal, read_registration, read_time};

/// A message at the front of bytes. Its length counts 76 and the number, too.
#[derive(Clone, Copy, Debug, PartialEq, Eq)]
pub struct MessageRead {
    /// The request that it answers.
    pub request: Request,
    /// Its length in bytes.
    pub len: u32,
}

/// No front of the bytes is a message: the place is 0.
#[derive(Clone, Copy, Debug, PartialEq, Eq)]
pub struct BadMessage(pub u32);

/// What an overview tells: the vehicle, the unit's time, and the period that can be downloaded.
#[derive(Clone, Copy, Debug, PartialEq, Eq)]
pub struct OverviewRead {
    /// The vehicle's registration.
    pub registration: Registration,
    /// The unit's time.
    pub now: TimeReal,
    /// The begin of the period.
    pub begin: TimeReal,
    /// The end of the period.
    pub end: TimeReal,
}

/// Reads the message at the front of the bytes, whatever follows it (Appendix 7, 2.2.6). A message of a day is one only
/// where its date is a day's first second and each of its change words stands in the day.
///
/// # Errors
///
/// `BadMessage` with the place 0 exactly where no front of the bytes is a message.
pub fn read_message(b: &[u8]) -> Result<MessageRead, BadMessage>
    ensures read { IfOk result (IsReadAs b.now) }
    ensures inside { IfOk result (λ read. read.len ≤ length b.now) }
    ensures some { IfOk result (λ read. 0 < read.len) }
    ensures bad { IfErr result (λ fault. (fault.0 ≡ 0) × BeginsNoMessage b.now) }
{
    match at_front(b) {
        Some(read) => Ok(read),
        None => Err(BadMessage(0)),
    }
}

/// The message at the front.
fn at_front(b: &[u8]) -> Option<MessageRead>
    ensures { result ≡ at_front b.now }
{
    if b.len() < HEADER || b[0] != MESSAGE {
        return None;
    }
    let number = b[1];
    numbered_at_front(b, number)
}

/// The message of this number at the front.
fn numbered_at_front(b: &[u8], number: u8) -> Option<MessageRead>
    requires { 2 ≤ length b.now }
    ensures { result ≡ numbered_at_front b.now number }
{
    match number {
        OVERVIEW_NUMBER => read_as(Request::Overview, parts_end(b, &OVERVIEW_PARTS)),
        DAY_NUMBER => day_at_front(b),
        EVENTS_NUMBER => read_as(Request::Events, parts_end(b, &EVENT_PARTS)),
        SPEED_NUMBER => read_as(Request::Speed, parts_end(b, &SPEED_PARTS)),
        TECHNICAL_NUMBER => read_as(Request::Technical, parts_end(b, &TECHNICAL_PARTS)),
        _ => None,
    }
}

/// A message that is read, by where its parts end.
fn read_as(request: Request, end: Option<usize>) -> Option<MessageRead>
    requires { IfSome end (λ end. end < 2 ^ 32) }
    ensures { result ≡ read_as request end }
{
    let end = end?;
    Some(MessageRead {
        request,
        len: end as u32,
    })
}

/// The message of a day at the front.
fn day_at_front(b: &[u8]) -> Option<MessageRead>
    requires { 2 ≤ length b.now }
    ensures { result ≡ day_at_front b.now (parts_end b.now DAY_PARTS 2) }
{
    match parts_end(b, &DAY_PARTS) {
        Some(end) => day_that_ends(b, end),
        None => None,
    }
}

/// The message of a day whose parts end there.
fn day_that_ends(b: &[u8], end: usize) -> Option<MessageRead>
    requires some { 2 ≤ length b.now }
    requires ends { parts_end b.now DAY_PARTS 2 ≡ Some end }
    requires few { end < 2 ^ 32 }
    ensures { result ≡ day_at_front b.now (Some end) }
{
    let (place, count) = words_of(b);
    let date = four_in(b, HEADER);
    if date % DAY_SECONDS == 0 && are_words(b, place as usize, count as usize) {
        read_as(Request::Day(date), Some(end))
    } else {
        None
    }
}

/// The place of a day's first word, and how many words it has.
fn words_of(b: &[u8]) -> (u32, u16)
    requires some { 2 ≤ length b.now }
    requires ends { (end : ℕ) × (parts_end b.now DAY_PARTS 2 ≡ Some end) }
    ensures place { result.0 ≡ words_place b.now }
    ensures count { result.1 ≡ word_count b.now }
    ensures inside { result.0 + 2 * result.1 ≤ length b.now }
    ensures behind { 13 ≤ result.0 }
{
    let insertions = two_in(b, 9);
    let place = 13 + 129 * u32::from(insertions);
    let count = two_in(b, place as usize - 2);
    (place, count)
}

/// Whether each of so many words from a place on stands in a day.
fn are_words(b: &[u8], place: usize, count: usize) -> bool
    requires { place + 2 * count ≤ length b.now }
    ensures { result ≡ are_words (words_at b.now place count) }
{
    for nth in 0..count {
        let word = two_in(b, place + 2 * nth);
        if word % 2048 >= 1440 {
            return false;
        }
    }
    true
}

/// What the overview at the front of the bytes tells (Appendix 7, 2.2.6.2).
pub fn overview(b: &[u8]) -> OverviewRead
    requires { (m : Overview) × BeginsWith (AnOverview m) b.now }
    ensures { (m : Overview) → BeginsWith (AnOverview m) b.now → IsOverviewRead m result }
{
    let registration = read_registration(&b[407..422]);
    let now = read_time(&b[422..426]);
    let begin = read_time(&b[426..430]);
    let end = read_time(&b[430..434]);
    OverviewRead {
        registration,
        now,
        begin,
        end,
    }
}

/// The place of the first change word in the message of a day at the front of the bytes, and how many words it has
/// (Appendix 7, 2.2.6.3).
pub fn day_words(b: &[u8]) -> (u32, u16)
    requires { (m : DayMessage) × BeginsWith (ADay m) b.now }
    ensures words { (m : DayMessage) → BeginsWith (ADay m) b.now
        → (result.1 ≡ length m.words) × (m.words ≡ words_at b.now result.0 result.1) }
    ensures inside { result.0 + 2 * result.1 ≤ length b.now }
{
    words_of(b)
}
