//! The string of days of a card, record by record (Annex IB, Appendix 1, CardDriverActivity).
ghost use Rattle.std.specs.Prelude.{◌≡◌, ◌==◌, ◌&&◌, ◌+◌, ◌-◌, ◌<◌, ◌≤◌, ◌++◌, not, true, nat_lt, if◌then◌else◌, IfOk};
ghost use Rattle.std.specs.Prelude.{OnOk, length};
ghost use Rattle.file_view.specs.Showing.{before_last};
ghost use Rattle.json.specs.Json.{array};
ghost use Rattle.json.specs.Tree.{json_tokens};
ghost use Rattle.file_json.specs.Days.{AreBehind, circle_from, day_len, day_shown, days_from, days_shown, far_between};
ghost use Rattle.file_json.specs.Days.{is_day, items_behind, items_count, newest_items, stands_at, string_shown};

use crate::parts::write_changes;
use byteorder::{BigEndian, ByteOrder};
use card_model::lengths::{DAY_HEAD, DAY_LEAST};
use json_fields::{Kind, Name, TextWriter, write_fields};
use std::alloc::{AllocError, Global};

/// The head of a record; its changes follow.
const HEAD: usize = DAY_HEAD as usize;

/// The least that a record has: its head and one change.
const LEAST: usize = DAY_LEAST as usize;

/// Where the oldest record of a string stands, and its newest.
#[derive(Clone, Copy)]
pub struct Pointers {
    pub oldest: usize,
    pub newest: usize,
}

/// Records that stand from a place on: at most so many, the last of them so far behind the place.
#[derive(Clone, Copy)]
pub struct DaysAt {
    pub place: usize,
    pub far: usize,
    pub most: usize,
}

/// Writes the records of a string as a JSON array, from the oldest on: all, or the newest so many.
pub(crate) fn write_string(
    alloc: Global,
    writer: &mut TextWriter,
    last: Option<u32>,
    pointers: Pointers,
    string: &[u8],
) -> Result<(), AllocError>
    ensures { OnOk result (writer.new ≡ writer.old
        ++ json_tokens (string_shown last pointers.oldest pointers.newest string.now)) }
{
    let circle = circle_from(alloc, string, pointers.oldest)?;
    let far = far_between(pointers.oldest, pointers.newest, string.len());
    let all = DaysAt {
        place: 0,
        far,
        most: string.len(),
    };
    write_newest(alloc, writer, last, all, circle.as_slice())
}

/// Writes all of these records, or the newest so many.
fn write_newest(
    alloc: Global,
    writer: &mut TextWriter,
    last: Option<u32>,
    all: DaysAt,
    circle: &[u8],
) -> Result<(), AllocError>
    requires { all.place ≤ length circle.now }
    ensures { OnOk result (writer.new ≡ writer.old
        ++ json_tokens (array (newest_items last (days_from all circle.now)))) }
{
    let days = newest_days(circle, all, last);
    let (_front, rest) = circle.split_at(days.place);
    write_days_of(alloc, writer, days.most, days.far, rest)
}

/// Where the newest so many of these records stand, or all.
fn newest_days(circle: &[u8], all: DaysAt, last: Option<u32>) -> DaysAt
    requires { all.place ≤ length circle.now }
    ensures days { days_from result circle.now ≡ newest_items last (days_from all circle.now) }
    ensures within { result.place ≤ length circle.now }
{
    let count = count_days(circle, all);
    let skip = first_of(count, last);
    behind_days(circle, all, skip)
}

/// Which of so many days is the first that is told.
pub(crate) fn first_of(count: usize, last: Option<u32>) -> usize
    ensures { result ≡ before_last last count }
{
    match last {
        Some(n) => count.saturating_sub(n as usize),
        None => 0,
    }
}

/// How many records there are.
fn count_days(circle: &[u8], all: DaysAt) -> usize
    requires { all.place ≤ length circle.now }
    ensures { result ≡ items_count (days_from all circle.now) }
{
    let mut at = all;
    let mut count = 0;
    'walk: while stands_at(circle, at) {
        let next = behind_one(circle, at);
        at = next;
        count += 1;
    }
    count
}

/// Where the records behind the first so many stand.
fn behind_days(circle: &[u8], all: DaysAt, skip: usize) -> DaysAt
    requires { all.place ≤ length circle.now }
    ensures days { days_from result circle.now ≡ items_behind skip (days_from all circle.now) }
    ensures within { result.place ≤ length circle.now }
{
    let mut at = all;
    let mut left = skip;
    'walk: while goes_on(circle, at, left) {
        let next = behind_one(circle, at);
        at = next;
        left -= 1;
    }
    at
}

/// Whether a record is there, of which so many are left.
fn goes_on(circle: &[u8], at: DaysAt, left: usize) -> bool
    requires { at.place ≤ length circle.now }
    ensures { result ≡ not (left == 0) && stands_at at circle.now }
{
    left != 0 && stands_at(circle, at)
}

/// Whether a record is there.
fn stands_at(circle: &[u8], at: DaysAt) -> bool
    requires { at.place ≤ length circle.now }
    ensures { result ≡ stands_at at circle.now }
{
    let (_front, rest) = circle.split_at(at.place);
    is_left(at.most, rest)
}

/// Where the records behind the first one stand.
fn behind_one(circle: &[u8], at: DaysAt) -> DaysAt
    requires within { at.place ≤ length circle.now }
    requires there { stands_at at circle.now ≡ true }
    ensures { AreBehind circle.now at result }
{
    let (_front, rest) = circle.split_at(at.place);
    let len = day_len(rest);
    let place = at.place + len;
    let far = far_after(at.far, len);
    let most = left_after(at.most, at.far, len);
    DaysAt { place, far, most }
}

/// The bytes of a string, read once round from a place on.
fn circle_from(alloc: Global, string: &[u8], place: usize) -> Result<Vec<u8>, AllocError>
    ensures { IfOk result (λ circle. circle.items ≡ circle_from place string.now) }
{
    let (front, behind) = string.split_at(place.min(string.len()));
    let mut circle = Vec::new(alloc);
    circle.extend_from_slice(behind)?;
    circle.extend_from_slice(front)?;
    Ok(circle)
}

/// How far the newest record stands behind the oldest, round the end.
fn far_between(oldest: usize, newest: usize, size: usize) -> usize
    ensures { result ≡ far_between oldest newest size }
{
    if newest < oldest {
        size.saturating_sub(oldest - newest)
    } else {
        newest - oldest
    }
}

/// Writes records one after the other as a JSON array, the last of them so far from the front; at most so many.
fn write_days_of(
    alloc: Global,
    writer: &mut TextWriter,
    most: usize,
    far: usize,
    circle: &[u8],
) -> Result<(), AllocError>
    ensures { OnOk result (writer.new ≡ writer.old ++ json_tokens (array (days_shown most far circle.now))) }
{
    writer.begin_array()?;
    let mut rest = circle;
    let mut far = far;
    let mut left = most;
    'days: while is_left(left, rest) {
        let len = day_len(rest);
        let (day, behind) = rest.split_at(len);
        write_day(alloc, writer, day)?;
        left = left_after(left, far, len);
        far = far_after(far, len);
        rest = behind;
    }
    writer.end_array()?;
    Ok(())
}

/// Whether a record is left.
fn is_left(left: usize, rest: &[u8]) -> bool
    ensures { result ≡ not (left == 0) && is_day rest.now }
{
    left != 0 && is_day(rest)
}

/// How many are left behind a record of so many bytes: none where it is the last.
fn left_after(left: usize, far: usize, len: usize) -> usize
    requires { 0 < left }
    ensures { result ≡ (if nat_lt far len then 0 else left - 1) }
{
    if far < len { 0 } else { left - 1 }
}

/// How far the last record stands behind one of so many bytes.
fn far_after(far: usize, len: usize) -> usize
    ensures { result ≡ far - len }
{
    far.saturating_sub(len)
}

/// Whether a record stands at the front.
fn is_day(bytes: &[u8]) -> bool
    ensures { result ≡ is_day bytes.now }
{
    if bytes.len() < LEAST {
        return false;
    }
    let len = day_len(bytes);
    len >= LEAST && len <= bytes.len()
}

/// The length that a record tells.
fn day_len(bytes: &[u8]) -> usize
    requires { 4 ≤ length bytes.now }
    ensures { result ≡ day_len bytes.now }
{
    BigEndian::read_u16(&bytes[2..]) as usize
}

/// Writes a record: its head, and its changes of activity.
fn write_day(alloc: Global, writer: &mut TextWriter, day: &[u8]) -> Result<(), AllocError>
    requires { 12 ≤ length day.now }
    ensures { OnOk result (writer.new ≡ writer.old ++ json_tokens (day_shown day.now)) }
{
    writer.begin_object()?;
    write_fields(alloc, writer, Kind::DailyRecord.fields(), day)?;
    writer.key(Name::ActivityChangeInfos.text())?;
    write_changes(writer, true, (day.len() - HEAD) / 2, &day[HEAD..])?;
    writer.end_object()?;
    Ok(())
}
