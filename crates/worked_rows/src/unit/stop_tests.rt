//! Each call of a `keep` and of a `mend` fails in turn, in each manner, and the unit goes on after it.
ghost use Rattle.std.specs.Prelude.{◌≤◌, IfOk};
ghost use Rattle.tach_media.specs.MemMedium.{memory_state};
ghost use Rattle.unit_model.specs.Image.{IsUnit};
ghost use Rattle.unit_minutes.specs.Reading.{IsSlotPlace};

use activity_codec::Activity;
use std::alloc::{AllocError, Global};
use std::process::Abort;
use std::test::Fail;
use tach_media::{Left, Medium, MemMedium, Memory};
use tacho_types::{DAYS, Odometer};
use unit_minutes::{Journal, KeptMinute, State, UnitDay};
use unit_model::layout::IMAGE_SIZE;
use worked_media::image::{DAY, empty, put, put_head, put_word};
use worked_media::{Room, one_stop, unit_with};

/// 00:00 of 2010-02-27, as the number of its minute.
pub const FIRST: u32 = 14667 * 1440;

const REST: State = State {
    act: Activity::Rest,
    present: false,
};

const DRIVES: State = State {
    act: Activity::Driving,
    present: true,
};

const AVAILABLE: State = State {
    act: Activity::Available,
    present: true,
};

/// What is kept: on a day that goes on, behind a gap, behind 23:59, on an empty unit, on the 367th day, and as the last
/// words of a day with 2880.
#[derive(Clone, Copy, Debug, PartialEq, Eq)]
enum Row {
    SameDay,
    Gap,
    Midnight,
    FirstDay,
    FurtherDay,
    FullDay,
}

impl Row {
    /// The unit on which the minute is kept.
    fn image(self, alloc: Global) -> Result<Vec<u8>, AllocError> {
        match self {
            Row::SameDay => one_day(alloc, FIRST + 100),
            Row::Gap => one_day(alloc, FIRST + 100),
            Row::Midnight => one_day(alloc, FIRST + 1439),
            Row::FirstDay => empty(alloc, 0, 1000, 0),
            Row::FurtherDay => all_days(alloc),
            Row::FullDay => full_day(alloc),
        }
    }

    /// The minute that is kept.
    fn minute(self) -> KeptMinute {
        let (minute, driver, codriver) = match self {
            Row::SameDay => (FIRST + 101, AVAILABLE, AVAILABLE),
            Row::Gap => (FIRST + 105, DRIVES, REST),
            Row::Midnight => (FIRST + 1440, DRIVES, AVAILABLE),
            Row::FirstDay => (FIRST + 600, DRIVES, REST),
            Row::FurtherDay => (FIRST + 366 * 1440 + 5, DRIVES, AVAILABLE),
            Row::FullDay => (FIRST + 1439, DRIVES, AVAILABLE),
        };
        KeptMinute {
            minute,
            driver,
            codriver,
            odometer: Odometer(1001),
        }
    }
}

/// 2010-02-27 up to a minute: no card until 00:10, then the driver drives and the co-driver is available.
pub fn one_day(alloc: Global, kept: u32) -> Result<Vec<u8>, AllocError> {
    let mut image = empty(alloc, kept, 1000, 0)?;
    put_day(image.as_mut_slice(), 0, 14667);
    Ok(image)
}

fn put_day(image: &mut [u8], index: usize, day: u32) {
    if day < DAYS {
        put_head(image, index, DAY * day, 900, 4);
    }
    put_word(image, index, 0, 0x2000);
    put_word(image, index, 1, 0xA000);
    put_word(image, index, 2, 0x580A);
    put_word(image, index, 3, 0xC80A);
}

/// The 366 days from 2010-02-27 on, the newest up to 12:00; it stands at index 100.
fn all_days(alloc: Global) -> Result<Vec<u8>, AllocError> {
    let mut image = empty(alloc, FIRST + 365 * 1440 + 720, 1000, 100)?;
    for index in 0..366 {
        let day = 14667 + (index as u32 + 265) % 366;
        put_day(image.as_mut_slice(), index, day);
    }
    Ok(image)
}

/// 2010-02-27 up to 23:58, both states changed at each minute.
fn full_day(alloc: Global) -> Result<Vec<u8>, AllocError> {
    let mut image = empty(alloc, FIRST + 1438, 1000, 0)?;
    put_head(image.as_mut_slice(), 0, DAY * 14667, 900, 2878);
    for minute in 0..1439 {
        let word = minute as u16;
        let odd = word % 2;
        put_word(image.as_mut_slice(), 0, 2 * minute, odd * 0x1800 + word);
        put_word(
            image.as_mut_slice(),
            0,
            2 * minute + 1,
            0x8000 + odd * 0x0800 + word,
        );
    }
    Ok(image)
}

/// 2010-02-27 up to 00:20, and what a stop may have left behind it: words of 00:21, a later day, and two cells of 00:21
/// and 00:23; the cell of 00:20 is not later.
fn with_later(alloc: Global) -> Result<Vec<u8>, AllocError> {
    let mut image = one_day(alloc, FIRST + 20)?;
    let slice = image.as_mut_slice();
    put_head(slice, 0, DAY * 14667, 900, 6);
    put_word(slice, 0, 4, 0x1015);
    put_word(slice, 0, 5, 0x9015);
    put_head(slice, 1, DAY * 14668, 1000, 2);
    put_word(slice, 1, 0, 0x2000);
    put_word(slice, 1, 1, 0xA000);
    put(slice, 1024, &[0, 0, 0, 1]);
    put(slice, 648, &(FIRST + 20).to_be_bytes());
    put(slice, 654, &(FIRST + 21).to_be_bytes());
    put(slice, 1002, &(FIRST + 23).to_be_bytes());
    Ok(image)
}

/// Room for the writes of a row.
const ROOM: Room = Room {
    writes: 200,
    bytes: 1000,
};

/// A unit with this image, whose call of that number fails so.
pub fn unit(alloc: Global, image: Vec<u8>, call: u64, left: Left) -> Result<MemMedium, Memory>
    ensures { IfOk result (λ unit. IsUnit (memory_state unit.log unit.counts)) }
{
    unit_with(alloc, image, ROOM, one_stop(alloc, call, left)?)
}

/// A word of a recorded day.
fn word(journal: &Journal, unit: &mut MemMedium, day: &UnitDay, index: u16) -> Result<u16, Fail>
    requires place { IsSlotPlace day.now.place }
    requires few { day.now.words ≤ 2880 }
{
    if unit.size() != IMAGE_SIZE || index >= day.words {
        return Err(Fail::from("no word"));
    }
    Ok(journal.word(unit, day, index)?)
}

/// Adds a day's date and its words.
fn push_words(
    list: &mut Vec<u32>,
    journal: &Journal,
    unit: &mut MemMedium,
    day: &UnitDay,
) -> Result<(), Fail>
    requires place { IsSlotPlace day.now.place }
    requires few { day.now.words ≤ 2880 }
{
    list.push(day.date.0)?;
    for index in 0..day.words {
        let word = word(journal, unit, day, index)?;
        list.push(word as u32)?;
    }
    Ok(())
}

/// Adds a recorded day, by its number.
fn push_day(
    list: &mut Vec<u32>,
    journal: &Journal,
    unit: &mut MemMedium,
    nth: u16,
) -> Result<(), Fail> {
    if unit.size() != IMAGE_SIZE || nth >= journal.days() {
        return Err(Fail::from("no day"));
    }
    let day = journal.day_at(unit, nth)?;
    push_words(list, journal, unit, &day)
}

/// The recorded days, oldest first: of each its date, then its words.
fn recorded(alloc: Global, unit: &mut MemMedium) -> Result<Vec<u32>, Fail> {
    if unit.size() != IMAGE_SIZE {
        return Err(Fail::from("no unit"));
    }
    let journal = Journal::load(unit)?;
    let mut list = Vec::new(alloc);
    for nth in 0..journal.days() {
        push_day(&mut list, &journal, unit, nth)?;
    }
    Ok(list)
}

/// Loads a unit, mends it, and keeps a minute: the number of the first call of the `keep`, and whether it was `Ok`.
fn keep(unit: &mut MemMedium, kept: &KeptMinute) -> Result<(u64, bool), Fail> {
    if unit.size() != IMAGE_SIZE {
        return Err(Fail::from("no unit"));
    }
    let mut journal = Journal::load(unit)?;
    journal.mend(unit)?;
    let first = unit.calls();
    if kept.minute < 1440 || kept.minute > 71582788 || kept.odometer.0 > 9999999 {
        return Err(Fail::from("no minute"));
    }
    if kept.minute <= journal.last_kept() {
        return Ok((first, true));
    }
    Ok((first, journal.keep(unit, kept).is_ok()))
}

/// What a `keep` that is not stopped does: its first call, the one behind its last, and the days before and after it.
#[derive(Drop)]
struct Whole {
    first: u64,
    end: u64,
    old: Vec<u32>,
    new: Vec<u32>,
}

fn keep_whole(alloc: Global, unit: &mut MemMedium, kept: &KeptMinute) -> Result<Whole, Fail> {
    let old = recorded(alloc, &mut *unit)?;
    let before = unit.calls();
    let (first, _) = keep(&mut *unit, kept)?;
    let end = unit.calls();
    if first < before || end < before {
        return Err(Fail::from("too many calls"));
    }
    let new = recorded(alloc, unit)?;
    Ok(Whole {
        first: first - before,
        end: end - before,
        old,
        new,
    })
}

fn kept_whole(alloc: Global, row: Row) -> Result<Whole, Fail> {
    let mut unit = unit(alloc, row.image(alloc)?, u64::MAX, Left::Before)?;
    keep_whole(alloc, &mut unit, &row.minute())
}

/// A `keep` of which a call may stop, and what is found behind it: whether it was `Ok`, the days that the stop leaves,
/// and those once it was kept again.
fn keep_again(
    alloc: Global,
    unit: &mut MemMedium,
    kept: &KeptMinute,
) -> Result<(bool, Vec<u32>, Vec<u32>), Fail> {
    let (_, is_ok) = keep(&mut *unit, kept)?;
    unit.revive()?;
    let found = recorded(alloc, &mut *unit)?;
    keep(&mut *unit, kept)?;
    let again = recorded(alloc, unit)?;
    Ok((is_ok, found, again))
}

/// The same of a row, stopped at this call.
fn kept_again(
    alloc: Global,
    row: Row,
    call: u64,
    left: Left,
) -> Result<(bool, Vec<u32>, Vec<u32>), Fail> {
    let mut unit = unit(alloc, row.image(alloc)?, call, left)?;
    keep_again(alloc, &mut unit, &row.minute())
}

/// The days without the oldest, where the next one takes its place; it has a date and four words.
fn given_up(row: Row, old: &[u32]) -> &[u32] {
    if row == Row::FurtherDay && old.len() > 5 {
        return &old[5..];
    }
    old
}

/// A stop at a call, in a manner; and whether the minute counts then, and the days before it do not.
#[derive(Clone, Copy)]
struct Stop {
    call: u64,
    left: Left,
    counts: bool,
}

fn stop_at(call: u64, left: Left, counts: bool) -> Stop {
    Stop { call, left, counts }
}

/// That this stop leaves the days before, or those with the minute where it may count, and that it can be kept again.
fn check_stop(
    rt: &(impl Abort + AllocGlobal),
    row: Row,
    stop: Stop,
    whole: &Whole,
) -> Result<(), Fail> {
    let (is_ok, found, again) = kept_again(rt.alloc(), row, stop.call, stop.left)?;
    let is_left = is_left(row, found.as_slice(), whole, stop.counts);
    let is_new = again.as_slice() == whole.new.as_slice();
    assert_eq!(rt; (is_ok, is_left, is_new), (false, true, true));
    Ok(())
}

/// Whether a stop may leave these days.
fn is_left(row: Row, found: &[u32], whole: &Whole, counts: bool) -> bool {
    let (old, new) = (whole.old.as_slice(), whole.new.as_slice());
    if counts {
        return found == new;
    }
    found == old || found == given_up(row, old)
}

/// Stops a `keep` at each of its calls in each manner; its last call is the write of the last-kept minute.
fn check_stops(rt: &(impl Abort + AllocGlobal), row: Row, whole: &Whole) -> Result<(), Fail> {
    for call in whole.first..whole.end {
        let last = call + 1 == whole.end;
        check_stop(rt, row, stop_at(call, Left::Before, false), whole)?;
        check_stop(rt, row, stop_at(call, Left::After, last), whole)?;
        check_stop(rt, row, stop_at(call, Left::Torn(0xFF), false), whole)?;
    }
    Ok(())
}

/// The same of a row, whose `keep` makes so many calls.
fn check_row(rt: &(impl Abort + AllocGlobal), row: Row, calls: u64) -> Result<(), Fail> {
    let whole = kept_whole(rt.alloc(), row)?;
    let differs = whole.old.as_slice() != whole.new.as_slice();
    let made = whole.end.checked_sub(whole.first);
    assert_eq!(rt; (differs, made), (true, Some(calls)));
    check_stops(rt, row, &whole)
}

/// Loads a unit and mends it: the number of the first call of the `mend`, and whether it was `Ok`.
fn mend(unit: &mut MemMedium) -> Result<(u64, bool), Fail> {
    if unit.size() != IMAGE_SIZE {
        return Err(Fail::from("no unit"));
    }
    let mut journal = Journal::load(unit)?;
    let first = unit.calls();
    Ok((first, journal.mend(unit).is_ok()))
}

/// Four bytes of a unit.
fn four(unit: &mut MemMedium, place: u32) -> Result<[u8; 4], Fail> {
    let mut bytes = [0; 4];
    if unit.size() != IMAGE_SIZE || place > 2485000 {
        return Err(Fail::from("no place"));
    }
    unit.read_at(place, &mut bytes)?;
    Ok(bytes)
}

/// A `mend` of which a call may stop: whether it was `Ok`, the days that the stop leaves, and those once it was mended
/// again and 00:30 was kept.
fn mend_again(alloc: Global, unit: &mut MemMedium) -> Result<(bool, Vec<u32>, Vec<u32>), Fail> {
    let (_, is_ok) = mend(&mut *unit)?;
    unit.revive()?;
    let found = recorded(alloc, &mut *unit)?;
    let next = KeptMinute {
        minute: FIRST + 30,
        ..Row::SameDay.minute()
    };
    keep(&mut *unit, &next)?;
    let again = recorded(alloc, unit)?;
    Ok((is_ok, found, again))
}

/// The same, stopped at this call.
fn mended_again(alloc: Global, call: u64, left: Left) -> Result<(bool, Vec<u32>, Vec<u32>), Fail> {
    let mut unit = unit(alloc, with_later(alloc)?, call, left)?;
    mend_again(alloc, &mut unit)
}

/// That this stop leaves the days before, and that it can be mended again.
fn check_mend(
    rt: &(impl Abort + AllocGlobal),
    call: u64,
    left: Left,
    old: &[u32],
    new: &[u32],
) -> Result<(), Fail> {
    let (is_ok, found, again) = mended_again(rt.alloc(), call, left)?;
    let is_old = found.as_slice() == old;
    let is_new = again.as_slice() == new;
    assert_eq!(rt; (is_ok, is_old, is_new), (false, true, true));
    Ok(())
}

/// Stops a `mend` at each of its calls in each manner.
fn check_each_mend(
    rt: &(impl Abort + AllocGlobal),
    first: u64,
    end: u64,
    old: &[u32],
    new: &[u32],
) -> Result<(), Fail> {
    for call in first..end {
        check_mend(rt, call, Left::Before, old, new)?;
        check_mend(rt, call, Left::After, old, new)?;
        check_mend(rt, call, Left::Torn(0xFF), old, new)?;
    }
    Ok(())
}

fn check_mends(rt: &(impl Abort + AllocGlobal), first: u64, end: u64) -> Result<(), Fail> {
    let (is_ok, old, new) = mended_again(rt.alloc(), u64::MAX, Left::Before)?;
    let differs = old.as_slice() != new.as_slice();
    assert_eq!(rt; (is_ok, old.len(), differs), (true, 5, true));
    check_each_mend(rt, first, end, old.as_slice(), new.as_slice())
}

/// What a `mend` that is not stopped does: its first call, the one behind its last, whether it was `Ok`, and what
/// stands then at the places of three cells, a gate and a count.
#[derive(Clone, Copy)]
struct Mended {
    first: u64,
    end: u64,
    is_ok: bool,
    places: [[u8; 4]; 5],
}

fn mended_places(unit: &mut MemMedium) -> Result<[[u8; 4]; 5], Fail> {
    let kept = four(&mut *unit, 648)?;
    let later = four(&mut *unit, 654)?;
    let last = four(&mut *unit, 1002)?;
    let count = four(&mut *unit, 1036)?;
    let date = four(unit, 6804)?;
    Ok([kept, later, last, count, date])
}

fn mend_whole(alloc: Global) -> Result<Mended, Fail> {
    let mut unit = unit(alloc, with_later(alloc)?, u64::MAX, Left::Before)?;
    let (first, is_ok) = mend(&mut unit)?;
    let end = unit.calls();
    Ok(Mended {
        first,
        end,
        is_ok,
        places: mended_places(&mut unit)?,
    })
}

#[test]
fn a_unit_with_later_words_days_and_cells(rt: HostRuntime) -> Result<(), Fail> {
    let mended = mend_whole(rt.alloc())?;
    assert!(rt; mended.is_ok);
    // 32 cells are read, two of them emptied; a gate, a count
    assert_eq!(rt; mended.end.checked_sub(mended.first), Some(36));
    let kept = (FIRST + 20).to_be_bytes();
    assert_eq!(rt; mended.places, [kept, [0; 4], [0; 4], [0, 4, 0, 0], [0; 4]]);
    check_mends(&rt, mended.first, mended.end)
}

#[test]
fn a_minute_on_the_same_day(rt: HostRuntime) -> Result<(), Fail> {
    // the odometer, a word, the count, the minute
    check_row(&rt, Row::SameDay, 4)
}

#[test]
fn a_minute_behind_a_gap(rt: HostRuntime) -> Result<(), Fail> {
    // the odometer, two words of the gap, one of the minute, the count, the minute
    check_row(&rt, Row::Gap, 6)
}

#[test]
fn a_minute_behind_midnight(rt: HostRuntime) -> Result<(), Fail> {
    check_row(&rt, Row::Midnight, 9)
}

#[test]
fn the_first_minute(rt: HostRuntime) -> Result<(), Fail> {
    check_row(&rt, Row::FirstDay, 9)
}

#[test]
fn a_minute_on_the_367th_day(rt: HostRuntime) -> Result<(), Fail> {
    check_row(&rt, Row::FurtherDay, 15)
}

#[test]
fn the_last_words_of_a_full_day(rt: HostRuntime) -> Result<(), Fail> {
    // the odometer, two words, the count, the minute
    check_row(&rt, Row::FullDay, 5)
}
