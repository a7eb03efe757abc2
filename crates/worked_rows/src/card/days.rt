ghost use Rattle.std.specs.Prelude.{◌≡◌, ◌≤◌, IfOk, length};

use crate::card::images::{TWO_DAYS, full_string};
use card_days::{DayHead, Days, DaysFault, Tail};
use card_layout::Range;
use std::alloc::Global;
use std::process::Abort;
use std::test::Fail;
use tach_media::{Left, Medium, MemMedium, Memory};
use tacho_types::{Distance, TimeReal};
use worked_media::{T0, one_stop};

const TORN: Left = Left::Torn(0x55);

// What the walks of a string count: its days from the oldest on, and from the newest, and the words of the newest.
type Walks = (u32, u32, u16);

// The file of days that fills a medium, with a string of 5544 bytes.
const FILE: Range = Range { base: 0, len: 5548 };

// A medium of these bytes, whose call of that number fails.
fn medium(alloc: Global, image: Vec<u8>, call: u64, left: Left) -> Result<MemMedium, Memory> {
    let stops = one_stop(alloc, call, left)?;
    if image.len() != 5548 {
        return Err(Memory);
    }
    MemMedium::new(alloc, image, 64, 512, stops)
}

// A medium of these bytes that no stop breaks.
fn steady(alloc: Global, image: Vec<u8>) -> Result<MemMedium, Memory> {
    medium(alloc, image, u64::MAX, Left::Before)
}

// A file of days that begins with these bytes, with zeros behind them.
fn file(alloc: Global, front: &[u8]) -> Result<Vec<u8>, Memory> {
    let mut bytes = front.to_vec(alloc)?;
    bytes.resize(5548, 0)?;
    Ok(bytes)
}

// An empty string whose pointers are 5538.
fn empty(alloc: Global) -> Result<Vec<u8>, Memory> {
    file(alloc, &[0x15, 0xA2, 0x15, 0xA2])
}

// A string full of 396 days of one word, the newest at 5530.
fn full(alloc: Global) -> Result<Vec<u8>, Memory> {
    let mut bytes = [0, 0, 0x15, 0x9A].to_vec(alloc)?;
    bytes.extend_from_slice(&full_string(alloc)?)?;
    Ok(bytes)
}

// The days of the file.
fn loaded(medium: &mut MemMedium) -> Result<Days, DaysFault>
    ensures shape { IfOk result (λ days. days.shape ≡ record { base = 0; size = 5544 }) }
{
    if medium.size() != 5548 {
        return Err(DaysFault::Failed);
    }
    Days::load(medium, FILE)
}

fn load(medium: &mut MemMedium) -> Result<(), DaysFault> {
    loaded(medium)?;
    Ok(())
}

fn add_change(medium: &mut MemMedium, word: u16) -> Result<(), DaysFault> {
    let mut days = loaded(&mut *medium)?;
    if medium.size() != 5548 {
        return Err(DaysFault::Failed);
    }
    Ok(days.add_change(medium, word)?)
}

// Begins a day of these words.
fn begin_day_of(medium: &mut MemMedium, date: u32, words: &[u16]) -> Result<(), DaysFault>
    requires some { 1 ≤ length words.now }
    requires few { length words.now ≤ 2 }
{
    let mut days = loaded(&mut *medium)?;
    if medium.size() != 5548 {
        return Err(DaysFault::Failed);
    }
    Ok(days.begin_day(medium, TimeReal(date), words)?)
}

// Begins a day of one word.
fn begin_day(medium: &mut MemMedium, date: u32) -> Result<(), DaysFault> {
    begin_day_of(medium, date, &[0])
}

fn finish_drop(medium: &mut MemMedium) -> Result<(), DaysFault> {
    let mut days = loaded(&mut *medium)?;
    if medium.size() != 5548 {
        return Err(DaysFault::Failed);
    }
    Ok(days.finish_drop(medium)?)
}

fn set_distance(medium: &mut MemMedium, km: u16) -> Result<(), DaysFault> {
    let mut days = loaded(&mut *medium)?;
    if medium.size() != 5548 {
        return Err(DaysFault::Failed);
    }
    Ok(days.set_distance(medium, Distance(km))?)
}

fn trim(medium: &mut MemMedium, minute: u32) -> Result<(), DaysFault> {
    let mut days = loaded(&mut *medium)?;
    if medium.size() != 5548 {
        return Err(DaysFault::Failed);
    }
    Ok(days.trim(medium, minute)?)
}

fn last(medium: &mut MemMedium) -> Result<Option<DayHead>, DaysFault> {
    let days = loaded(&mut *medium)?;
    if medium.size() != 5548 {
        return Err(DaysFault::Failed);
    }
    Ok(days.last(medium)?)
}

fn word(medium: &mut MemMedium, day: &DayHead, index: u16) -> Result<u16, DaysFault> {
    let days = loaded(&mut *medium)?;
    if medium.size() != 5548 || day.place >= 5548 || index >= day.words {
        return Err(DaysFault::Failed);
    }
    Ok(days.word(medium, day, index)?)
}

// Four bytes of the file.
fn bytes_at(medium: &mut MemMedium, place: u32) -> Result<[u8; 4], DaysFault> {
    let mut out = [0; 4];
    if medium.size() != 5548 || place > 5544 {
        return Err(DaysFault::Failed);
    }
    medium.read_at(place, &mut out)?;
    Ok(out)
}

// How many days the walk from the oldest meets.
fn forward(days: &Days, medium: &mut MemMedium) -> Result<u32, DaysFault>
    requires { days.now.shape ≡ record { base = 0; size = 5544 } }
{
    if medium.size() != 5548 {
        return Err(DaysFault::Failed);
    }
    let mut head = days.first(&mut *medium)?;
    for count in 0..1000 {
        let Some(day) = head else { return Ok(count) };
        if medium.size() != 5548 || day.place >= 5548 {
            return Err(DaysFault::Failed);
        }
        head = days.after(&mut *medium, &day)?;
    }
    Ok(1000)
}

// How many days the walk from the newest meets.
fn back(days: &Days, medium: &mut MemMedium) -> Result<u32, DaysFault>
    requires { days.now.shape ≡ record { base = 0; size = 5544 } }
{
    if medium.size() != 5548 {
        return Err(DaysFault::Failed);
    }
    let mut head = days.last(&mut *medium)?;
    for count in 0..1000 {
        let Some(day) = head else { return Ok(count) };
        if medium.size() != 5548 || day.place >= 5548 {
            return Err(DaysFault::Failed);
        }
        head = days.before(&mut *medium, &day)?;
    }
    Ok(1000)
}

// What the string holds; the words of the newest day are those that the tail tells too.
fn held(medium: &mut MemMedium) -> Result<Walks, DaysFault> {
    let days = loaded(&mut *medium)?;
    let forward = forward(&days, &mut *medium)?;
    let back = back(&days, &mut *medium)?;
    let words = last(medium)?.map_or(0, |day| day.words);
    if days.tail().map_or(0, |tail| tail.head.words) != words {
        return Err(DaysFault::BadDays(0));
    }
    Ok((forward, back, words))
}

// How many calls the loading of such a file takes.
fn loading(alloc: Global, image: Vec<u8>) -> Result<u64, Fail> {
    let mut medium = steady(alloc, image)?;
    load(&mut medium)?;
    Ok(medium.calls())
}

// A day is begun: four bytes at the end of the file then, and four behind its pointers, and what is held.
fn with_a_day(medium: &mut MemMedium) -> Result<([u8; 4], [u8; 4], Walks), DaysFault> {
    begin_day(&mut *medium, T0)?;
    let end = bytes_at(&mut *medium, 5544)?;
    let front = bytes_at(&mut *medium, 4)?;
    Ok((end, front, held(medium)?))
}

#[test]
fn a_date_breaks_over_the_end(rt: HostRuntime) -> Result<(), Fail> {
    let alloc = rt.alloc();
    let mut medium = steady(alloc, empty(alloc)?)?;
    let told = ([0, 14, 0x4B, 0x8B], [0x03, 0x80, 0, 1], (1, 1, 1));
    assert_eq!(rt; with_a_day(&mut medium)?, told);
    Ok(())
}

// Four bytes of the file of the full string once it was changed: its pointers, the second day, the begin of the string,
// and the newest day.
fn places_of_full(medium: &mut MemMedium) -> Result<[[u8; 4]; 4], DaysFault> {
    let pointers = bytes_at(&mut *medium, 0)?;
    let second = bytes_at(&mut *medium, 4 + 14)?;
    let begin = bytes_at(&mut *medium, 4)?;
    let newest = bytes_at(&mut *medium, 4 + 5530)?;
    Ok([pointers, second, begin, newest])
}

// What is held before a change, what stands at those places behind it, and what is held then.
fn with_a_change(medium: &mut MemMedium) -> Result<(Walks, [[u8; 4]; 4], Walks), DaysFault> {
    let before = held(&mut *medium)?;
    add_change(&mut *medium, 0x1805)?;
    let places = places_of_full(&mut *medium)?;
    Ok((before, places, held(medium)?))
}

#[test]
fn the_oldest_day_goes_where_the_string_is_full(rt: HostRuntime) -> Result<(), Fail> {
    let alloc = rt.alloc();
    let mut medium = steady(alloc, full(alloc)?)?;
    let places = [
        [0, 14, 0x15, 0x9A],
        [0, 0, 0, 14],
        [0x18, 0x05, 0, 14],
        [0, 14, 0, 16],
    ];
    assert_eq!(rt;
        with_a_change(&mut medium)?,
        ((396, 396, 1), places, (395, 395, 2))
    );
    Ok(())
}

// What is held after a change that a stop breaks off, and after another change then.
fn changed_again(medium: &mut MemMedium) -> Result<(Walks, Walks), Fail> {
    if add_change(&mut *medium, 0x1805).is_ok() {
        return Err(Fail::from("not stopped"));
    }
    medium.revive()?;
    let found = held(&mut *medium)?;
    finish_drop(&mut *medium)?;
    add_change(&mut *medium, 0x1806)?;
    Ok((found, held(medium)?))
}

// The same of a change of the full string that is stopped so.
fn stopped_change(alloc: Global, call: u64, left: Left) -> Result<(Walks, Walks), Fail> {
    let first = loading(alloc, full(alloc)?)?;
    let mut medium = medium(alloc, full(alloc)?, first.saturating_add(call), left)?;
    changed_again(&mut medium)
}

// A write of the change, how it ends, and how many days and words of the newest there are then.
const CHANGE_STOPS: [(u64, Left, u32, u16); 12] = [
    // the oldest pointer
    (1, Left::Before, 396, 1),
    (1, TORN, 396, 1),
    (1, Left::After, 395, 1),
    // the length before the oldest day
    (2, Left::Before, 395, 1),
    (2, TORN, 395, 1),
    (2, Left::After, 395, 1),
    // the word
    (3, Left::Before, 395, 1),
    (3, TORN, 395, 1),
    (3, Left::After, 395, 1),
    // the length
    (4, Left::Before, 395, 1),
    (4, TORN, 395, 1),
    (4, Left::After, 395, 2),
];

// One of them: then the next change goes on.
fn goes_on(
    rt: &(impl Abort + AllocGlobal),
    call: u64,
    left: Left,
    days: u32,
    words: u16,
) -> Result<(), Fail> {
    let (found, then) = stopped_change(rt.alloc(), call, left)?;
    assert_eq!(rt; found, (days, days, words));
    assert_eq!(rt; then, (395, 395, words.saturating_add(1)));
    Ok(())
}

#[test]
fn a_stopped_change_goes_on(rt: HostRuntime) -> Result<(), Fail> {
    for (call, left, days, words) in CHANGE_STOPS {
        goes_on(&rt, call, left, days, words)?;
    }
    Ok(())
}

// What is held after a day of these words that a stop breaks off, and after the next day.
fn begun_again(medium: &mut MemMedium, words: &[u16]) -> Result<(Walks, Walks), Fail>
    requires some { 1 ≤ length words.now }
    requires few { length words.now ≤ 2 }
{
    if begin_day_of(&mut *medium, T0, words).is_ok() {
        return Err(Fail::from("not stopped"));
    }
    medium.revive()?;
    let found = held(&mut *medium)?;
    finish_drop(&mut *medium)?;
    begin_day(&mut *medium, T0 + 86400)?;
    Ok((found, held(medium)?))
}

// The same of a day on a file with these bytes that is stopped at that call.
fn stopped_day(
    alloc: Global,
    image: Vec<u8>,
    words: &[u16],
    call: u64,
    left: Left,
) -> Result<(Walks, Walks), Fail>
    requires some { 1 ≤ length words.now }
    requires few { length words.now ≤ 2 }
{
    let mut medium = medium(alloc, image, call, left)?;
    begun_again(&mut medium, words)
}

// A write of the day, how it ends, and how many days there are then.
const DAY_STOPS: [(u64, Left, u32); 12] = [
    // the length before it
    (0, Left::Before, 0),
    (0, TORN, 0),
    (0, Left::After, 0),
    // its body to the end of the string
    (1, Left::Before, 0),
    (1, TORN, 0),
    (1, Left::After, 0),
    // and from its begin
    (2, Left::Before, 0),
    (2, TORN, 0),
    (2, Left::After, 0),
    // its length
    (3, Left::Before, 0),
    (3, TORN, 0),
    (3, Left::After, 1),
];

// One of them, of a day of these words, behind so many calls: with all its words where it is there; then the next day
// is there too.
fn first_day_is_whole(
    rt: &(impl Abort + AllocGlobal),
    words: &[u16],
    first: u64,
    call: u64,
    left: Left,
    days: u32,
) -> Result<(), Fail>
    requires some { 1 ≤ length words.now }
    requires few { length words.now ≤ 2 }
{
    let alloc = rt.alloc();
    let call = first.saturating_add(call);
    let (found, then) = stopped_day(alloc, empty(alloc)?, words, call, left)?;
    let most = if days == 0 { 0 } else { words.len() };
    assert_eq!(rt; (found.0, found.1, found.2 as usize), (days, days, most));
    assert_eq!(rt; then, (days.saturating_add(1), days.saturating_add(1), 1));
    Ok(())
}

#[test]
fn a_stopped_first_day_is_there_or_not(rt: HostRuntime) -> Result<(), Fail> {
    let alloc = rt.alloc();
    let first = loading(alloc, empty(alloc)?)?;
    for (call, left, days) in DAY_STOPS {
        first_day_is_whole(&rt, &[0], first, call, left, days)?;
    }
    Ok(())
}

#[test]
fn a_stopped_first_day_of_two_words_has_both_or_is_not_there(rt: HostRuntime) -> Result<(), Fail> {
    let alloc = rt.alloc();
    let first = loading(alloc, empty(alloc)?)?;
    for (call, left, days) in DAY_STOPS {
        first_day_is_whole(&rt, &[0, 60], first, call, left, days)?;
    }
    Ok(())
}

// A write of a day of the full string, how it ends, and how many days there are then, and after the next day.
const FULL_DAY_STOPS: [(u64, Left, u32, u32); 18] = [
    // the oldest pointer
    (1, Left::Before, 396, 396),
    (1, TORN, 396, 396),
    (1, Left::After, 395, 396),
    // the length before the oldest day
    (2, Left::Before, 395, 396),
    (2, TORN, 395, 396),
    (2, Left::After, 395, 396),
    // the length before the new day
    (3, Left::Before, 395, 396),
    (3, TORN, 395, 396),
    (3, Left::After, 395, 396),
    // its body
    (4, Left::Before, 395, 396),
    (4, TORN, 395, 396),
    (4, Left::After, 395, 396),
    // its length
    (5, Left::Before, 395, 396),
    (5, TORN, 395, 396),
    (5, Left::After, 395, 396),
    // the newest pointer
    (6, Left::Before, 395, 396),
    (6, TORN, 395, 396),
    (6, Left::After, 396, 396),
];

// One of them, of a day of these words, stopped at this call: what is held then, and after the next day.
fn day_of_full_leaves(
    rt: &(impl Abort + AllocGlobal),
    words: &[u16],
    call: u64,
    left: Left,
    held: Walks,
    next: u32,
) -> Result<(), Fail>
    requires some { 1 ≤ length words.now }
    requires few { length words.now ≤ 2 }
{
    let alloc = rt.alloc();
    let (found, then) = stopped_day(alloc, full(alloc)?, words, call, left)?;
    assert_eq!(rt; found, held);
    assert_eq!(rt; then, (next, next, 1));
    Ok(())
}

#[test]
fn a_stopped_day_of_a_full_string_is_there_or_not(rt: HostRuntime) -> Result<(), Fail> {
    let alloc = rt.alloc();
    let first = loading(alloc, full(alloc)?)?;
    for (call, left, days, next) in FULL_DAY_STOPS {
        let call = first.saturating_add(call);
        day_of_full_leaves(&rt, &[0], call, left, (days, days, 1), next)?;
    }
    Ok(())
}

// The same of a day of two words, for which two days go: how many words the newest has then, too.
const TWO_DROPS_STOPS: [(u64, Left, u32, u16, u32); 24] = [
    // the oldest pointer, past the first
    (2, Left::Before, 396, 1, 396),
    (2, TORN, 396, 1, 396),
    (2, Left::After, 395, 1, 396),
    // the length before the oldest day
    (3, Left::Before, 395, 1, 396),
    (3, TORN, 395, 1, 396),
    (3, Left::After, 395, 1, 396),
    // the oldest pointer, past the second
    (4, Left::Before, 395, 1, 396),
    (4, TORN, 395, 1, 396),
    (4, Left::After, 394, 1, 395),
    // the length before the oldest day
    (5, Left::Before, 394, 1, 395),
    (5, TORN, 394, 1, 395),
    (5, Left::After, 394, 1, 395),
    // the length before the new day
    (6, Left::Before, 394, 1, 395),
    (6, TORN, 394, 1, 395),
    (6, Left::After, 394, 1, 395),
    // its body
    (7, Left::Before, 394, 1, 395),
    (7, TORN, 394, 1, 395),
    (7, Left::After, 394, 1, 395),
    // its length
    (8, Left::Before, 394, 1, 395),
    (8, TORN, 394, 1, 395),
    (8, Left::After, 394, 1, 395),
    // the newest pointer
    (9, Left::Before, 394, 1, 395),
    (9, TORN, 394, 1, 395),
    (9, Left::After, 395, 2, 395),
];

#[test]
fn a_stopped_day_for_which_two_go_is_there_or_not(rt: HostRuntime) -> Result<(), Fail> {
    let alloc = rt.alloc();
    let first = loading(alloc, full(alloc)?)?;
    for (call, left, days, words, next) in TWO_DROPS_STOPS {
        let call = first.saturating_add(call);
        day_of_full_leaves(&rt, &[0, 60], call, left, (days, days, words), next)?;
    }
    Ok(())
}

// The two days with these bytes at a place.
fn two_days_with(place: usize, bytes: [u8; 4]) -> Result<[u8; 36], Fail> {
    let mut front = TWO_DAYS;
    if place > 32 {
        return Err(Fail::from("place"));
    }
    front[place..place + 4].copy_from_slice(&bytes);
    Ok(front)
}

// Where a string fails, if it does.
fn bad_place(medium: &mut MemMedium) -> Result<Option<u32>, Fail> {
    match load(medium) {
        Ok(()) => Ok(None),
        Err(DaysFault::BadDays(place)) => Ok(Some(place)),
        Err(DaysFault::Failed) => Err(Fail::from("failed")),
    }
}

// Where the file of two days fails with these bytes at a place.
fn damaged(alloc: Global, place: usize, bytes: [u8; 4]) -> Result<Option<u32>, Fail> {
    let front = two_days_with(place, bytes)?;
    let mut medium = steady(alloc, file(alloc, &front)?)?;
    bad_place(&mut medium)
}

// Four bytes at a place of the file of two days, and where it fails with them.
const DAMAGES: [(usize, [u8; 4], Option<u32>); 44] = [
    // the pointers: below the length and even
    (0, [0, 0, 0, 18], None),
    (0, [0x15, 0xA8, 0, 18], Some(0)),
    (0, [0x15, 0xA6, 0, 18], Some(4)),
    (0, [0, 1, 0, 18], Some(0)),
    (0, [0, 1, 0, 1], Some(0)),
    (0, [0, 0, 0x15, 0xA8], Some(2)),
    (0, [0, 0, 0x15, 0xA6], Some(38)),
    (0, [0, 0, 0, 17], Some(2)),
    // a day that begins past the newest pointer, or at it
    (0, [0, 0, 0, 16], Some(2)),
    (0, [0, 0, 0, 20], Some(2)),
    (0, [0, 0, 0, 0], None),
    (0, [0, 18, 0, 18], None),
    // the string is empty
    (0, [0, 36, 0, 36], None),
    (4, [0, 0, 0, 0], Some(6)),
    // a length: 14 to 2892 and even
    (4, [0, 0, 0, 12], Some(6)),
    (4, [0, 0, 0, 13], Some(6)),
    (4, [0, 0, 0, 14], Some(20)),
    (4, [0, 0, 0, 15], Some(6)),
    (4, [0, 0, 0x0B, 0x4C], Some(24)),
    (4, [0, 0, 0x0B, 0x4E], Some(6)),
    (22, [0, 18, 0, 12], Some(24)),
    // the length of the day before
    (4, [0, 99, 0, 18], None),
    (22, [0, 14, 0, 14], Some(22)),
    (22, [0, 0, 0, 14], Some(22)),
    (22, [0, 14, 0, 13], Some(24)),
    // the date
    (8, [0, 1, 0x51, 0x7F], Some(8)),
    (8, [0, 1, 0x51, 0x81], Some(8)),
    (8, [0, 0, 0, 0], Some(8)),
    (26, [0, 1, 0x51, 0x80], Some(26)),
    (26, [0, 0, 0, 0], Some(26)),
    (28, [0xA3, 1, 0x0A, 0], Some(26)),
    // the counter
    (12, [0x99, 0x99, 0, 0], None),
    (12, [0x0A, 0, 0, 0], Some(12)),
    (12, [0xA0, 0, 0, 0], Some(12)),
    (12, [0, 0x0A, 0, 0], Some(12)),
    (12, [0, 0xA0, 0, 0], Some(12)),
    (30, [0, 0x0A, 0, 0], Some(30)),
    // the words: the first at minute 0, none earlier than the one before it, each below 1440
    (16, [0x18, 0, 0x18, 5], None),
    (16, [0, 1, 0x18, 5], Some(16)),
    (18, [0x18, 0, 0x28, 5], None),
    (18, [0x18, 6, 0x28, 5], Some(20)),
    (18, [0x1D, 0x9F, 0x2D, 0x9F], None),
    (18, [0x1D, 0xA0, 0x2D, 0x9F], Some(18)),
    (32, [0, 0, 0, 1], Some(34)),
];

fn fails_there(
    rt: &(impl Abort + AllocGlobal),
    place: usize,
    bytes: [u8; 4],
    fails: Option<u32>,
) -> Result<(), Fail> {
    let found = damaged(rt.alloc(), place, bytes)?;
    assert_eq!(rt; found, fails, "{bytes:?} at {place}");
    Ok(())
}

#[test]
fn a_damaged_string_fails_at_its_place(rt: HostRuntime) -> Result<(), Fail> {
    for (place, bytes, fails) in DAMAGES {
        fails_there(&rt, place, bytes, fails)?;
    }
    Ok(())
}

// A word for each of the first minutes of a day.
fn put_words(bytes: &mut Vec<u8>, count: u16) -> Result<(), Memory> {
    for minute in 0..count {
        bytes.extend_from_slice(&minute.to_be_bytes())?;
    }
    Ok(())
}

// Two days of so many words, 1440 and 1320, that fill the string; the length of the second ends with this byte.
fn long_days(alloc: Global, low: u8) -> Result<Vec<u8>, Memory> {
    let mut bytes = [
        0, 0, 0x0B, 0x4C, 0, 0, 0x0B, 0x4C, 0, 1, 0x51, 0x80, 0, 1, 0, 0,
    ]
    .to_vec(alloc)?;
    put_words(&mut bytes, 1440)?;
    bytes.extend_from_slice(&[0x0B, 0x4C, 0x0A, low, 0, 2, 0xA3, 0, 0, 2, 0, 0])?;
    put_words(&mut bytes, 1320)?;
    Ok(bytes)
}

// What is held on a file with these bytes.
fn held_on(alloc: Global, image: Vec<u8>) -> Result<Result<Walks, DaysFault>, Fail> {
    let mut medium = steady(alloc, image)?;
    Ok(held(&mut medium))
}

#[test]
fn a_length_reaches_the_end_of_the_string(rt: HostRuntime) -> Result<(), Fail> {
    let alloc = rt.alloc();
    let good = held_on(alloc, long_days(alloc, 0x5C)?)?;
    assert_eq!(rt; good, Ok((2, 2, 1320)));
    let bad = held_on(alloc, long_days(alloc, 0x5E)?)?;
    assert_eq!(rt; bad, Err(DaysFault::BadDays(2898)));
    Ok(())
}

// The newest day of the file of two days behind a distance.
fn measured(medium: &mut MemMedium) -> Result<DayHead, Fail> {
    set_distance(&mut *medium, 7)?;
    let day = last(medium)?.ok_or("no day")?;
    Ok(day)
}

// The newest day behind a trim, and its first word.
fn trimmed(medium: &mut MemMedium, minute: u32) -> Result<(DayHead, u16), Fail> {
    trim(&mut *medium, minute)?;
    let day = last(&mut *medium)?.ok_or("no day")?;
    let first = word(medium, &day, 0)?;
    Ok((day, first))
}

// What is held behind a trim.
fn held_behind_a_trim(medium: &mut MemMedium, minute: u32) -> Result<Walks, Fail> {
    trim(&mut *medium, minute)?;
    Ok(held(medium)?)
}

#[test]
fn a_trim_leaves_no_later_word(rt: HostRuntime) -> Result<(), Fail> {
    let alloc = rt.alloc();
    let mut medium = steady(alloc, file(alloc, &TWO_DAYS)?)?;
    let day = measured(&mut medium)?;
    let (left, first) = trimmed(&mut medium, 1444)?;
    let none = held_behind_a_trim(&mut medium, 1439)?;
    let told = (day.place, day.km.0, left.place, left.words, first);
    assert_eq!(rt; (told, none), ((18, 7, 0, 1, 0), (0, 0, 0)));
    Ok(())
}

// Whether what is kept of the days is what loading tells.
fn is_kept(days: &Days, medium: &mut MemMedium) -> Result<bool, DaysFault> {
    Ok(loaded(medium)?.tail() == days.tail())
}

// How many calls a word takes.
fn put_word(days: &mut Days, medium: &mut MemMedium) -> Result<u64, DaysFault>
    requires { days.old.shape ≡ record { base = 0; size = 5544 } }
    ensures { days.new.shape ≡ record { base = 0; size = 5544 } }
{
    if medium.size() != 5548 {
        return Err(DaysFault::Failed);
    }
    let before = medium.calls();
    days.add_change(&mut *medium, 0x1805)?;
    Ok(medium.calls().saturating_sub(before))
}

// How many a day of two words takes.
fn put_day(days: &mut Days, medium: &mut MemMedium) -> Result<u64, DaysFault>
    requires { days.old.shape ≡ record { base = 0; size = 5544 } }
    ensures { days.new.shape ≡ record { base = 0; size = 5544 } }
{
    if medium.size() != 5548 {
        return Err(DaysFault::Failed);
    }
    let before = medium.calls();
    days.begin_day(&mut *medium, TimeReal(T0), &[0, 0x1800 + 60])?;
    Ok(medium.calls().saturating_sub(before))
}

// How many a distance takes.
fn put_distance(days: &mut Days, medium: &mut MemMedium) -> Result<u64, DaysFault>
    requires { days.old.shape ≡ record { base = 0; size = 5544 } }
    ensures { days.new.shape ≡ record { base = 0; size = 5544 } }
{
    if medium.size() != 5548 {
        return Err(DaysFault::Failed);
    }
    let before = medium.calls();
    days.set_distance(&mut *medium, Distance(7))?;
    Ok(medium.calls().saturating_sub(before))
}

// How many the end of a drop takes.
fn end_drop(days: &mut Days, medium: &mut MemMedium) -> Result<u64, DaysFault>
    requires { days.old.shape ≡ record { base = 0; size = 5544 } }
{
    if medium.size() != 5548 {
        return Err(DaysFault::Failed);
    }
    let before = medium.calls();
    days.finish_drop(&mut *medium)?;
    Ok(medium.calls().saturating_sub(before))
}

// A trim to the end of a day.
fn cut_days(days: &mut Days, medium: &mut MemMedium) -> Result<(), DaysFault>
    requires { days.old.shape ≡ record { base = 0; size = 5544 } }
{
    if medium.size() != 5548 {
        return Err(DaysFault::Failed);
    }
    Ok(days.trim(medium, 390 * 1440)?)
}

// Whether what is kept is what loading tells, behind each of these: a word, a day of two words, a distance, and a trim.
fn are_kept(days: &mut Days, medium: &mut MemMedium) -> Result<[bool; 4], DaysFault>
    requires { days.old.shape ≡ record { base = 0; size = 5544 } }
{
    put_word(&mut *days, &mut *medium)?;
    let word = is_kept(&*days, &mut *medium)?;
    put_day(&mut *days, &mut *medium)?;
    let day = is_kept(&*days, &mut *medium)?;
    put_distance(&mut *days, &mut *medium)?;
    let distance = is_kept(&*days, &mut *medium)?;
    cut_days(&mut *days, &mut *medium)?;
    let trim = is_kept(&*days, medium)?;
    Ok([word, day, distance, trim])
}

// The same of the days of a file.
fn loaded_are_kept(medium: &mut MemMedium) -> Result<[bool; 4], DaysFault> {
    let mut days = loaded(&mut *medium)?;
    are_kept(&mut days, medium)
}

#[test]
fn what_is_kept_is_what_is_loaded(rt: HostRuntime) -> Result<(), Fail> {
    let alloc = rt.alloc();
    let mut medium = steady(alloc, full(alloc)?)?;
    assert_eq!(rt; loaded_are_kept(&mut medium)?, [true; 4]);
    Ok(())
}

// The tail of an empty string, and that behind its first day; and whether what is kept then is what loading tells.
fn first_day(medium: &mut MemMedium) -> Result<(Option<Tail>, Option<Tail>, bool), DaysFault> {
    let mut days = loaded(&mut *medium)?;
    let before = days.tail();
    if medium.size() != 5548 {
        return Err(DaysFault::Failed);
    }
    days.begin_day(&mut *medium, TimeReal(T0), &[0])?;
    let then = days.tail();
    Ok((before, then, is_kept(&days, medium)?))
}

#[test]
fn the_first_day_is_kept(rt: HostRuntime) -> Result<(), Fail> {
    let alloc = rt.alloc();
    let mut medium = steady(alloc, empty(alloc)?)?;
    let (before, then, is_kept) = first_day(&mut medium)?;
    assert_eq!(rt; before, None);
    assert_eq!(rt;
        then.map(|tail| (tail.head.place, tail.head.counter.0, tail.used)),
        Some((5538, 1, 14))
    );
    assert!(rt; is_kept);
    Ok(())
}

// How many calls the end of a drop takes of the string of a file.
fn end_drop_of(medium: &mut MemMedium) -> Result<u64, DaysFault> {
    let mut days = loaded(&mut *medium)?;
    end_drop(&mut days, medium)
}

#[test]
fn of_a_string_without_a_day_no_drop_is_ended(rt: HostRuntime) -> Result<(), Fail> {
    let alloc = rt.alloc();
    let mut none = steady(alloc, empty(alloc)?)?;
    let mut some = steady(alloc, full(alloc)?)?;
    assert_eq!(rt; end_drop_of(&mut none)?, 0);
    assert_eq!(rt; end_drop_of(&mut some)?, 1);
    Ok(())
}

// How many calls each of these takes: a word on a full string, a day of two words then, a distance, and the end of a
// drop.
fn calls_with(days: &mut Days, medium: &mut MemMedium) -> Result<[u64; 4], DaysFault>
    requires { days.old.shape ≡ record { base = 0; size = 5544 } }
{
    let word = put_word(&mut *days, &mut *medium)?;
    let day = put_day(&mut *days, &mut *medium)?;
    let distance = put_distance(&mut *days, &mut *medium)?;
    let end = end_drop(days, medium)?;
    Ok([word, day, distance, end])
}

// The same of the days of a file.
fn calls_of(medium: &mut MemMedium) -> Result<[u64; 4], DaysFault> {
    let mut days = loaded(&mut *medium)?;
    calls_with(&mut days, medium)
}

// On a file with these bytes.
fn calls_on(alloc: Global, image: Vec<u8>) -> Result<[u64; 4], Fail> {
    let mut medium = steady(alloc, image)?;
    Ok(calls_of(&mut medium)?)
}

#[test]
fn nothing_that_is_known_is_read(rt: HostRuntime) -> Result<(), Fail> {
    let alloc = rt.alloc();
    // the length of the day that goes, and the writes
    assert_eq!(rt; calls_on(alloc, full(alloc)?)?, [1 + 4, 1 + 6, 1, 1]);
    // no day goes: the writes alone
    assert_eq!(rt; calls_on(alloc, file(alloc, &TWO_DAYS)?)?, [2, 4, 1, 1]);
    Ok(())
}
