//! Cards of the smallest sizes in memory, judged and looked at.
ghost use Rattle.std.specs.Prelude.{◌≤◌, ◌<◌, ◌^◌, length, IfSome};
ghost use Rattle.card_layout.specs.Application.{IsApplication};
ghost use Rattle.card_layout.specs.Files.{image_size_of};
ghost use Rattle.card_validity.specs.Judged.{TellsSizes};

use crate::card::images::{CURRENT_USE, DAYS, VEHICLES};
use card_files::{Vehicle, blank_card, image_size, read_application};
use card_layout::{Application, Fid};
use card_validity::{CardLook, InsertFault, Judged, judge, look};
use std::alloc::Global;
use std::process::Abort;
use std::test::Fail;
use tach_media::{Left, MemMedium, Memory, SliceMedium};
use tacho_types::{Odometer, Registration, TimeReal};
use worked_media::image::put;
use worked_media::{IDENTITY, M0, NUMBER_A, SMALLEST, T0, card_number, one_stop};

/// Where the string of days begins in its image, behind its two pointers, and the file of places.
const STRING: usize = DAYS + 4;

const PLACES: usize = VEHICLES + 2 + 31 * 84;

/// 2010-03-01 00:00:00 and the midnight after it, and the minutes 599 and 600 of that day.
const DATE: [u8; 4] = [0x4B, 0x8B, 0x03, 0x80];

const NEXT_DATE: [u8; 4] = [0x4B, 0x8C, 0x55, 0x00];

const AT_599: [u8; 4] = [0x4B, 0x8B, 0x8F, 0xE4];

const AT_600: [u8; 4] = [0x4B, 0x8B, 0x90, 0x20];

// A card with one day of these words, a vehicle that was used last at this time, and a session that began at this
// second.
fn card(alloc: Global, words: &[u8], last_use: &[u8], session: u8) -> Result<Vec<u8>, Memory>
    requires { length words.now ≤ 8 }
{
    let mut image = blank_card(alloc, &IDENTITY, &SMALLEST)?;
    let slice = image.as_mut_slice();
    put(slice, STRING + 3, &[12 + words.len() as u8]);
    put(slice, STRING + 4, &DATE);
    put(slice, STRING + 9, &[1]);
    put(slice, STRING + 12, words);
    put(slice, VEHICLES + 8, &DATE);
    put(slice, VEHICLES + 12, last_use);
    put(slice, CURRENT_USE + 3, &[session]);
    Ok(image)
}

// The sizes that a card tells, which it has.
fn sizes_of(image: &[u8]) -> Option<Application>
    ensures sizes { IfSome result IsApplication }
    ensures fits { IfSome result (λ app. image_size_of app ≤ length image.now) }
    ensures told { IfSome result (λ app. TellsSizes app image.now) }
    ensures short { IfSome result (λ app. length image.now < 2 ^ 32) }
{
    if image.len() < 43 || image.len() > 24959 {
        return None;
    }
    match read_application(&image[33..43]) {
        Ok(app) if image_size(&app) as usize <= image.len() => Some(app),
        _ => None,
    }
}

// Judges a card by the sizes that it tells.
fn judged(image: &[u8]) -> Result<Judged, InsertFault> {
    match sizes_of(image) {
        None => Err(InsertFault::Failed),
        Some(app) => judge(&mut SliceMedium::new(image), &app),
    }
}

// Looks at a card by the sizes that it tells.
fn seen(image: &[u8]) -> Result<CardLook, InsertFault> {
    match sizes_of(image) {
        None => Err(InsertFault::Failed),
        Some(app) => look(&mut SliceMedium::new(image), &app),
    }
}

// Why a card is refused, if it is.
fn refused(image: &[u8]) -> Option<InsertFault> {
    judged(image).err()
}

fn is_blank(judged: &Judged) -> bool {
    judged.days.tail().is_none()
        && judged.newest.is_none()
        && judged.vehicle.is_none()
        && judged.current.session.0 == 0
}

#[test]
fn a_new_card(rt: HostRuntime) -> Result<(), Fail> {
    let image = blank_card(rt.alloc(), &IDENTITY, &SMALLEST)?;
    assert!(rt; matches!(&judged(&image), Ok(judged) if is_blank(judged)));
    let told = CardLook {
        number: card_number(NUMBER_A),
        surname: IDENTITY.surname,
        first: IDENTITY.first,
        expiry: TimeReal(1388534399),
        session: 0,
        newest_minute: 0,
        previous: None,
    };
    assert!(rt; seen(&image) == Ok(told));
    Ok(())
}

// A refusal with a file and a place in it.
fn not_valid(fid: Fid, place: u32) -> Option<InsertFault> {
    Some(InsertFault::NotValid { fid, place })
}

/// A day of no card that works from minute 600 on, with a word more: at that minute again, at the minute after it, and
/// one later.
const WORK: [u8; 4] = [0x20, 0x00, 0x12, 0x58];

const AGAIN: [u8; 6] = [0x20, 0x00, 0x12, 0x58, 0x22, 0x58];

const CLOSED: [u8; 6] = [0x20, 0x00, 0x12, 0x58, 0x22, 0x59];

const CLOSED_LATE: [u8; 6] = [0x20, 0x00, 0x12, 0x58, 0x22, 0x5A];

// Why such a card is refused, if it is.
fn refusal(
    alloc: Global,
    words: &[u8],
    last_use: &[u8],
    session: u8,
) -> Result<Option<InsertFault>, Memory>
    requires { length words.now ≤ 8 }
{
    let image = card(alloc, words, last_use, session)?;
    Ok(refused(&image))
}

// That such a card is refused so, or not.
fn is_refused(
    rt: &(impl Abort + AllocGlobal),
    words: &[u8],
    last_use: &[u8],
    session: u8,
    fault: Option<InsertFault>,
) -> Result<(), Fail>
    requires { length words.now ≤ 8 }
{
    let found = refusal(rt.alloc(), words, last_use, session)?;
    assert!(rt; found == fault);
    Ok(())
}

#[test]
fn the_words_of_a_card(rt: HostRuntime) -> Result<(), Fail> {
    is_refused(&rt, &WORK, &AT_600, 0, None)?;
    is_refused(&rt, &CLOSED, &AT_600, 0, None)?;
    is_refused(&rt, &WORK, &AT_599, 0, not_valid(Fid::ACTIVITY, 18))?;
    is_refused(&rt, &CLOSED_LATE, &AT_600, 0, not_valid(Fid::ACTIVITY, 20))?;
    is_refused(&rt, &AGAIN, &AT_600, 0, not_valid(Fid::ACTIVITY, 20))?;
    // a session that is open: words behind the end mark are cut
    is_refused(&rt, &WORK, &AT_599, 1, None)?;
    is_refused(&rt, &AGAIN, &AT_600, 1, not_valid(Fid::ACTIVITY, 20))
}

/// Why a card is refused with a bad pointer of its places, with one of its vehicles too, and with one of its days too.
#[derive(Clone, Copy)]
struct Refusals {
    places: Option<InsertFault>,
    vehicles: Option<InsertFault>,
    days: Option<InsertFault>,
}

fn with_bad_pointers(image: &mut [u8]) -> Refusals {
    put(image, PLACES, &[84]);
    let places = refused(image);
    put(image, VEHICLES + 1, &[84]);
    let vehicles = refused(image);
    put(image, STRING - 1, &[1]);
    let days = refused(image);
    Refusals {
        places,
        vehicles,
        days,
    }
}

#[test]
fn the_pointers_of_a_card(rt: HostRuntime) -> Result<(), Fail> {
    let alloc = rt.alloc();
    let mut image = card(alloc, &WORK, &AT_600, 0)?;
    let refusals = with_bad_pointers(image.as_mut_slice());
    assert!(rt; refusals.places == not_valid(Fid::PLACES, 0));
    assert!(rt; refusals.vehicles == not_valid(Fid::VEHICLES, 0));
    assert!(rt; refusals.days == not_valid(Fid::ACTIVITY, 2));
    Ok(())
}

// The newest minute that a card tells.
fn newest_told(image: &[u8]) -> Option<u32> {
    match seen(image) {
        Ok(told) => Some(told.newest_minute),
        Err(_) => None,
    }
}

// That of such a card.
fn newest(alloc: Global, words: &[u8], last_use: &[u8], session: u8) -> Result<Option<u32>, Memory>
    requires { length words.now ≤ 8 }
{
    let image = card(alloc, words, last_use, session)?;
    Ok(newest_told(&image))
}

#[test]
fn the_newest_minute_of_a_card(rt: HostRuntime) -> Result<(), Fail> {
    let alloc = rt.alloc();
    assert!(rt; newest(alloc, &WORK, &AT_600, 0)? == Some(M0 + 600));
    assert!(rt; newest(alloc, &CLOSED, &AT_600, 0)? == Some(M0 + 601));
    assert!(rt; newest(alloc, &CLOSED, &AT_599, 1)? == Some(M0 + 599));
    Ok(())
}

#[test]
fn a_card_with_a_session(rt: HostRuntime) -> Result<(), Fail> {
    let told = seen(&card(rt.alloc(), &WORK, &AT_600, 7)?);
    let previous = Vehicle {
        odometer_begin: Odometer(0),
        odometer_end: Odometer(0),
        first_use: TimeReal(T0),
        last_use: TimeReal(1267437600),
        registration: Registration([0; 15]),
        counter: [0, 0],
    };
    assert!(rt; matches!(told, Ok(told) if told.session == 7 && told.previous == Some(previous)));
    Ok(())
}

// The card whose minute 600 is its last, with a second day, the next one, of this word.
fn two_days(alloc: Global, words: &[u8], word: [u8; 2], session: u8) -> Result<Vec<u8>, Memory>
    requires { length words.now ≤ 8 }
{
    let mut image = card(alloc, words, &AT_600, session)?;
    let len = 12 + words.len();
    let second = STRING + len;
    let slice = image.as_mut_slice();
    put(slice, STRING - 1, &[len as u8]);
    put(slice, second + 1, &[len as u8]);
    put(slice, second + 3, &[14]);
    put(slice, second + 4, &NEXT_DATE);
    put(slice, second + 9, &[2]);
    put(slice, second + 12, &word);
    Ok(image)
}

// Its newest minute, and why it is refused, if it is.
fn told_of_two_days(
    alloc: Global,
    words: &[u8],
    word: [u8; 2],
    session: u8,
) -> Result<(Option<u32>, Option<InsertFault>), Memory>
    requires { length words.now ≤ 8 }
{
    let image = two_days(alloc, words, word, session)?;
    Ok((newest_told(&image), refused(&image)))
}

#[test]
fn a_day_behind_the_end_mark(rt: HostRuntime) -> Result<(), Fail> {
    let alloc = rt.alloc();
    let absent = [0x20, 0x00];
    let entry = [0x00, 0x00];
    assert!(rt; told_of_two_days(alloc, &CLOSED, absent, 0)?.0 == Some(M0 + 1440));
    // what is open at the mark is not closed at the minute after it
    assert!(rt; told_of_two_days(alloc, &WORK, absent, 0)?.1 == not_valid(Fid::ACTIVITY, 32));
    assert!(rt; told_of_two_days(alloc, &CLOSED, entry, 0)?.1 == not_valid(Fid::ACTIVITY, 34));
    // a session that is open: that day is cut
    assert!(rt; told_of_two_days(alloc, &WORK, entry, 1)?.0 == Some(M0 + 600));
    Ok(())
}

// A day of three words that begins 14 bytes before the end, at 5530, and goes on at the begin.
fn put_round_the_end(image: &mut [u8]) {
    put(image, STRING, &[0; 16]);
    put(image, STRING - 4, &[0x15, 0x9A, 0x15, 0x9A]);
    put(image, STRING + 5533, &[18]);
    put(image, STRING + 5534, &DATE);
    put(image, STRING + 5539, &[1]);
    put(image, STRING + 5542, &[0x20, 0x00]);
    put(image, STRING, &[0x12, 0x58, 0x22, 0x58]);
}

#[test]
fn a_place_behind_the_end_of_the_string(rt: HostRuntime) -> Result<(), Fail> {
    let mut image = card(rt.alloc(), &[], &AT_600, 1)?;
    put_round_the_end(image.as_mut_slice());
    assert!(rt; refused(&image) == not_valid(Fid::ACTIVITY, 6));
    Ok(())
}

// Looks at a card whose call of this number fails, counted from 0.
fn seen_until(
    alloc: Global,
    image: Vec<u8>,
    call: u64,
) -> Result<Result<CardLook, InsertFault>, Memory> {
    let Some(app) = sizes_of(&image) else {
        return Err(Memory);
    };
    let stops = one_stop(alloc, call, Left::Before)?;
    let mut medium = MemMedium::new(alloc, image, 0, 0, stops)?;
    Ok(look(&mut medium, &app))
}

#[test]
fn a_card_that_fails(rt: HostRuntime) -> Result<(), Fail> {
    let alloc = rt.alloc();
    let whole = seen(&card(alloc, &WORK, &AT_600, 0)?);
    // the files that are judged are one read, and Identification is the next
    for call in 0..2 {
        let cut = seen_until(alloc, card(alloc, &WORK, &AT_600, 0)?, call)?;
        assert!(rt; cut == Err(InsertFault::Failed));
    }
    assert!(rt; seen_until(alloc, card(alloc, &WORK, &AT_600, 0)?, 2)? == whole);
    Ok(())
}
