ghost use Rattle.std.specs.Prelude.{◌≡◌, IfOk, vec_len};

use crate::card::keeping::VEHICLE;
use card_layout::LARGEST_IMAGE;
use std::alloc::Global;
use tach_media::Memory;

/// The size of the flat image of these cards, as long as the largest card's.
const SIZE: usize = LARGEST_IMAGE as usize;

// Application_Identification of a card of 6 events and 12 faults of each type, a string of 5544 bytes, 84 vehicles and
// 84 places.
const SMALLEST: [u8; 10] = [0x01, 0x00, 0x00, 0x06, 0x0C, 0x15, 0xA8, 0x00, 0x54, 0x54];

/// Where the file of days begins on such a card.
pub const DAYS: usize = 43 + 6 * 6 * 24 + 2 * 12 * 24;

/// Where that of vehicles begins behind it.
pub const VEHICLES: usize = DAYS + 5548;

/// And that of the current use, which begins with the session time.
pub const CURRENT_USE: usize = VEHICLES + 2 + 31 * 84 + 1 + 10 * 84;

// The same of a card of 12 events and 24 faults of each type, a string of 13776 bytes, 200 vehicles and 112 places.
const LARGEST: [u8; 10] = [0x01, 0x00, 0x00, 0x0C, 0x18, 0x35, 0xD0, 0x00, 0xC8, 0x70];

const LARGEST_DAYS: usize = 43 + 6 * 12 * 24 + 2 * 24 * 24;

const LARGEST_VEHICLES: usize = LARGEST_DAYS + 13780;

const LARGEST_CURRENT_USE: usize = LARGEST_VEHICLES + 2 + 31 * 200 + 1 + 10 * 112;

/// Two days: one of three words at 0, one of one word at 18.
pub const TWO_DAYS: [u8; 36] = [
    0, 0, 0, 18, 0, 0, 0, 18, 0, 1, 0x51, 0x80, 0, 1, 0, 0, 0, 0, 0x18, 5, 0x28, 5, 0, 18, 0, 14,
    0, 2, 0xA3, 0, 0, 2, 0, 0, 0, 0,
];

/// The image of a blank card of these sizes.
pub fn blank(alloc: Global) -> Result<Vec<u8>, Memory>
    ensures { IfOk result (λ image. vec_len image ≡ LARGEST_IMAGE) }
{
    let mut image = vec![in alloc; 0u8; SIZE]?;
    let place = &mut image[33..43];
    place.copy_from_slice(&SMALLEST);
    Ok(image)
}

/// A card of two days, whose session was left open in the newer one.
pub fn two_days(alloc: Global) -> Result<Vec<u8>, Memory>
    ensures { IfOk result (λ image. vec_len image ≡ LARGEST_IMAGE) }
{
    let mut image = blank(alloc)?;
    let place = &mut image[DAYS..DAYS + 36];
    place.copy_from_slice(&TWO_DAYS);
    let entry = &mut image[VEHICLES + 2..VEHICLES + 33];
    entry.copy_from_slice(&VEHICLE);
    let last_use = &mut image[VEHICLES + 12..VEHICLES + 16];
    last_use.copy_from_slice(&[0, 2, 0xA4, 0x2C]);
    let session = &mut image[CURRENT_USE..CURRENT_USE + 4];
    session.copy_from_slice(&[0, 0, 0, 1]);
    Ok(image)
}

// A day of one word, with its number as its date and its counter.
fn record(day: u32) -> [u8; 14] {
    let date = day % 1000 * 86400;
    [
        0,
        if day == 1 { 0 } else { 14 },
        0,
        14,
        (date / 16777216) as u8,
        (date / 65536 % 256) as u8,
        (date / 256 % 256) as u8,
        (date % 256) as u8,
        (day / 100 % 10) as u8,
        (day / 10 % 10 * 16 + day % 10) as u8,
        0,
        0,
        0,
        0,
    ]
}

/// The string of 396 days of one word, from the oldest on.
pub fn full_string(alloc: Global) -> Result<Vec<u8>, Memory> {
    let mut bytes = Vec::new(alloc);
    for day in 1..397 {
        bytes.extend_from_slice(&record(day))?;
    }
    Ok(bytes)
}

// The entries of 84 vehicles.
fn vehicles(alloc: Global) -> Result<Vec<u8>, Memory> {
    let mut bytes = Vec::new(alloc);
    for _ in 0..84 {
        bytes.extend_from_slice(&VEHICLE)?;
    }
    Ok(bytes)
}

/// A card that is full: of days, the oldest of which stands so many bytes before the string's end, and of vehicles. Its
/// session was left open in the newest day.
pub fn full(alloc: Global, back: usize) -> Result<Vec<u8>, Memory>
    ensures { IfOk result (λ image. vec_len image ≡ LARGEST_IMAGE) }
{
    let string = full_string(alloc)?;
    let vehicles = vehicles(alloc)?;
    let mut image = blank(alloc)?;
    if string.len() != 5544 || vehicles.len() != 31 * 84 || back > 5530 {
        return Err(Memory);
    }
    let oldest = (5544 - back) % 5544;
    let newest = (5530 + 5544 - back) % 5544;
    let pointers = &mut image[DAYS..DAYS + 4];
    pointers.copy_from_slice(&[
        (oldest / 256) as u8,
        (oldest % 256) as u8,
        (newest / 256) as u8,
        (newest % 256) as u8,
    ]);
    let front = &mut image[DAYS + 4..DAYS + 4 + (5544 - back)];
    front.copy_from_slice(&string[back..]);
    let end = &mut image[DAYS + 4 + (5544 - back)..DAYS + 5548];
    end.copy_from_slice(&string[..back]);
    let entries = &mut image[VEHICLES + 2..VEHICLES + 2 + 31 * 84];
    entries.copy_from_slice(&vehicles);
    let session = &mut image[CURRENT_USE..CURRENT_USE + 4];
    session.copy_from_slice(&[0, 0, 0, 1]);
    Ok(image)
}

/// How many days of one word the string of the largest full card has before its newest one, which changes at each
/// minute.
const BEFORE: u32 = 777;

// Its newest day: with its number as its date and its counter.
fn newest_record(alloc: Global) -> Result<Vec<u8>, Memory> {
    let date = (BEFORE + 1) * 86400;
    let mut bytes = Vec::new(alloc);
    bytes.extend_from_slice(&[0, 14, 0x0B, 0x4C])?;
    bytes.extend_from_slice(&[
        (date / 16777216) as u8,
        (date / 65536 % 256) as u8,
        (date / 256 % 256) as u8,
        (date % 256) as u8,
        7,
        0x78,
        0,
        0,
    ])?;
    for minute in 0..1440u16 {
        let word = minute % 2 * 2048 + minute;
        bytes.extend_from_slice(&[(word / 256) as u8, (word % 256) as u8])?;
    }
    Ok(bytes)
}

// The largest card with this string, whose newest day begins at a place, and a vehicle. Its session was left open at
// this second.
fn with_days(alloc: Global, string: &[u8], newest: u32, last_use: u32) -> Result<Vec<u8>, Memory> {
    let mut image = vec![in alloc; 0u8; SIZE]?;
    if string.len() > 13776 {
        return Err(Memory);
    }
    let sizes = &mut image[33..43];
    sizes.copy_from_slice(&LARGEST);
    let pointer = &mut image[LARGEST_DAYS + 2..LARGEST_DAYS + 4];
    pointer.copy_from_slice(&[(newest / 256 % 256) as u8, (newest % 256) as u8]);
    let days = &mut image[LARGEST_DAYS + 4..LARGEST_DAYS + 4 + string.len()];
    days.copy_from_slice(string);
    let entry = &mut image[LARGEST_VEHICLES + 2..LARGEST_VEHICLES + 33];
    entry.copy_from_slice(&VEHICLE);
    let seconds = &mut image[LARGEST_VEHICLES + 12..LARGEST_VEHICLES + 16];
    seconds.copy_from_slice(&[
        (last_use / 16777216) as u8,
        (last_use / 65536 % 256) as u8,
        (last_use / 256 % 256) as u8,
        (last_use % 256) as u8,
    ]);
    let session = &mut image[LARGEST_CURRENT_USE..LARGEST_CURRENT_USE + 4];
    session.copy_from_slice(&[0, 0, 0, 1]);
    Ok(image)
}

/// The largest card, full of days, of which the newest has a word at each minute. Its session was left open at this
/// second.
pub fn largest(alloc: Global, last_use: u32) -> Result<Vec<u8>, Memory> {
    let mut string = Vec::new(alloc);
    for day in 1..=BEFORE {
        string.extend_from_slice(&record(day))?;
    }
    string.extend_from_slice(&newest_record(alloc)?)?;
    // the newest day stands behind the others, 14 bytes each
    with_days(alloc, &string, 14 * BEFORE, last_use)
}

/// The same with days of one word each, as many as the largest string holds.
pub fn most_days(alloc: Global, last_use: u32) -> Result<Vec<u8>, Memory> {
    let mut string = Vec::new(alloc);
    for day in 1..=984 {
        string.extend_from_slice(&record(day))?;
    }
    with_days(alloc, &string, 14 * 983, last_use)
}
