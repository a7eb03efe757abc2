//! The words of a day, one after another.
ghost use Rattle.std.specs.Prelude.{◌≡◌, ◌≤◌, ◌<◌, ◌+◌, ◌*◌, ◌^◌, IfOk, IfSome, is_err, length, true};
ghost use Rattle.unit_model.specs.declared.layout.TheConstants.{DAY_SLOTS, DAY_WORD_LIMIT, IMAGE_SIZE};
ghost use Rattle.tach_media.specs.Medium.{Reads};
ghost use Rattle.unit_model.specs.gated_ring.Ring.{number_at};
ghost use Rattle.unit_model.specs.Image.{slot_place, slot_words, words_at};
ghost use Rattle.unit_memory.specs.Scans.{next_scan, driver_next, codriver_next, start, scan_from, is_first_good};

use activity_codec::DAY_MINUTES;
use tach_media::{Failed, Medium};
use unit_model::layout::{DAY_SLOT_SIZE, DAY_WORDS, DAYS, WORD_MINUTES, WORD_SLOT};

// How many words of a day are read at once.
const BLOCK: u32 = 240;

/// What the words of a day say, as far as they were read: how many are not later than a minute of the day, the bits of
/// the states after these, the last word's minute, and for each slot the first minute that its next word may have.
#[derive(Clone, Copy, Debug, PartialEq, Eq)]
pub struct Scan {
    pub count: u32,
    pub driver: u32,
    pub codriver: u32,
    pub minute: u32,
    pub next_driver: u32,
    pub next_codriver: u32,
}

/// After one word more, where it may stand at this place of the day; words later than a minute count for nothing.
fn next_scan(kept: u32, scan: Scan, place: u32, word: u32) -> Option<Scan>
    requires few { scan.count < DAY_WORD_LIMIT }
    ensures next { result ≡ next_scan kept scan place word }
    ensures more { IfSome result (λ next. next.count ≤ scan.count + 1) }
{
    let minute = word % WORD_MINUTES;
    if minute >= DAY_MINUTES || minute < scan.minute || !is_first_good(place, word) {
        return None;
    }
    if word / WORD_SLOT % 2 == 0 {
        return driver_next(kept, scan, word);
    }
    codriver_next(kept, scan, word)
}

/// The first two words are the driver's and the co-driver's at minute 0.
fn is_first_good(place: u32, word: u32) -> bool
    ensures { result ≡ is_first_good place word }
{
    place > 1 || (word / WORD_SLOT % 2 == place && word % WORD_MINUTES == 0)
}

/// What the words say with a driver's word more; nothing where it may not stand there.
fn driver_next(kept: u32, scan: Scan, word: u32) -> Option<Scan>
    requires few { scan.count < DAY_WORD_LIMIT }
    ensures next { result ≡ driver_next kept scan word }
    ensures more { IfSome result (λ next. next.count ≤ scan.count + 1) }
{
    let minute = word % WORD_MINUTES;
    if minute < scan.next_driver {
        return None;
    }
    if kept < minute {
        return Some(Scan {
            count: scan.count,
            driver: scan.driver,
            codriver: scan.codriver,
            minute,
            next_driver: minute + 1,
            next_codriver: scan.next_codriver,
        });
    }
    Some(Scan {
        count: scan.count + 1,
        driver: word / WORD_MINUTES % 16,
        codriver: scan.codriver,
        minute,
        next_driver: minute + 1,
        next_codriver: scan.next_codriver,
    })
}

/// The same with a co-driver's word.
fn codriver_next(kept: u32, scan: Scan, word: u32) -> Option<Scan>
    requires few { scan.count < DAY_WORD_LIMIT }
    ensures next { result ≡ codriver_next kept scan word }
    ensures more { IfSome result (λ next. next.count ≤ scan.count + 1) }
{
    let minute = word % WORD_MINUTES;
    if minute < scan.next_codriver {
        return None;
    }
    if kept < minute {
        return Some(Scan {
            count: scan.count,
            driver: scan.driver,
            codriver: scan.codriver,
            minute,
            next_codriver: minute + 1,
            next_driver: scan.next_driver,
        });
    }
    Some(Scan {
        count: scan.count + 1,
        codriver: word / WORD_MINUTES % 16,
        driver: scan.driver,
        minute,
        next_codriver: minute + 1,
        next_driver: scan.next_driver,
    })
}

/// The number in two bytes.
pub fn word_in(bytes: &[u8], place: u32) -> u32
    requires inside { place + 2 ≤ length bytes.now }
    ensures word { result ≡ number_at bytes.now place 2 }
{
    let from = place as usize;
    u32::from(u16::from_be_bytes([bytes[from], bytes[from + 1]]))
}

/// Goes on over so many words in these bytes, behind so many words of a day whose first word stands at this place of
/// the image.
fn scan_words(
    kept: u32,
    base: u32,
    nth: u32,
    count: u32,
    start: Scan,
    bytes: &[u8],
) -> Result<Scan, u32>
    requires few { start.count ≤ nth }
    requires room { nth + count ≤ DAY_WORD_LIMIT }
    requires inside { 2 * count ≤ length bytes.now }
    requires base { base + 2 * DAY_WORD_LIMIT < 2 ^ 32 }
    ensures scan { result ≡ scan_from kept base nth start (words_at bytes.now 0 count) }
    ensures few { IfOk result (λ scan. scan.count ≤ nth + count) }
{
    let mut scan = start;
    for more in 0..count {
        let word = word_in(bytes, 2 * more);
        match next_scan(kept, scan, nth + more, word) {
            Some(next) => scan = next,
            None => return Err(base + 2 * (nth + more)),
        }
    }
    Ok(scan)
}

/// Reads a block of a day's words at once, and goes on over so many of them.
fn scan_block<M: Medium>(
    unit: &mut M,
    kept: u32,
    base: u32,
    nth: u32,
    count: u32,
    start: Scan,
) -> Result<Result<Scan, u32>, Failed>
    requires few { start.count ≤ nth }
    requires block { count ≤ 240 }
    requires room { nth + 240 ≤ DAY_WORD_LIMIT }
    requires base { base + 2 * DAY_WORD_LIMIT < 2 ^ 32 }
    requires inside { base + 2 * DAY_WORD_LIMIT ≤ (M.state unit.old).size }
    ensures scan { IfOk result (λ found. IfSome (M.state unit.old).image (λ x. found ≡ scan_from kept base nth start
        (words_at x (base + 2 * nth) count))) }
    ensures few { IfOk result (λ found. IfOk found (λ scan. scan.count ≤ nth + count)) }
    ensures reads { Reads (M.state unit.old) (M.state unit.new) (is_err result) }
{
    let mut bytes = [0; 480];
    unit.read_at(base + 2 * nth, &mut bytes)?;
    Ok(scan_words(kept, base, nth, count, start, &bytes))
}

/// Judges the words of a day slot, and tells what those say that are not later than a minute of the day; or the place
/// of the first word that may not stand there. It reads 240 words at once.
///
/// # Errors
///
/// `Failed` where the medium failed.
pub fn scan_day<M: Medium>(
    unit: &mut M,
    index: u32,
    count: u32,
    kept: u32,
) -> Result<Result<Scan, u32>, Failed>
    requires works { (M.state unit.old).works ≡ true }
    requires unit { (M.state unit.old).size ≡ IMAGE_SIZE }
    requires index { index < DAY_SLOTS }
    requires count { count ≤ DAY_WORD_LIMIT }
    ensures scan { IfOk result (λ found. IfSome (M.state unit.old).image (λ x. found ≡ scan_from kept
        (slot_place index + 16) 0 start (slot_words x index count))) }
    ensures reads { Reads (M.state unit.old) (M.state unit.new) (is_err result) }
{
    let base = DAYS.place + 4 + index * DAY_SLOT_SIZE + DAY_WORDS.place;
    let mut scan = Scan {
        count: 0,
        driver: 4,
        codriver: 4,
        minute: 0,
        next_driver: 0,
        next_codriver: 0,
    };
    for block in 0..(count + BLOCK - 1) / BLOCK {
        let nth = block * BLOCK;
        let more = (count - nth).min(BLOCK);
        let found = scan_block(unit, kept, base, nth, more, scan)?;
        match found {
            Ok(next) => scan = next,
            Err(place) => return Ok(Err(place)),
        }
    }
    Ok(Ok(scan))
}
