//! The day slots of an image, judged one after the other: of each its head is read once, and then its words.
ghost use Rattle.std.specs.Prelude.{◌≡◌, ◌≤◌, ◌<◌, ◌+◌, ◌*◌, ◌-◌, ◌/◌, ◌^◌, IfNone, IfOk, IfSome, is_err, length, true};
ghost use Rattle.unit_model.specs.declared.layout.TheConstants.{DAY_SLOTS, DAY_WORD_LIMIT, IMAGE_SIZE};
ghost use Rattle.std.specs.List.{range_with_len};
ghost use Rattle.tach_media.specs.Medium.{Reads};
ghost use Rattle.unit_model.specs.gated_ring.Ring.{number_at};
ghost use Rattle.unit_model.specs.Image.{slot_date};
ghost use Rattle.unit_model.specs.Decoding.{first_failing, or_else};
ghost use Rattle.unit_memory.specs.Walks.{next_walk, walk_from};
ghost use Rattle.unit_memory.specs.Judging.{date_passes, day_front, day_checks_by, slot_checks_by, slots_by, head_in};
ghost use Rattle.unit_memory.specs.Judging.{head_at, failed_of};

use crate::walk::{Walk, next_walk};
use crate::words::{Scan, scan_day, word_in};
use activity_codec::{DAY_MINUTES, DAY_SECONDS};
use tach_media::{Failed, Medium};
use unit_model::layout::{
    DAY_COUNT, DAY_DATE, DAY_ODOMETER, DAY_SLOT_SIZE, DAY_WORD_LIMIT, DAYS, HIGHEST_ODOMETER,
};

/// What stands in front of a slot's words: its date, its odometer, and how many words it has.
#[derive(Clone, Copy, Debug, PartialEq, Eq)]
pub struct Head {
    pub date: u32,
    pub odometer: u32,
    pub count: u32,
}

/// The number in four bytes.
fn four_in(bytes: &[u8], place: u32) -> u32
    requires { place + 4 ≤ length bytes.now }
    ensures { result ≡ number_at bytes.now place 4 }
{
    let from = place as usize;
    u32::from_be_bytes([
        bytes[from],
        bytes[from + 1],
        bytes[from + 2],
        bytes[from + 3],
    ])
}

/// What stands in front of a slot's words, in the slot's bytes.
fn head_in(bytes: &[u8]) -> Head
    requires { 10 ≤ length bytes.now }
    ensures { result ≡ head_in bytes.now }
{
    Head {
        date: four_in(bytes, DAY_DATE.place),
        odometer: four_in(bytes, DAY_ODOMETER.place),
        count: word_in(bytes, DAY_COUNT.place),
    }
}

/// Reads what stands in front of a slot's words.
fn read_head<M: Medium>(unit: &mut M, index: u32) -> Result<Head, Failed>
    requires unit { (M.state unit.old).size ≡ IMAGE_SIZE }
    requires index { index < DAY_SLOTS }
    ensures head { IfOk result (λ head. IfSome (M.state unit.old).image (λ x. head ≡ head_at x index)) }
    ensures reads { Reads (M.state unit.old) (M.state unit.new) (is_err result) }
{
    let mut bytes = [0; 10];
    unit.read_at(DAYS.place + 4 + index * DAY_SLOT_SIZE, &mut bytes)?;
    Ok(head_in(&bytes))
}

/// Whether a date may stand behind days up to the latest one.
fn date_passes(kept: u32, latest: u32, date: u32) -> bool
    ensures { result ≡ date_passes kept latest date }
{
    date % DAY_SECONDS == 0
        && latest < date
        && (date / DAY_SECONDS <= kept / DAY_MINUTES || latest / DAY_SECONDS <= kept / DAY_MINUTES)
}

/// A day slot that is there.
fn bad_day<M: Medium>(
    unit: &mut M,
    kept: u32,
    index: u32,
    head: Head,
    latest: u32,
) -> Result<Option<u32>, Failed>
    requires works { (M.state unit.old).works ≡ true }
    requires unit { (M.state unit.old).size ≡ IMAGE_SIZE }
    requires index { index < DAY_SLOTS }
    ensures found { IfOk result (λ found. IfSome (M.state unit.old).image (λ x. found ≡ first_failing
        (day_checks_by kept latest head x index))) }
    ensures reads { Reads (M.state unit.old) (M.state unit.new) (is_err result) }
{
    let place = DAYS.place + 4 + index * DAY_SLOT_SIZE;
    let passes = date_passes(kept, latest, head.date);
    match day_place(place, passes, head.odometer, head.count) {
        Some(found) => Ok(Some(found)),
        None => {
            let scan = scan_day(unit, index, head.count, 1439)?;
            Ok(failed_of(scan))
        }
    }
}

/// The place of the first field in front of a day's words that fails.
fn day_place(place: u32, passes: bool, odometer: u32, count: u32) -> Option<u32>
    requires { place + 8 < 2 ^ 32 }
    ensures found { result ≡ first_failing (day_front place passes odometer count) }
    ensures few { IfNone result (count ≤ DAY_WORD_LIMIT) }
{
    if !passes {
        return Some(place);
    }
    if odometer > HIGHEST_ODOMETER {
        return Some(place + DAY_ODOMETER.place);
    }
    if count < 2 || count > DAY_WORD_LIMIT {
        return Some(place + DAY_COUNT.place);
    }
    None
}

/// The place at which a scan failed, if it did.
fn failed_of(scan: Result<Scan, u32>) -> Option<u32>
    ensures { result ≡ failed_of scan }
{
    match scan {
        Ok(_) => None,
        Err(place) => Some(place),
    }
}

/// The first of two.
pub fn or_else(found: Option<u32>, other: Option<u32>) -> Option<u32>
    ensures { result ≡ or_else found other }
{
    match found {
        Some(first) => Some(first),
        None => other,
    }
}

/// The slot of one index more: the walk with it, and the place of its first field that fails behind the days before.
fn judge_slot<M: Medium>(
    unit: &mut M,
    kept: u32,
    index: u32,
    walk: Walk,
) -> Result<(Walk, Option<u32>), Failed>
    requires works { (M.state unit.old).works ≡ true }
    requires unit { (M.state unit.old).size ≡ IMAGE_SIZE }
    requires index { index < DAY_SLOTS }
    requires few { walk.there < DAY_SLOTS }
    ensures walk { IfOk result (λ found. IfSome (M.state unit.old).image (λ x. found.0 ≡ next_walk (kept / 1440) walk
        index (slot_date x index))) }
    ensures bad { IfOk result (λ found. IfSome (M.state unit.old).image (λ x. found.1 ≡ first_failing
        (slot_checks_by kept walk.latest x index))) }
    ensures few { IfOk result (λ found. found.0.there ≤ walk.there + 1) }
    ensures reads { Reads (M.state unit.old) (M.state unit.new) (is_err result) }
{
    let head = read_head(unit, index)?;
    let next = next_walk(kept / DAY_MINUTES, walk, index, head.date);
    if head.date == 0 {
        return Ok((next, None));
    }
    let bad = bad_day(unit, kept, index, head, walk.latest)?;
    Ok((next, bad))
}

/// Goes on over the slots from one index to another: the walk with them, and the place of the first field that fails.
///
/// # Errors
///
/// `Failed` where the medium failed.
pub fn judge_slots<M: Medium>(
    unit: &mut M,
    kept: u32,
    from: u32,
    to: u32,
    start: Walk,
) -> Result<(Walk, Option<u32>), Failed>
    requires works { (M.state unit.old).works ≡ true }
    requires unit { (M.state unit.old).size ≡ IMAGE_SIZE }
    requires order { from ≤ to }
    requires below { to ≤ DAY_SLOTS }
    requires few { start.there + (to - from) ≤ DAY_SLOTS }
    ensures walk { IfOk result (λ found. IfSome (M.state unit.old).image (λ x. found.0 ≡ walk_from (kept / 1440) x start
        (range_with_len from (to - from)))) }
    ensures bad { IfOk result (λ found. IfSome (M.state unit.old).image (λ x. found.1 ≡ first_failing
        (slots_by kept x start.latest (range_with_len from (to - from))))) }
    ensures few { IfOk result (λ found. found.0.there ≤ start.there + (to - from)) }
    ensures reads { Reads (M.state unit.old) (M.state unit.new) (is_err result) }
{
    let mut walk = start;
    let mut found = None;
    for index in from..to {
        let (next, bad) = judge_slot(unit, kept, index, walk)?;
        walk = next;
        found = or_else(found, bad);
    }
    Ok((walk, found))
}
