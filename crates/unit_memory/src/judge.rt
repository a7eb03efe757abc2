//! An image is judged, field by field.
ghost use Rattle.std.specs.Prelude.{◌≡◌, ◌≤◌, ◌<◌, ◌+◌, ◌==◌, ◌||◌, nat_lt, IfOk, IfSome, is_err, is_some, true};
ghost use Rattle.unit_model.specs.declared.layout.TheConstants.{DAY_SLOTS, IMAGE_SIZE};
ghost use Rattle.tach_media.specs.Medium.{Reads};
ghost use Rattle.unit_model.specs.Decoding.{first_failing, cell_checks, ring_checks, or_failing};
ghost use Rattle.unit_model.specs.Days.{word_minute};
ghost use Rattle.unit_memory.specs.Judging.{front_of, front_by, rings_of, pointer_passes, turn_at, IsJudged};

use crate::slots::{judge_slots, or_else};
use crate::walk::{Density, Walk};
use activity_codec::{DAY_MINUTES, DAY_SECONDS};
use tach_media::{Failed, Medium, read_number};
use unit_model::layout::{
    CELL_WORD, CELLS, DAY_SLOTS, DAYS, HIGHEST_ODOMETER, INSERTION_SLOTS, INSERTIONS, LAST_KEPT,
    LAST_MINUTE, MOST_OVERS, ODOMETER, OVER_COUNT, OWED_ROWS, PLACE_SLOTS, PLACES, PLAIN_VERSION,
    RULE_BYTE, RULED_VERSION, SPEED_SLOTS, SPEEDS, VERSION, WORD_MINUTES, cell_place,
};

/// What judging an image tells: the place of the first field that fails, the last-kept minute, the pointer of the days,
/// and how their slots stand.
#[derive(Clone, Copy, Debug, PartialEq, Eq)]
pub struct Judged {
    pub bad: Option<u32>,
    pub kept: u32,
    pub pointer: u32,
    pub walk: Walk,
}

/// The first of the failing places, where a field at this place comes after the others.
fn or_failing(found: Option<u32>, place: u32, passes: bool) -> Option<u32>
    ensures { result ≡ or_failing found place passes }
{
    match found {
        Some(first) => Some(first),
        None => { if passes { None } else { Some(place) } }
    }
}

/// The version, the rule byte, the last-kept minute, the odometer, the number of over speedings.
fn bad_front<M: Medium>(unit: &mut M, kept: u32, has_today: bool) -> Result<Option<u32>, Failed>
    requires unit { (M.state unit.old).size ≡ IMAGE_SIZE }
    ensures found { IfOk result (λ found. IfSome (M.state unit.old).image (λ x. found ≡ first_failing
        (front_by kept has_today x))) }
    ensures reads { Reads (M.state unit.old) (M.state unit.new) (is_err result) }
{
    let version = read_number(unit, VERSION.place, VERSION.size)?;
    let rule = read_number(unit, RULE_BYTE.place, RULE_BYTE.size)?;
    let odometer = read_number(unit, ODOMETER.place, ODOMETER.size)?;
    let overs = read_number(unit, OVER_COUNT.place, OVER_COUNT.size)?;
    Ok(front_place(version, rule, kept, has_today, odometer, overs))
}

/// The place of the first field in front that fails.
fn front_place(
    version: u32,
    rule: u32,
    kept: u32,
    has_today: bool,
    odometer: u32,
    overs: u32,
) -> Option<u32>
    ensures { result ≡ first_failing (front_of version rule kept has_today odometer overs) }
{
    if version != PLAIN_VERSION && version != RULED_VERSION {
        return Some(VERSION.place);
    }
    if version != PLAIN_VERSION && rule > 1 {
        return Some(RULE_BYTE.place);
    }
    if kept > LAST_MINUTE || (kept != 0 && !has_today) {
        return Some(LAST_KEPT.place);
    }
    if odometer > HIGHEST_ODOMETER {
        return Some(ODOMETER.place);
    }
    if overs > MOST_OVERS {
        return Some(OVER_COUNT.place);
    }
    None
}

/// The cells of the owed rows.
fn bad_cell<M: Medium>(unit: &mut M) -> Result<Option<u32>, Failed>
    requires works { (M.state unit.old).works ≡ true }
    requires unit { (M.state unit.old).size ≡ IMAGE_SIZE }
    ensures found { IfOk result (λ found. IfSome (M.state unit.old).image (λ x. found ≡ first_failing
        (cell_checks x))) }
    ensures reads { Reads (M.state unit.old) (M.state unit.new) (is_err result) }
{
    let mut found = None;
    for nth in 0..OWED_ROWS * CELLS {
        let place = cell_place(nth);
        let minute = read_number(unit, place, 4)?;
        let word = read_number(unit, place + CELL_WORD.place, 2)?;
        found = or_failing(found, place + CELL_WORD.place, cell_passes(minute, word));
    }
    Ok(found)
}

/// Whether a cell with this minute and this word passes.
fn cell_passes(minute: u32, word: u32) -> bool
    ensures { result ≡ (minute == 0 || nat_lt (word_minute word) 1440) }
{
    minute == 0 || word % WORD_MINUTES < DAY_MINUTES
}

/// The pointers of insertions, places and detailed speed.
fn bad_ring<M: Medium>(unit: &mut M) -> Result<Option<u32>, Failed>
    requires unit { (M.state unit.old).size ≡ IMAGE_SIZE }
    ensures found { IfOk result (λ found. IfSome (M.state unit.old).image (λ x. found ≡ first_failing
        (ring_checks x))) }
    ensures reads { Reads (M.state unit.old) (M.state unit.new) (is_err result) }
{
    let insertion = read_number(unit, INSERTIONS.place, 4)?;
    let place = read_number(unit, PLACES.place, 4)?;
    let speed = read_number(unit, SPEEDS.place, 4)?;
    Ok(ring_place(insertion, place, speed))
}

/// The place of the first pointer of insertions, places and detailed speed that fails.
fn ring_place(insertion: u32, place: u32, speed: u32) -> Option<u32>
    ensures { result ≡ first_failing (rings_of insertion place speed) }
{
    if insertion >= INSERTION_SLOTS {
        return Some(INSERTIONS.place);
    }
    if place >= PLACE_SLOTS {
        return Some(PLACES.place);
    }
    if speed >= SPEED_SLOTS {
        return Some(SPEEDS.place);
    }
    None
}

/// Whether the pointer of the days is an index, their slots are dense, and a later day stands at it.
fn pointer_passes(kept: u32, pointer: u32, walk: Walk) -> bool
    ensures { result ≡ pointer_passes kept pointer walk }
{
    pointer < DAY_SLOTS
        && walk.density != Density::Broken
        && (walk.last_date / DAY_SECONDS <= kept / DAY_MINUTES || walk.last_index == pointer)
}

/// Whether the last-kept minute's day is there.
fn has_today(today: Option<u32>) -> bool
    ensures { result ≡ is_some today }
{
    match today {
        Some(_) => true,
        None => false,
    }
}

/// The index behind the pointer, where the oldest place is; the end where the pointer is no index.
fn turn_at(pointer: u32) -> u32
    ensures turn { result ≡ turn_at pointer }
    ensures below { result ≤ DAY_SLOTS }
{
    if pointer < DAY_SLOTS {
        pointer + 1
    } else {
        DAY_SLOTS
    }
}

/// Judges an image: each field is read once, and the first in order of places that fails is told. It writes nothing.
///
/// # Errors
///
/// `Failed` where the medium failed.
pub fn judge_image<M: Medium>(unit: &mut M) -> Result<Judged, Failed>
    requires unit { (M.state unit.old).size ≡ IMAGE_SIZE }
    ensures judged { IfOk result (λ judged. IfSome (M.state unit.old).image (IsJudged judged)) }
    ensures few { IfOk result (λ judged. judged.walk.there ≤ DAY_SLOTS) }
    ensures reads { Reads (M.state unit.old) (M.state unit.new) (is_err result) }
{
    let kept = read_number(unit, LAST_KEPT.place, LAST_KEPT.size)?;
    let pointer = read_number(unit, DAYS.place, 4)?;
    let turn = turn_at(pointer);
    let (oldest, high) = judge_slots(unit, kept, turn, DAY_SLOTS, Walk::START)?;
    let (walk, low) = judge_slots(unit, kept, 0, turn, oldest)?;
    let has_day = has_today(walk.today);
    let front = bad_front(unit, kept, has_day)?;
    let cell = bad_cell(unit)?;
    let ring = bad_ring(unit)?;
    let point = or_failing(None, DAYS.place, pointer_passes(kept, pointer, walk));
    let slots = or_else(low, high);
    let behind = or_else(slots, ring);
    let from_days = or_else(point, behind);
    let from_cells = or_else(cell, from_days);
    let bad = or_else(front, from_cells);
    Ok(Judged {
        bad,
        kept,
        pointer,
        walk,
    })
}
