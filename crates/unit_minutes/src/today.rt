//! The day of the last-kept minute, as it is read.
ghost use Rattle.std.specs.Prelude.{◌≡◌, ◌≤◌, ◌<◌, ◌+◌, ◌*◌, ◌-◌, ◌%◌, IfOk, IfErr, IfSome, is_err, true, None, []};
ghost use Rattle.std.specs.Prelude.{min, unwrap_or};
ghost use Rattle.unit_model.specs.declared.layout.TheConstants.{DAY_SLOTS, DAY_WORD_LIMIT, DAY_WORDS, IMAGE_SIZE};
ghost use Rattle.std.specs.Option.{ForSome};
ghost use Rattle.tach_media.specs.Medium.{Reads};
ghost use Rattle.unit_model.specs.Decoding.{first_failing, word_checks};
ghost use Rattle.unit_model.specs.Image.{day_ring, slot_place, slot_count, slot_words, stray_of};
ghost use Rattle.gated_ring.specs.Ring.{pointer};
ghost use Rattle.unit_memory.specs.Fault.{IfBadUnit, has_failed};
ghost use Rattle.unit_minutes.specs.Image.{IsToday};
ghost use Rattle.unit_minutes.specs.Today.{today_of, recorded_days};

use crate::bits::{BARE, SlotBits};
use activity_codec::{DAY_MINUTES, DAY_SECONDS};
use gated_ring::{Ring, RingFault};
use tach_media::{Failed, Medium, read_number};
use unit_memory::{Scan, UnitFault, scan_day};
use unit_model::layout::{
    DAY_COUNT, DAY_DATE, DAY_SLOT_SIZE, DAY_SLOTS, DAY_WORD_LIMIT, DAYS, slot_place,
};

/// What is read of the last-kept minute's day: its stored count, how many of its words are not later, and the bits of
/// the states after them.
#[derive(Clone, Copy, Debug, PartialEq, Eq)]
pub struct Today {
    pub stored: u32,
    pub count: u32,
    pub bits: SlotBits,
}

/// The ring of the day slots, whose pointer is known to be an index.
///
/// # Errors
///
/// `Failed` where the medium failed; `BadUnit` never of a unit that tells its image.
pub fn day_ring<M: Medium>(unit: &mut M) -> Result<Ring, UnitFault>
    requires unit { (M.state unit.old).size ≡ IMAGE_SIZE }
    requires known { IfSome (M.state unit.old).image (λ x. pointer day_ring x < DAY_SLOTS) }
    ensures ring { IfOk result (λ ring. ring ≡ day_ring) }
    ensures bad { IfErr result (λ fault. IfBadUnit fault (λ p. IfSome (M.state unit.old).image (λ x. ⊥))) }
    ensures reads { Reads (M.state unit.old) (M.state unit.new) (has_failed result) }
{
    let ring = Ring::load(
        unit,
        DAYS.place,
        DAY_SLOT_SIZE,
        DAY_SLOTS,
        4,
        DAY_DATE.place,
    );
    match ring {
        Ok(ring) => Ok(ring),
        Err(RingFault::Failed) => Err(UnitFault::Failed),
        Err(RingFault::BadPointer(_)) => Err(UnitFault::BadUnit(DAYS.place)),
    }
}

/// How many of the days that are there are recorded: a later one is not, and before the first minute none is.
pub fn recorded_days(kept: u32, there: u32, stray: Option<u32>) -> u32
    requires { there ≤ DAY_SLOTS }
    ensures count { result ≡ recorded_days kept there stray }
    ensures few { result ≤ DAY_SLOTS }
    ensures none { kept ≡ 0 → result ≡ 0 }
{
    if kept == 0 {
        return 0;
    }
    match stray {
        Some(_) => there.saturating_sub(1),
        None => there,
    }
}

/// The index of the last-kept minute's day, where it was found; 0 where it was not.
pub fn index_of(today: Option<u32>) -> u32
    ensures index { result ≡ min (unwrap_or today 0) (DAY_SLOTS - 1) }
    ensures below { result < DAY_SLOTS }
{
    match today {
        Some(index) => index.min(DAY_SLOTS - 1),
        None => 0,
    }
}

/// The index of the pointer, where the last day that is there, of this date, is later than the last-kept minute's: then
/// it stands at the pointer.
pub fn later_day(kept: u32, pointer: u32, date: u32) -> Option<u32>
    requires index { pointer < DAY_SLOTS }
    ensures stray { result ≡ stray_of kept pointer date }
    ensures below { ForSome result (λ s. s < DAY_SLOTS) }
{
    if date == 0 {
        return None;
    }
    if date / DAY_SECONDS <= kept / DAY_MINUTES {
        return None;
    }
    Some(pointer)
}

/// Reads the last-kept minute's day; there is none where that minute is 0.
///
/// # Errors
///
/// `Failed` where the medium failed.
pub fn read_today<M: Medium>(unit: &mut M, kept: u32, index: u32) -> Result<Today, Failed>
    requires works { (M.state unit.old).works ≡ true }
    requires unit { (M.state unit.old).size ≡ IMAGE_SIZE }
    requires index { index < DAY_SLOTS }
    ensures found { IfOk result (λ today. IfSome (M.state unit.old).image (λ x. 0 < kept → slot_count x index
        ≤ DAY_WORD_LIMIT → first_failing (word_checks (slot_place index + DAY_WORDS.place) []
        (slot_words x index (slot_count x index))) ≡ None → IsToday kept index today x)) }
    ensures count { IfOk result (λ today. today.count ≤ 2 * (kept % 1440 + 1)) }
    ensures driver { IfOk result (λ today. today.bits.driver < 16) }
    ensures codriver { IfOk result (λ today. today.bits.codriver < 16) }
    ensures reads { Reads (M.state unit.old) (M.state unit.new) (is_err result) }
{
    if kept == 0 {
        return Ok(Today {
            stored: 0,
            count: 0,
            bits: BARE,
        });
    }
    let place = slot_place(index) + DAY_COUNT.place;
    let stored = read_number(unit, place, DAY_COUNT.size)?.min(DAY_WORD_LIMIT);
    let scan = scan_day(unit, index, stored, kept % DAY_MINUTES)?;
    Ok(today_of(kept % DAY_MINUTES, stored, scan))
}

/// What a scan says, within its ranges.
fn today_of(last: u32, stored: u32, scan: Result<Scan, u32>) -> Today
    requires { last < 1440 }
    ensures today { result ≡ today_of last stored scan }
    ensures count { result.count ≤ 2 * (last + 1) }
    ensures driver { result.bits.driver < 16 }
    ensures codriver { result.bits.codriver < 16 }
{
    match scan {
        Ok(scan) => Today {
            stored,
            count: scan.count.min(2 * (last + 1)),
            bits: SlotBits {
                driver: scan.driver % 16,
                codriver: scan.codriver % 16,
            },
        },
        Err(_) => Today {
            stored,
            count: 0,
            bits: BARE,
        },
    }
}
