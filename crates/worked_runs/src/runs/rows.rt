//! Worked runs.
ghost use Rattle.tach_media.specs.MemMedium.{memory_state};
ghost use Rattle.unit_model.specs.Image.{IsUnit};

use crate::runs::ran::Ran;
use crate::runs::running::{Stops, calls_of, calls_with, new_devices, new_devices_by, run};
use activity_codec::Slot;
use card_layout::Fid;
use minute_model::Rule;
use recorder_with_cards::{Break, Find, Refused, SlotFault, Verdict};
use run_model::Device;
use std::alloc::{AllocError, Global};
use std::process::Abort;
use std::rt::HostRuntime;
use std::test::Fail;
use tach_media::{Chip, Failed, Left, MemMedium, Stop};
use worked_media::{M0, T0, told_by_card, unclosed_on, unit_bytes};

/// An hour of driving with a card.
pub const DRIVE: &[u8] = b"start 1267401600\ninsert driver a\nrun 60 0\nrun 3540 50\n";

/// It on new devices; whether the unit tells it then, and whether the card does.
fn driven(alloc: Global) -> Result<(Ran, bool, bool), Fail> {
    let mut d = new_devices(alloc, Stops::none(alloc))?;
    let ran = d.run(alloc, DRIVE)?;
    let by_unit = d.unit_tells(alloc, M0 + 57, &[0x0000u16, 0xA000, 0x1801, 0xA801])?;
    let card = told_by_card(alloc, &mut d.card_a)?;
    let by_card = card.last == M0 + 57 && card.words.as_slice() == [0x0000u16, 0x1801].as_slice();
    Ok((ran, by_unit, by_card))
}

#[test]
fn a_driver(rt: HostRuntime) -> Result<(), Fail> {
    let alloc = rt.alloc();
    let (ran, by_unit, by_card) = driven(alloc)?;
    assert!(rt; ran.has(58, 58));
    assert_eq!(rt; (ran.breaks, ran.refused), (0, 0));
    assert!(rt; by_unit);
    assert!(rt; by_card);
    Ok(())
}

/// The same hour by the amended rule of minutes; whether the unit tells it then, and whether the card does.
fn driven_by_the_amended_rule(alloc: Global) -> Result<(Ran, bool, bool), Fail> {
    let mut d = new_devices_by(alloc, Rule::Amended, Stops::none(alloc))?;
    let ran = d.run(alloc, DRIVE)?;
    let by_unit = d.unit_tells(alloc, M0 + 56, &[0x0000u16, 0xA000, 0x1801, 0xA801])?;
    let card = told_by_card(alloc, &mut d.card_a)?;
    let by_card = card.last == M0 + 56 && card.words.as_slice() == [0x0000u16, 0x1801].as_slice();
    Ok((ran, by_unit, by_card))
}

/// A minute is decided one minute later.
#[test]
fn a_driver_by_the_amended_rule(rt: HostRuntime) -> Result<(), Fail> {
    let alloc = rt.alloc();
    let (ran, by_unit, by_card) = driven_by_the_amended_rule(alloc)?;
    assert!(rt; ran.has(57, 57));
    assert_eq!(rt; (ran.breaks, ran.refused), (0, 0));
    assert!(rt; by_unit);
    assert!(rt; by_card);
    Ok(())
}

/// A run on new devices by the amended rule of minutes.
fn run_by_the_amended_rule(alloc: Global, text: &[u8]) -> Result<Ran, Fail> {
    let mut d = new_devices_by(alloc, Rule::Amended, Stops::none(alloc))?;
    d.run(alloc, text)
}

/// A card that is torn out of a unit with the amended rule, and comes back: three minutes were owed to it, and are put
/// on it.
#[test]
fn three_minutes_are_put_on_a_card_by_the_amended_rule(rt: HostRuntime) -> Result<(), Fail> {
    let alloc = rt.alloc();
    let text =
        b"start 1267401600\ninsert driver a\nrun 60 0\nrun 180 50\ntear driver\nrun 120 50\ninsert driver a\nrun 60 0\n";
    let ran = run_by_the_amended_rule(alloc, text)?;
    assert!(rt; ran.has(6, 4) && ran.breaks == 1);
    assert_eq!(rt; ran.replayed(), Some(3));
    Ok(())
}

/// A run with a card of zeros, and how many writes there were on that.
fn run_with_zeros(alloc: Global) -> Result<(Ran, u64), Fail> {
    let mut d = new_devices(alloc, Stops::none(alloc))?;
    d.take_zeros(alloc)?;
    let ran = d.run(alloc, b"start 1267401600\ninsert driver a\nrun 240 0\n")?;
    Ok((ran, d.card_a.clock()))
}

/// An image of zeros is no card: that is found, and nothing is written on it.
#[test]
fn a_card_of_zeros(rt: HostRuntime) -> Result<(), Fail> {
    let alloc = rt.alloc();
    let (ran, writes) = run_with_zeros(alloc)?;
    let find = Find {
        second: T0,
        slot: Slot::Driver,
        verdict: Verdict::NotValid {
            fid: Fid::APPLICATION,
            place: 0,
        },
        begun: 1,
    };
    assert!(rt; ran.is_recorded && ran.finds == 1);
    assert_eq!(rt; ran.last_find, Some(find));
    assert_eq!(rt; (ran.card_a, ran.card_b, writes), (0, 0, 0));
    Ok(())
}

/// The calls of the second before T0 + 240 of a drive with a card, in which its first minute of driving is kept.
const BEFORE: &[u8] = b"start 1267401600\ninsert driver a\nrun 60 0\nrun 179 50\n";

const BEHIND: &[u8] = b"start 1267401600\ninsert driver a\nrun 60 0\nrun 180 50\n";

/// A keep of the card: a drive up to the second before it, and that second too; and the words of the card that is torn
/// out in it, once it has come again.
#[derive(Clone, Copy)]
struct Keep {
    before: &'static [u8],
    behind: &'static [u8],
    words: &'static [u16],
}

/// Its first one, of the minute before it drives, and the next one.
const FIRST_KEEP: Keep = Keep {
    before: b"start 1267401600\ninsert driver a\nrun 60 0\nrun 119 50\n",
    behind: b"start 1267401600\ninsert driver a\nrun 60 0\nrun 120 50\n",
    words: &[0x0000, 0x1801, 0x2002],
};

const NEXT_KEEP: Keep = Keep {
    before: BEFORE,
    behind: BEHIND,
    words: &[0x0000, 0x1801, 0x2003],
};

/// A run on new devices that stop so, and whether the first card has these words then.
fn run_tells(alloc: Global, text: &[u8], stops: Stops, words: &[u16]) -> Result<(Ran, bool), Fail> {
    let mut d = new_devices(alloc, stops)?;
    let ran = d.run(alloc, text)?;
    Ok((ran, d.card_tells(alloc, words)?))
}

/// The card is stopped by this call of the keeping of a minute, and put in again: what it lacks is put on it. Only
/// where it has the minute that is less.
fn torn_once(
    rt: &(impl Abort + AllocGlobal),
    call: u64,
    left: Left,
    has_it: bool,
) -> Result<(), Fail> {
    let alloc = rt.alloc();
    let text =
        b"start 1267401600\ninsert driver a\nrun 60 0\nrun 300 50\ninsert driver a\nrun 60 0\n";
    let stops = Stops::one(alloc, Device::CardA, Stop { call, left })?;
    let (ran, is_told) = run_tells(alloc, text, stops, &[0x0000u16, 0x1801, 0x2003])?;
    let tear = Break::Tear {
        second: T0 + 239,
        slot: Slot::Driver,
        failed: true,
        begun: 0,
        late: true,
    };
    let (kept, put) = if has_it { (2, 1) } else { (3, 2) };
    assert!(rt; ran.has(6, kept) && ran.breaks == 1);
    assert_eq!(rt; ran.last_break, Some(tear));
    assert_eq!(rt; ran.replayed(), Some(put));
    assert!(rt; is_told);
    Ok(())
}

/// Each call of the keeping of that minute. Only behind the last write the card has it.
fn torn_in_keeping(rt: &(impl Abort + AllocGlobal), left: Left) -> Result<(), Fail> {
    let alloc = rt.alloc();
    let from = calls_of(alloc, BEFORE)?.card_a;
    let to = calls_of(alloc, BEHIND)?.card_a;
    assert!(rt; from < to);
    for call in from..to {
        torn_once(rt, call, left, left == Left::After && call == to - 1)?;
    }
    Ok(())
}

#[test]
fn a_card_that_is_stopped_before_a_write(rt: HostRuntime) -> Result<(), Fail> {
    torn_in_keeping(&rt, Left::Before)
}

#[test]
fn a_card_that_is_stopped_behind_a_write(rt: HostRuntime) -> Result<(), Fail> {
    torn_in_keeping(&rt, Left::After)
}

/// The words of the card where the minute of driving was kept before the power-on, and where it was not.
const MINUTE: &[u16] = &[0x0000, 0x1801, 0x2002];

const NO_MINUTE: &[u16] = &[0x0000, 0x2001];

/// The unit is stopped behind this write of the keeping of a minute: the power-on finds the old mark, or the new one,
/// and the entry that the card lacks then is put on it.
fn cut_once(rt: &(impl Abort + AllocGlobal), call: u64, has_it: bool) -> Result<(), Fail> {
    let alloc = rt.alloc();
    let text = b"start 1267401600\ninsert driver a\nrun 60 0\nrun 300 50\n";
    let left = Left::After;
    let stops = Stops::one(alloc, Device::Unit, Stop { call, left })?;
    let words = if has_it { MINUTE } else { NO_MINUTE };
    let found = u8::from(has_it);
    let (ran, is_told) = run_tells(alloc, text, stops, words)?;
    let cut = Break::Cut {
        second: T0 + 239,
        kept: M0 + found as u32,
        failed: true,
        begun: 0,
    };
    assert!(rt; ran.has(1, 1 + found as usize) && ran.breaks == 1);
    assert_eq!(rt; ran.last_break, Some(cut));
    assert_eq!(rt; ran.replayed(), Some(found));
    assert!(rt; is_told);
    Ok(())
}

/// The calls of the unit that a minute's block of detailed speed takes behind the keeping, where another one was added
/// in the same span before it: one read and three writes.
const BLOCK: u64 = 4;

/// Behind the last write of the keeping the unit has the new mark.
#[test]
fn a_unit_that_is_stopped_behind_a_write(rt: HostRuntime) -> Result<(), Fail> {
    let alloc = rt.alloc();
    let from = calls_of(alloc, BEFORE)?.unit;
    let to = calls_of(alloc, BEHIND)?.unit.saturating_sub(BLOCK);
    assert!(rt; from < to);
    for call in from..to {
        cut_once(&rt, call, call == to - 1)?;
    }
    Ok(())
}

/// The index of the newest block of detailed speed, and the third block.
const NEWEST_BLOCK: u32 = 2393644;

const THIRD_BLOCK: u32 = 2393776;

/// What stands there of a unit: the index, and the time of the block.
fn third_block_on(unit: &mut MemMedium) -> Result<([u8; 4], [u8; 4]), Failed>
    requires { IsUnit (memory_state unit.old.log unit.old.counts) }
{
    let newest: [u8; 4] = unit_bytes(&mut *unit, NEWEST_BLOCK)?;
    let time: [u8; 4] = unit_bytes(unit, THIRD_BLOCK)?;
    Ok((newest, time))
}

/// The same behind a drive of 360 seconds that stops so.
fn third_block(alloc: Global, stops: Stops) -> Result<(Ran, [u8; 4], [u8; 4]), Fail> {
    let mut d = new_devices(alloc, stops)?;
    let ran = d.run(alloc, UNTIL)?;
    let (newest, time) = third_block_on(&mut d.unit)?;
    Ok((ran, newest, time))
}

/// The unit is stopped behind this call of the third block, in the second in which a minute was kept: that stays. Two
/// more blocks come when power is back, and where the third one is there, they come behind it.
fn cut_in_block(rt: &(impl Abort + AllocGlobal), call: u64, has_it: bool) -> Result<(), Fail> {
    let alloc = rt.alloc();
    let left = Left::After;
    let (ran, newest, time) = third_block(
        alloc,
        Stops::one(alloc, Device::Unit, Stop { call, left })?,
    )?;
    let cut = Break::Cut {
        second: T0 + 239,
        kept: M0 + 1,
        failed: true,
        begun: 0,
    };
    assert!(rt; ran.has(2, 2) && ran.breaks == 1);
    assert_eq!(rt; ran.last_break, Some(cut));
    assert_eq!(rt; ran.replayed(), Some(0));
    let third = if has_it { T0 + 180 } else { T0 + 240 };
    assert_eq!(rt; time, third.to_be_bytes());
    assert_eq!(rt; newest, [0, 0, 0, if has_it { 4 } else { 3 }]);
    Ok(())
}

/// Each call of the block. Only behind the last write it is there.
#[test]
fn a_unit_that_is_stopped_in_a_block(rt: HostRuntime) -> Result<(), Fail> {
    let to = calls_of(rt.alloc(), BEHIND)?.unit;
    for call in to.saturating_sub(BLOCK)..to {
        cut_in_block(&rt, call, call == to - 1)?;
    }
    Ok(())
}

/// The drive up to the second in which the card is put in again, that second too, and a minute later once more.
const UNTIL: &[u8] = b"start 1267401600\ninsert driver a\nrun 60 0\nrun 300 50\n";

const AGAIN: &[u8] = b"start 1267401600\ninsert driver a\nrun 60 0\nrun 300 50\ninsert driver a\n";

const ONCE_MORE: &[u8] =
    b"start 1267401600\ninsert driver a\nrun 60 0\nrun 300 50\ninsert driver a\nrun 60 0\ninsert driver a\nrun 60 0\n";

/// Two stops of the first card.
fn two(alloc: Global, first: Stop, second: Stop) -> Result<Stops, AllocError> {
    let mut stops = Stops::one(alloc, Device::CardA, first)?;
    stops.card_a.push(second)?;
    Ok(stops)
}

/// The run in which the card comes once more, whether the card has its entries then, and the type and the begin of the
/// session that is noted on it as not closed.
fn run_once_more(alloc: Global, stops: Stops, words: &[u16]) -> Result<(Ran, bool, [u8; 5]), Fail> {
    let mut d = new_devices(alloc, stops)?;
    let ran = d.run(alloc, ONCE_MORE)?;
    let is_told = d.card_tells(alloc, words)?;
    Ok((ran, is_told, unclosed_on(&mut d.card_a)?))
}

/// The card that the first stop has torn out is put in again, and stopped by a call of that: put in once more it has
/// the same entries, and the session that was not closed is noted on it.
fn torn_twice(
    rt: &(impl Abort + AllocGlobal),
    words: &[u16],
    first: Stop,
    second: Stop,
) -> Result<(), Fail> {
    let alloc = rt.alloc();
    let (ran, is_told, unclosed) = run_once_more(alloc, two(alloc, first, second)?, words)?;
    let tear = Break::Tear {
        second: T0 + 360,
        slot: Slot::Driver,
        failed: true,
        begun: 1,
        late: false,
    };
    assert!(rt; ran.is_recorded && ran.breaks == 2);
    assert_eq!(rt; ran.last_break, Some(tear));
    assert!(rt; is_told);
    assert_eq!(rt; unclosed, *b"\x06\x4B\x8B\x03\x80");
    Ok(())
}

/// Each call of its coming again.
fn torn_again(
    rt: &(impl Abort + AllocGlobal),
    words: &[u16],
    call: u64,
    left: Left,
) -> Result<(), Fail> {
    let alloc = rt.alloc();
    let first = Stop { call, left };
    let from = calls_with(alloc, UNTIL, Stops::one(alloc, Device::CardA, first)?)?.card_a;
    let to = calls_with(alloc, AGAIN, Stops::one(alloc, Device::CardA, first)?)?.card_a;
    assert!(rt; from < to);
    for call in from..to {
        torn_twice(rt, words, first, Stop { call, left })?;
    }
    Ok(())
}

/// The same for each call of a keep.
fn torn_in_keep(rt: &(impl Abort + AllocGlobal), keep: Keep, left: Left) -> Result<(), Fail> {
    let alloc = rt.alloc();
    let from = calls_of(alloc, keep.before)?.card_a;
    let to = calls_of(alloc, keep.behind)?.card_a;
    assert!(rt; from < to);
    for first in from..to {
        torn_again(rt, keep.words, first, left)?;
    }
    Ok(())
}

/// Of the first keep, and of the next one.
fn torn_in_repair(rt: &(impl Abort + AllocGlobal), left: Left) -> Result<(), Fail> {
    for keep in [FIRST_KEEP, NEXT_KEEP] {
        torn_in_keep(rt, keep, left)?;
    }
    Ok(())
}

#[test]
fn a_repair_that_is_stopped_before_a_write(rt: HostRuntime) -> Result<(), Fail> {
    torn_in_repair(&rt, Left::Before)
}

#[test]
fn a_repair_that_is_stopped_behind_a_write(rt: HostRuntime) -> Result<(), Fail> {
    torn_in_repair(&rt, Left::After)
}

#[test]
fn a_repair_that_is_stopped_within_a_write(rt: HostRuntime) -> Result<(), Fail> {
    torn_in_repair(&rt, Left::Torn(0xFF))
}

/// The first place of a fault.
const FIRST_FAULT: u32 = 2391674;

/// What stands there of a unit: type, record purpose, begin and end; and both cards' numbers at both.
fn fault_on(unit: &mut MemMedium) -> Result<([u8; 10], [u8; 72]), Failed>
    requires { IsUnit (memory_state unit.old.log unit.old.counts) }
{
    let entry: [u8; 10] = unit_bytes(&mut *unit, FIRST_FAULT)?;
    let numbers: [u8; 72] = unit_bytes(unit, FIRST_FAULT + 10)?;
    Ok((entry, numbers))
}

/// The same behind a run that stops so.
fn fault_noted(alloc: Global, stops: Stops) -> Result<([u8; 10], [u8; 72]), Fail> {
    let mut d = new_devices(alloc, stops)?;
    d.run_whole(alloc, BEHIND)?;
    Ok(fault_on(&mut d.unit)?)
}

/// A card that a failed call tears out is a fault of that second, noted with no card's number: it is out by then.
#[test]
fn a_card_fault_is_noted(rt: HostRuntime) -> Result<(), Fail> {
    let alloc = rt.alloc();
    let call = calls_of(alloc, BEFORE)?.card_a;
    let left = Left::Before;
    let stops = Stops::one(alloc, Device::CardA, Stop { call, left })?;
    let (entry, numbers) = fault_noted(alloc, stops)?;
    assert_eq!(rt; entry, *b"\x40\x00\x4B\x8B\x04\x6F\x4B\x8B\x04\x6F");
    assert_eq!(rt; numbers, [0; 72]);
    Ok(())
}

/// A place for a slot that is empty, and a withdrawal in motion: each is refused with what stands in its way.
#[test]
fn what_is_refused(rt: HostRuntime) -> Result<(), Fail> {
    let alloc = rt.alloc();
    let text =
        b"start 1267401600\ninsert driver a\nplace codriver begin 13 2\nrun 60 0\nwithdraw driver\nrun 60 60\n";
    let ran = run(alloc, text, Stops::none(alloc))?;
    let place = Refused {
        second: T0,
        fault: SlotFault::NoCard(Slot::CoDriver),
        begun: 2,
    };
    let withdrawal = Refused {
        second: T0 + 60,
        fault: SlotFault::Moving(60),
        begun: 1,
    };
    assert!(rt; ran.is_recorded && ran.refused == 2);
    assert_eq!(rt; ran.first_refusal, Some(place));
    assert_eq!(rt; ran.last_refusal, Some(withdrawal));
    Ok(())
}

/// A card is put in at 06:00 of a day on which its driver has worked since 05:00, which is entered by hand; four
/// minutes at rest.
const BY_HAND: &[u8] = b"start 1267423200\ninsert driver a\nmanual driver work 300\nrun 240 0\n";

/// The minute of its first second.
const SIX: u32 = 21123720;

/// It on new devices, and what the first card has of words.
fn entered_by_hand(alloc: Global) -> Result<(Ran, bool), Fail> {
    let mut d = new_devices(alloc, Stops::none(alloc))?;
    let ran = d.run(alloc, BY_HAND)?;
    let card = told_by_card(alloc, &mut d.card_a)?;
    let by_card = card.last == SIX + 1
        && card.words.as_slice() == [0x2000u16, 0x712C, 0x0168].as_slice();
    Ok((ran, by_card))
}

/// The entry by hand stands before the session's first minute, and is no minute of the card.
#[test]
fn an_entry_by_hand(rt: HostRuntime) -> Result<(), Fail> {
    let alloc = rt.alloc();
    let (ran, by_card) = entered_by_hand(alloc)?;
    assert!(rt; ran.has(2, 2));
    assert_eq!(rt; (ran.breaks, ran.refused), (0, 0));
    assert!(rt; by_card);
    Ok(())
}

/// One that is not before the insertion is refused, with the newest minute of the card and the minute of the insertion.
#[test]
fn an_entry_by_hand_that_is_not_free(rt: HostRuntime) -> Result<(), Fail> {
    let alloc = rt.alloc();
    let text = b"start 1267423200\ninsert driver a\nmanual driver work 360\nrun 240 0\n";
    let ran = run(alloc, text, Stops::none(alloc))?;
    let refusal = Refused {
        second: 1267423200,
        fault: SlotFault::NotFree(0, SIX),
        begun: 2,
    };
    assert!(rt; ran.has(2, 2) && ran.refused == 1);
    assert_eq!(rt; ran.first_refusal, Some(refusal));
    Ok(())
}

/// One that comes once the session has kept a minute is refused with that minute, and a ninth one with the number of
/// those that are held.
#[test]
fn entries_by_hand_that_come_too_late_or_too_many(rt: HostRuntime) -> Result<(), Fail> {
    let alloc = rt.alloc();
    let late = b"start 1267423200\ninsert driver a\nrun 240 0\nmanual driver work 300\nrun 60 0\n";
    let ran = run(alloc, late, Stops::none(alloc))?;
    assert_eq!(rt;
        ran.last_refusal.map(|r| r.fault),
        Some(SlotFault::Begun(SIX))
    );
    let many =
        b"start 1267423200\ninsert driver a\nmanual driver work 1\nmanual driver rest 2\nmanual driver work 3\nmanual driver rest 4\nmanual driver work 5\nmanual driver rest 6\nmanual driver work 7\nmanual driver rest 8\nmanual driver work 9\nrun 240 0\n";
    let ran = run(alloc, many, Stops::none(alloc))?;
    assert_eq!(rt; ran.last_refusal.map(|r| r.fault), Some(SlotFault::Full(8)));
    assert!(rt; ran.has(2, 2) && ran.refused == 1);
    Ok(())
}

/// Of a card that is pulled out before its first minute an entry by hand is lost: it has no day.
#[test]
fn a_tear_loses_an_entry_by_hand(rt: HostRuntime) -> Result<(), Fail> {
    let alloc = rt.alloc();
    let text =
        b"start 1267423200\ninsert driver a\nmanual driver work 300\ntear driver\nrun 240 0\n";
    let (ran, is_told) = run_tells(alloc, text, Stops::none(alloc), &[])?;
    assert!(rt; ran.has(2, 0) && ran.breaks == 1);
    assert!(rt; is_told);
    Ok(())
}

/// One at midnight begins its day alone.
#[test]
fn an_entry_by_hand_at_midnight(rt: HostRuntime) -> Result<(), Fail> {
    let alloc = rt.alloc();
    let text = b"start 1267423200\ninsert driver a\nmanual driver rest 0\nrun 240 0\n";
    let (ran, is_told) = run_tells(alloc, text, Stops::none(alloc), &[0x6000u16, 0x0168])?;
    assert!(rt; ran.has(2, 2));
    assert!(rt; is_told);
    Ok(())
}

/// Power is gone and back within the last minute of a day, so the first minute of the card's session is that of the
/// next midnight: an entry by hand of the day before is given up.
#[test]
fn an_entry_by_hand_of_the_day_before_is_given_up(rt: HostRuntime) -> Result<(), Fail> {
    let alloc = rt.alloc();
    let text =
        b"start 1267487940\ninsert driver a\nrun 10 0\noff 20\nmanual driver work 1400\nrun 270 0\n";
    let (ran, is_told) = run_tells(alloc, text, Stops::none(alloc), &[0u16])?;
    assert!(rt; ran.has(3, 2));
    assert_eq!(rt; (ran.breaks, ran.refused), (1, 0));
    assert!(rt; is_told);
    Ok(())
}

/// Ten minutes of a drive with one card, with two, and a minute more of each.
const TEN: &[u8] = b"start 1267401600\ninsert driver a\nrun 600 50\n";

const ELEVEN: &[u8] = b"start 1267401600\ninsert driver a\nrun 660 50\n";

const TEN_OF_TWO: &[u8] = b"start 1267401600\ninsert driver a\ninsert codriver b\nrun 600 50\n";

const ELEVEN_OF_TWO: &[u8] = b"start 1267401600\ninsert driver a\ninsert codriver b\nrun 660 50\n";

/// How many calls the last minute takes: of the unit, and of each card.
fn calls_between(alloc: Global, before: &[u8], behind: &[u8]) -> Result<(u64, u64, u64), Fail> {
    let before = calls_of(alloc, before)?;
    let behind = calls_of(alloc, behind)?;
    Ok((
        behind.unit.saturating_sub(before.unit),
        behind.card_a.saturating_sub(before.card_a),
        behind.card_b.saturating_sub(before.card_b),
    ))
}

/// A minute takes three writes of the unit, three more for each card to which it is owed, and three of each card;
/// nothing is read. Its block of detailed speed takes three writes more of the unit, and one read: the span has added
/// one before, so of the ring the place alone is read that it takes.
#[test]
fn a_minute_with_cards_takes_few_calls(rt: HostRuntime) -> Result<(), Fail> {
    let alloc = rt.alloc();
    assert_eq!(rt; calls_between(alloc, TEN, ELEVEN)?, (10, 3, 0));
    assert_eq!(rt;
        calls_between(alloc, TEN_OF_TWO, ELEVEN_OF_TWO)?,
        (13, 3, 3)
    );
    Ok(())
}
