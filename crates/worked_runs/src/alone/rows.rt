//! Runs on a unit.
use crate::alone::running::{ROOM, Ran, run_alone};
use recorder_with_cards::{Break, Refused, RunFault, SlotFault};
use run_model::Device;
use std::alloc::Global;
use std::process::Abort;
use std::rt::HostRuntime;
use std::test::Fail;
use tach_media::{Left, Medium, MemMedium, Stop};
use worked_media::{M0, Room, T0, held_by_unit, new_unit, one_stop, stops, unit_tells};

/// A run on a new unit whose calls stop so, and how many calls and writes of the unit it takes.
#[derive(Clone, Copy)]
struct Counted {
    ran: Ran,
    calls: u64,
    writes: u64,
}

fn count_run(alloc: Global, text: &[u8], stops: Vec<Stop>) -> Result<Counted, Fail> {
    let mut unit = new_unit(alloc, 0, ROOM, stops)?;
    let ran = run_alone(alloc, text, &mut unit)?;
    Ok(Counted {
        ran,
        calls: unit.calls(),
        writes: unit.clock(),
    })
}

/// A run on a new unit, and whether that tells this last-kept minute then, and these words of the first day.
fn run_tells(alloc: Global, text: &[u8], kept: u32, words: &[u16]) -> Result<(Ran, bool), Fail> {
    let mut unit = new_unit(alloc, 0, ROOM, Vec::new(alloc))?;
    let ran = run_alone(alloc, text, &mut unit)?;
    Ok((ran, unit_tells(alloc, &mut unit, T0, kept, words)?))
}

/// Two runs, one after the other, on a new unit whose calls stop so.
fn twice(alloc: Global, text: &[u8], again: &[u8], stops: Vec<Stop>) -> Result<(Ran, Ran), Fail> {
    let mut unit = new_unit(alloc, 0, ROOM, stops)?;
    let first = run_alone(alloc, text, &mut unit)?;
    let second = run_alone(alloc, again, &mut unit)?;
    Ok((first, second))
}

/// An hour of driving.
const DRIVE: &[u8] = b"start 1267401600\nrun 60 0\nrun 3540 50\n";

/// What a unit holds: the last-kept minute, the odometer, and whether these are the words of the first day.
fn held_with(alloc: Global, unit: &mut MemMedium, words: &[u16]) -> Result<(u32, u32, bool), Fail> {
    let held = held_by_unit(alloc, unit, T0)?;
    Ok((held.kept, held.odometer, held.words.as_slice() == words))
}

/// The hour on a new unit, the same again, and what the unit holds then.
fn driven_twice(alloc: Global, words: &[u16]) -> Result<(Ran, Ran, (u32, u32, bool)), Fail> {
    let mut unit = new_unit(alloc, 0, ROOM, Vec::new(alloc))?;
    let first = run_alone(alloc, DRIVE, &mut unit)?;
    let again = run_alone(alloc, DRIVE, &mut unit)?;
    Ok((first, again, held_with(alloc, &mut unit, words)?))
}

#[test]
fn a_drive_is_kept(rt: HostRuntime) -> Result<(), Fail> {
    let alloc = rt.alloc();
    let words = [0x2000u16, 0xA000, 0x3801, 0xA801];
    let (ran, again, held) = driven_twice(alloc, &words)?;
    assert!(rt; ran.has(58, 0, 0));
    assert_eq!(rt; ran.last, Some(M0 + 57));
    assert_eq!(rt; again.ended, Err(RunFault::ClockBack(M0 + 57, T0)));
    assert_eq!(rt; held, (M0 + 57, 47, true));
    Ok(())
}

#[test]
fn a_gap_stands_as_rest(rt: HostRuntime) -> Result<(), Fail> {
    let alloc = rt.alloc();
    let text = b"start 1267401600\nrun 300 50\noff 600\nrun 300 50";
    let words = [0x3800u16, 0xA800, 0x2003, 0xA003, 0x380F, 0xA80F];
    let (ran, is_told) = run_tells(alloc, text, M0 + 17, &words)?;
    assert!(rt; ran.ended.is_ok() && ran.marks == 6);
    assert!(rt; is_told);
    Ok(())
}

#[test]
fn an_off_line_at_the_beginning_is_no_cut(rt: HostRuntime) -> Result<(), Fail> {
    let alloc = rt.alloc();
    let text = b"start 1267401600\noff 90\nrun 300 0\noff 7\noff 7";
    let ran = count_run(alloc, text, Vec::new(alloc))?.ran;
    assert!(rt; ran.has(3, 1, 0));
    assert_eq!(rt; ran.first, Some(M0 + 1));
    Ok(())
}

/// How many words a unit that has kept this minute has of the day of a second.
fn words_on(alloc: Global, unit: &mut MemMedium, kept: u32, second: u32) -> Result<usize, Fail> {
    let held = held_by_unit(alloc, unit, second)?;
    if held.kept != kept {
        return Err(Fail::from("another minute is the last-kept one"));
    }
    Ok(held.words.len())
}

/// A run of 400 days, and how many words there are of the last one, of the 34th and of the 35th.
fn words_of_400_days(alloc: Global) -> Result<(Ran, [usize; 3]), Fail> {
    let room = Room {
        writes: 4000000,
        bytes: 40000000,
    };
    let mut unit = new_unit(alloc, 0, room, Vec::new(alloc))?;
    let ran = run_alone(alloc, b"start 1267401600\nrun 34560000 0", &mut unit)?;
    let kept = M0 + 575997;
    let newest = words_on(alloc, &mut unit, kept, T0 + 34560000 - 86400)?;
    let lost = words_on(alloc, &mut unit, kept, T0 + 33 * 86400)?;
    let oldest = words_on(alloc, &mut unit, kept, T0 + 34 * 86400)?;
    Ok((ran, [newest, lost, oldest]))
}

/// 400 days in one line: the newest 366 days are there.
#[test]
fn the_longest_trace_is_kept(rt: HostRuntime) -> Result<(), Fail> {
    let alloc = rt.alloc();
    let (ran, words) = words_of_400_days(alloc)?;
    assert!(rt; ran.has(575998, 0, 0));
    assert_eq!(rt; words, [2, 0, 2]);
    Ok(())
}

/// How many calls the opening of a run makes.
fn calls_of_the_opening(alloc: Global) -> Result<u64, Fail> {
    Ok(count_run(alloc, b"start 1267401600", Vec::new(alloc))?.calls)
}

/// Calls of four hours, over a midnight, are cut short in this manner, each of them by a call later behind the power-on
/// before it: each is told as a cut, each power-on finds what was acknowledged before, and the unit can be recorded on
/// again.
fn stop_often(rt: &(impl Abort + AllocGlobal), left: Left) -> Result<(), Fail> {
    let alloc = rt.alloc();
    let load = calls_of_the_opening(alloc)?;
    let first = load.saturating_add(load);
    let stops = stops(alloc, 24, first, load.saturating_add(1), 1, left)?;
    let text = b"start 1267484400\nrun 7200 50\nrun 7200 0";
    let (ran, again) = twice(alloc, text, b"start 1267498800\nrun 300 10", stops)?;
    assert!(rt; ran.ended.is_ok() && ran.breaks == 24 && ran.is_right);
    assert!(rt; again.ended.is_ok() && again.marks == 3);
    Ok(())
}

#[test]
fn stops_before_a_write(rt: HostRuntime) -> Result<(), Fail> {
    stop_often(&rt, Left::Before)
}

#[test]
fn stops_after_a_write(rt: HostRuntime) -> Result<(), Fail> {
    stop_often(&rt, Left::After)
}

#[test]
fn torn_writes(rt: HostRuntime) -> Result<(), Fail> {
    stop_often(&rt, Left::Torn(0x55))
}

/// Forty minutes.
const FORTY: &[u8] = b"start 1267401600\nrun 1200 50\nrun 1200 0\n";

/// This call fails, and that is a cut, behind which no power-on comes in the last second alone; the unit can be
/// recorded on again.
fn stop_once(rt: &(impl Abort + AllocGlobal), call: u64, left: Left) -> Result<(), Fail> {
    let alloc = rt.alloc();
    let last = Break::Cut {
        second: T0 + 2399,
        kept: 0,
        failed: true,
        begun: 0,
    };
    let stops = one_stop(alloc, call, left)?;
    let (ran, again) = twice(alloc, FORTY, b"start 1267404300\nrun 300 10", stops)?;
    assert!(rt; ran.ended.is_ok() && ran.breaks == 1, "{call}");
    assert!(rt; ran.is_right || ran.cut == Some(last), "{call}");
    assert!(rt; again.ended.is_ok() && again.marks == 3, "{call}");
    Ok(())
}

/// Each call of forty minutes, from the end of the opening to the last one, fails in a run of its own.
fn stop_each(rt: &(impl Abort + AllocGlobal), left: Left) -> Result<(), Fail> {
    let alloc = rt.alloc();
    let from = calls_of_the_opening(alloc)?;
    let whole = count_run(alloc, FORTY, Vec::new(alloc))?;
    assert!(rt; whole.ran.ended.is_ok() && from < whole.calls);
    for call in from..whole.calls {
        stop_once(rt, call, left)?;
    }
    Ok(())
}

#[test]
fn each_call_stops(rt: HostRuntime) -> Result<(), Fail> {
    for left in [Left::Before, Left::After, Left::Torn(0xFF)] {
        stop_each(&rt, left)?;
    }
    Ok(())
}

#[test]
fn a_failing_power_on_is_a_cut(rt: HostRuntime) -> Result<(), Fail> {
    let alloc = rt.alloc();
    let first = calls_of_the_opening(alloc)?;
    let stops = stops(alloc, 60, first, 1, 0, Left::Before)?;
    let text = b"start 1267401600\nrun 3600 0\nrun 300 0";
    let ran = count_run(alloc, text, stops)?.ran;
    let cut = Break::Cut {
        second: T0 + 3540,
        kept: 0,
        failed: true,
        begun: 0,
    };
    assert!(rt; ran.has(3, 60, 0));
    assert_eq!(rt; ran.cut, Some(cut));
    Ok(())
}

#[test]
fn an_action_without_power_is_refused(rt: HostRuntime) -> Result<(), Fail> {
    let alloc = rt.alloc();
    let first = calls_of_the_opening(alloc)?;
    let stops = one_stop(alloc, first, Left::Before)?;
    let text =
        b"start 1267401600\nselect driver work\nrun 30 0\nselect driver work\nselect driver work\nrun 300 0";
    let ran = count_run(alloc, text, stops)?.ran;
    let refused = Refused {
        second: T0 + 30,
        fault: SlotFault::NoPower,
        begun: 2,
    };
    assert!(rt; ran.ended.is_ok() && ran.marks == 2 && ran.refused == 2);
    assert_eq!(rt; ran.refusal, Some(refused));
    Ok(())
}

/// That a unit of which this call fails is refused in the opening, and is as it was.
fn fails_at(rt: &(impl Abort + AllocGlobal), call: u64) -> Result<(), Fail> {
    let alloc = rt.alloc();
    let stops = one_stop(alloc, call, Left::Before)?;
    let counted = count_run(alloc, b"start 1267401600\nrun 300 0\n", stops)?;
    let failed = Err(RunFault::MediumFault(Device::Unit));
    assert_eq!(rt; counted.ran.ended, failed);
    assert_eq!(rt; (counted.ran.marks, counted.writes), (0, 0));
    Ok(())
}

#[test]
fn a_unit_that_fails_in_the_opening_is_told(rt: HostRuntime) -> Result<(), Fail> {
    fails_at(&rt, 0)?;
    fails_at(&rt, 1)?;
    fails_at(&rt, 300)
}

#[test]
fn the_writes_of_an_hour_of_driving(rt: HostRuntime) -> Result<(), Fail> {
    let alloc = rt.alloc();
    let writes = count_run(alloc, DRIVE, Vec::new(alloc))?.writes;
    // three a minute, two more where the day begins, and two for the words of the second minute; and of the 59 blocks
    // of detailed speed two for the first and three for each other one
    assert_eq!(rt; writes, 58 * 3 + 2 + 2 + 2 + 58 * 3);
    Ok(())
}
