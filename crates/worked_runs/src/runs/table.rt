//! Each call of each device is stopped, in a run of its own: of six minutes with two drivers, behind which both are put
//! in once more; of an hour, in which two cards are exchanged, one of them is torn out and put in again, and the power
//! is cut; and many calls of all devices in longer runs. All that was acknowledged is there; and behind one more run
//! the cards have what the unit tells of their slots, and the file of each matches that of the unit. So it is by the
//! original rule of minutes, and by the amended one.
ghost use Rattle.tach_media.specs.MemMedium.{memory_state};
ghost use Rattle.unit_model.specs.Image.{IsUnit};

use crate::recording::Recorded;
use crate::runs::matching::{card_file, entries_that_match, unit_file};
use crate::runs::ran::Ran;
use crate::runs::running::{Devices, Stops, calls_by, new_devices_by};
use minute_model::Rule;
use recorder_with_cards::{Mark, Outcome};
use run_model::Device;
use std::alloc::{AllocError, Global};
use std::process::Abort;
use std::rt::HostRuntime;
use std::test::Fail;
use tach_media::{Left, Stop};
use worked_media::{M0, T0, Told, stops, told_by_card, told_by_unit};

/// The minutes of both runs lie in the first so many of the day.
const MINUTES: u16 = 130;

/// The opening of a run alone.
const START: &[u8] = b"start 1267401600\n";

/// Six minutes with two drivers, of whom the first one comes once more, where a stop has torn out the card; else the
/// line is refused.
const SHORT: &[u8] = b"start 1267401600
insert driver a
insert codriver b
run 60 0
run 300 50
insert driver a
run 60 0
";

/// Ten minutes behind the first second both come again.
const SHORT_AGAIN: &[u8] = b"start 1267402200
insert driver a
insert codriver b
run 300 0
withdraw driver
withdraw codriver
run 60 0
";

/// An hour: two cards are put in, and exchange their slots; one of them is pulled out and comes back; the power is cut;
/// both are withdrawn. A line that finds its slot full, or empty, or no power, is refused.
const HOUR: &[u8] = b"start 1267401600
insert driver a
insert codriver b
select driver work
run 300 0
run 720 50
run 60 0
withdraw driver
withdraw codriver
insert driver b
insert codriver a
run 600 40
tear codriver
run 120 0
insert codriver a
run 600 30
off 300
run 600 60
run 60 0
withdraw driver
withdraw codriver
run 240 0
";

/// The same in 23 minutes, without the first line.
const BLOCK: &[u8] = b"insert driver a
insert codriver b
select driver work
run 240 0
run 240 50
run 60 0
withdraw driver
withdraw codriver
insert driver b
insert codriver a
run 180 40
tear codriver
run 60 0
insert codriver a
run 240 30
off 120
run 120 60
run 60 0
withdraw driver
withdraw codriver
run 60 0
";

/// Two hours behind the first second both come again, and are withdrawn.
const HOUR_AGAIN: &[u8] = b"start 1267408800
insert driver a
insert codriver b
run 300 0
withdraw driver
withdraw codriver
run 180 0
";

/// What the devices tell of the day.
#[derive(Drop)]
struct AllTold {
    unit: Told,
    card_a: Told,
    card_b: Told,
}

fn told_by_all(alloc: Global, d: &mut Devices) -> Result<AllTold, Fail> {
    Ok(AllTold {
        unit: told_by_unit(alloc, &mut d.unit, T0)?,
        card_a: told_by_card(alloc, &mut d.card_a)?,
        card_b: told_by_card(alloc, &mut d.card_b)?,
    })
}

impl AllTold {
    /// Whether a device holds a minute that it has acknowledged.
    fn holds(&self, mark: &Mark) -> bool {
        let minute = (mark.minute % 1440) as u16;
        match mark.device {
            Device::Unit => mark.minute <= self.unit.last,
            Device::CardA => self.card_a.entry(M0, minute).is_some(),
            Device::CardB => self.card_b.entry(M0, minute).is_some(),
        }
    }

    /// Whether all that was acknowledged is on the devices.
    fn hold_all(&self, outcome: &Outcome) -> bool {
        for i in 0..outcome.marks.len() {
            if !self.holds(outcome.marks.get(i)) {
                return false;
            }
        }
        true
    }

    /// Whether one card, and no other, has its entry of a minute in a slot, as the unit tells it; or none, where the
    /// unit tells of none.
    fn agree_at(&self, slot: u16, minute: u16) -> bool {
        let kept = self.unit.of_slot(M0, slot, minute);
        let a = self
            .card_a
            .entry(M0, minute)
            .filter(|entry| entry.0 == slot);
        let b = self
            .card_b
            .entry(M0, minute)
            .filter(|entry| entry.0 == slot);
        (a.is_none() || b.is_none()) && a.or(b) == kept
    }

    /// Whether the cards have just what the unit tells of their slots.
    fn agree(&self) -> bool {
        for minute in 0..MINUTES {
            if !self.agree_at(0, minute) || !self.agree_at(1, minute) {
                return false;
            }
        }
        true
    }
}

/// What a run records, and what the one behind it.
#[derive(Clone, Copy)]
struct Traces {
    first: &'static [u8],
    second: &'static [u8],
}

const MINUTES_OF_TWO: Traces = Traces {
    first: SHORT,
    second: SHORT_AGAIN,
};

const HOUR_OF_TWO: Traces = Traces {
    first: HOUR,
    second: HOUR_AGAIN,
};

/// Four of these blocks.
fn blocks(alloc: Global) -> Result<Vec<u8>, AllocError> {
    let mut text = START.to_vec(alloc)?;
    for _ in 0..4 {
        text.extend_from_slice(BLOCK)?;
    }
    Ok(text)
}

/// What both runs tell, and whether all that was acknowledged is there: behind the first one, and behind both, where
/// the cards have just what the unit tells of their slots; and whether the file of each then matches that of the unit.
#[derive(Clone, Copy)]
struct Both {
    first: Ran,
    second: Ran,
    holds: bool,
    agree: bool,
    matched: bool,
}

impl Both {
    /// Whether both were recorded, the second one with no break and no refusal, and all is there.
    fn is_whole(&self) -> bool {
        self.first.is_recorded
            && self.second.is_recorded
            && self.second.breaks == 0
            && self.second.refused == 0
            && self.holds
            && self.agree
            && self.matched
    }
}

/// The first run, and whether all that it has acknowledged is there.
fn run_first(alloc: Global, d: &mut Devices, text: &[u8]) -> Result<(Recorded, bool), Fail>
    requires { IsUnit (memory_state d.old.unit.log d.old.unit.counts) }
{
    let recorded = d.record(alloc, text)?;
    let told = told_by_all(alloc, d)?;
    let holds = told.hold_all(&recorded.outcome);
    Ok((recorded, holds))
}

/// The second one, behind one that told this, on a unit that is read anew.
fn run_second(
    alloc: Global,
    d: &mut Devices,
    text: &[u8],
    first: &Outcome,
) -> Result<(Ran, bool), Fail> {
    d.renew_unit(alloc)?;
    let recorded = d.record(alloc, text)?;
    let told = told_by_all(alloc, d)?;
    let holds = told.hold_all(first) && told.hold_all(&recorded.outcome) && told.agree();
    Ok((Ran::of(&recorded), holds))
}

/// Whether each card has entries, and its file matches that of the unit.
fn match_both(alloc: Global, d: &mut Devices) -> Result<bool, Fail> {
    let image = d.unit_image(alloc)?;
    let unit = unit_file(alloc, image)?;
    let card_a = card_file(alloc, &mut d.card_a)?;
    let card_b = card_file(alloc, &mut d.card_b)?;
    let a = entries_that_match(alloc, unit.as_slice(), card_a.as_slice())?;
    let b = entries_that_match(alloc, unit.as_slice(), card_b.as_slice())?;
    Ok(a.unwrap_or(0) > 0 && b.unwrap_or(0) > 0)
}

/// What is recorded, by which rule of minutes, and what a call that is stopped leaves.
#[derive(Clone, Copy)]
struct Manner {
    traces: Traces,
    rule: Rule,
    left: Left,
}

/// Both runs, with these stops in the first.
fn run_both(
    alloc: Global,
    rule: Rule,
    first: &[u8],
    second: &[u8],
    stops: Stops,
) -> Result<Both, Fail> {
    let mut d = new_devices_by(alloc, rule, stops)?;
    let (recorded, holds) = run_first(alloc, &mut d, first)?;
    let (again, agree) = run_second(alloc, &mut d, second, &recorded.outcome)?;
    Ok(Both {
        first: Ran::of(&recorded),
        second: again,
        holds,
        agree,
        matched: match_both(alloc, &mut d)?,
    })
}

/// One call of a device.
fn stop_call(
    rt: &(impl Abort + AllocGlobal),
    manner: Manner,
    device: Device,
    call: u64,
) -> Result<(), Fail> {
    let alloc = rt.alloc();
    let stop = Stop {
        call,
        left: manner.left,
    };
    let stops = Stops::one(alloc, device, stop)?;
    let traces = manner.traces;
    let both = run_both(alloc, manner.rule, traces.first, traces.second, stops)?;
    assert!(rt; both.is_whole(), "{call}");
    assert!(rt; both.first.failed == 1, "{call}");
    Ok(())
}

/// Each of these calls of a device.
fn stop_calls(
    rt: &(impl Abort + AllocGlobal),
    manner: Manner,
    device: Device,
    from: u64,
    to: u64,
) -> Result<(), Fail> {
    assert!(rt; from < to);
    for call in from..to {
        stop_call(rt, manner, device, call)?;
    }
    Ok(())
}

/// Each call of each device, from the end of the opening to the last of a run without a stop.
fn stop_each(rt: &(impl Abort + AllocGlobal), manner: Manner) -> Result<(), Fail> {
    let alloc = rt.alloc();
    let opening = calls_by(alloc, manner.rule, START)?;
    let whole = calls_by(alloc, manner.rule, manner.traces.first)?;
    for device in [Device::Unit, Device::CardA, Device::CardB] {
        stop_calls(rt, manner, device, opening.of(device), whole.of(device))?;
    }
    Ok(())
}

/// Runs in which 17 calls of the devices are stopped, seven calls later each time.
fn stop_often(rt: &(impl Abort + AllocGlobal), left: Left) -> Result<(), Fail> {
    let alloc = rt.alloc();
    let text = blocks(alloc)?;
    let opening = calls_by(alloc, Rule::Original, START)?;
    for round in 0..8u64 {
        let later = 7 * round;
        let unit = opening.unit.saturating_add(later);
        let card_a = opening.card_a.saturating_add(later);
        let card_b = opening.card_b.saturating_add(2 * later);
        let step = opening.unit.saturating_add(97);
        let stops = Stops {
            unit: stops(alloc, 6, unit, step, 1, left)?,
            card_a: stops(alloc, 6, card_a, 150, 1, left)?,
            card_b: stops(alloc, 5, card_b, 160, 1, left)?,
        };
        let both = run_both(alloc, Rule::Original, &text, HOUR_AGAIN, stops)?;
        assert!(rt; both.is_whole());
        assert!(rt; both.first.breaks >= 17);
    }
    Ok(())
}

#[test]
fn many_stops_in_a_run(rt: HostRuntime) -> Result<(), Fail> {
    for left in [Left::Before, Left::After, Left::Torn(0x55)] {
        stop_often(&rt, left)?;
    }
    Ok(())
}

/// Each call of six minutes.
fn stop_minutes(rt: &(impl Abort + AllocGlobal), rule: Rule, left: Left) -> Result<(), Fail> {
    let traces = MINUTES_OF_TWO;
    stop_each(rt, Manner { traces, rule, left })
}

/// Each call of an hour.
fn stop_hour(rt: &(impl Abort + AllocGlobal), rule: Rule, left: Left) -> Result<(), Fail> {
    let traces = HOUR_OF_TWO;
    stop_each(rt, Manner { traces, rule, left })
}

#[test]
fn six_minutes_before_a_write(rt: HostRuntime) -> Result<(), Fail> {
    stop_minutes(&rt, Rule::Original, Left::Before)
}

#[test]
fn six_minutes_after_a_write(rt: HostRuntime) -> Result<(), Fail> {
    stop_minutes(&rt, Rule::Original, Left::After)
}

#[test]
fn six_minutes_within_a_write(rt: HostRuntime) -> Result<(), Fail> {
    stop_minutes(&rt, Rule::Original, Left::Torn(0xFF))
}

#[test]
fn six_minutes_before_a_write_by_the_amended_rule(rt: HostRuntime) -> Result<(), Fail> {
    stop_minutes(&rt, Rule::Amended, Left::Before)
}

#[test]
fn six_minutes_after_a_write_by_the_amended_rule(rt: HostRuntime) -> Result<(), Fail> {
    stop_minutes(&rt, Rule::Amended, Left::After)
}

#[test]
fn six_minutes_within_a_write_by_the_amended_rule(rt: HostRuntime) -> Result<(), Fail> {
    stop_minutes(&rt, Rule::Amended, Left::Torn(0xFF))
}

#[test]
fn before_a_write(rt: HostRuntime) -> Result<(), Fail> {
    stop_hour(&rt, Rule::Original, Left::Before)
}

#[test]
fn after_a_write(rt: HostRuntime) -> Result<(), Fail> {
    stop_hour(&rt, Rule::Original, Left::After)
}

#[test]
fn within_a_write(rt: HostRuntime) -> Result<(), Fail> {
    stop_hour(&rt, Rule::Original, Left::Torn(0xFF))
}

#[test]
fn before_a_write_by_the_amended_rule(rt: HostRuntime) -> Result<(), Fail> {
    stop_hour(&rt, Rule::Amended, Left::Before)
}

#[test]
fn after_a_write_by_the_amended_rule(rt: HostRuntime) -> Result<(), Fail> {
    stop_hour(&rt, Rule::Amended, Left::After)
}

#[test]
fn within_a_write_by_the_amended_rule(rt: HostRuntime) -> Result<(), Fail> {
    stop_hour(&rt, Rule::Amended, Left::Torn(0xFF))
}
