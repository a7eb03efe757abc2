//! The messages, part after part (Annex IB, Appendix 7, 2.2.6; what this unit puts into the fields: profile).
ghost use Rattle.unit_model.specs.declared.layout.TheConstants.{IMAGE_SIZE};
ghost use Rattle.std.specs.Prelude.{◌≡◌, ◌≤◌, ◌+◌, ◌++◌, OnOk, IfSome, is_err};
ghost use Rattle.byteorder.specs.Endian.{big_bytes};
ghost use Rattle.unit_minutes.specs.Reading.{ReadsIfAny};
ghost use Rattle.message_model.specs.Records.{speed_ring};
ghost use Rattle.message_model.specs.Sending.{field_of};
ghost use Rattle.unit_messages.specs.Windows.{passed};
ghost use Rattle.unit_messages.specs.Outlines.{IsDayInRange, IsEventInRange, AreTimes, IsDayOf, AreEventsOf};
ghost use Rattle.unit_messages.specs.Outlines.{AreBlocksOf, HasPassed};

use crate::outline::rows::{
    event_entries, fault_entries, over_entries, pass_blocks, pass_byte, pass_insertions,
    pass_places, pass_table, pass_words,
};
use crate::outline::{DayOutline, EventOutline, Plan, Times};
use crate::window::Window;
use link_model::services::{
    DAY_NUMBER, EVENTS_NUMBER, MESSAGE, OVERVIEW_NUMBER, SPEED_NUMBER, TECHNICAL_NUMBER,
};
use tach_media::{Failed, Medium};
use unit_model::layout::{
    Field, IDENTIFICATION, REGISTRATION, SENSOR, STATE_CERTIFICATE, UNIT_CERTIFICATE, VIN,
};

/// A number of four bytes passes by.
fn pass_number(window: &mut Window, number: u32)
    ensures { window.new ≡ passed window.old (big_bytes 4 number) }
{
    let bytes = number.to_be_bytes();
    window.pass(&bytes);
}

/// A number of three bytes passes by.
fn pass_odometer(window: &mut Window, number: u32)
    ensures { window.new ≡ passed window.old (big_bytes 3 number) }
{
    let bytes = number.to_be_bytes();
    window.pass(&bytes[1..]);
}

/// Two fields of the image pass by.
fn pass_fields<M: Medium>(
    unit: &mut M,
    first: Field,
    next: Field,
    window: &mut Window,
) -> Result<(), Failed>
    requires unit { (M.state unit.old).size ≡ IMAGE_SIZE }
    requires first { first.place + first.size ≤ IMAGE_SIZE }
    requires next { next.place + next.size ≤ IMAGE_SIZE }
    ensures passed { OnOk result (IfSome (M.state unit.old).image
        (λ x. window.new ≡ passed window.old (field_of first x ++ field_of next x))) }
    ensures reads { ReadsIfAny (M.state unit.old) (M.state unit.new) (is_err result) }
{
    window.pass_range(unit, first.place, first.size)?;
    window.pass_range(unit, next.place, next.size)?;
    Ok(())
}

/// The message of an overview passes by: both certificates, the vehicle, the times, and zeros.
///
/// # Errors
///
/// `Failed` where the unit failed.
pub fn pass_overview<M: Medium>(
    unit: &mut M,
    times: Times,
    window: &mut Window,
) -> Result<(), Failed>
    requires unit { (M.state unit.old).size ≡ IMAGE_SIZE }
    ensures passed { OnOk result (IfSome (M.state unit.old).image
        (λ x. AreTimes x times → HasPassed (Plan.Overview times) x window.old window.new)) }
    ensures reads { ReadsIfAny (M.state unit.old) (M.state unit.new) (is_err result) }
{
    window.pass(&[MESSAGE, OVERVIEW_NUMBER]);
    pass_fields(unit, STATE_CERTIFICATE, UNIT_CERTIFICATE, window)?;
    pass_fields(unit, VIN, REGISTRATION, window)?;
    pass_number(window, times.now);
    pass_number(window, times.begin);
    pass_number(window, times.end);
    window.pass(&[0; 189]);
    Ok(())
}

/// The message of technical data passes by: the unit's identification, its sensor, and zeros.
///
/// # Errors
///
/// `Failed` where the unit failed.
pub fn pass_technical<M: Medium>(unit: &mut M, window: &mut Window) -> Result<(), Failed>
    requires unit { (M.state unit.old).size ≡ IMAGE_SIZE }
    ensures passed { OnOk result (IfSome (M.state unit.old).image
        (λ x. HasPassed Plan.Technical x window.old window.new)) }
    ensures reads { ReadsIfAny (M.state unit.old) (M.state unit.new) (is_err result) }
{
    window.pass(&[MESSAGE, TECHNICAL_NUMBER]);
    pass_fields(unit, IDENTIFICATION, SENSOR, window)?;
    window.pass(&[0; 129]);
    Ok(())
}

/// The message of events and faults passes by: the tables of the memory, each behind its count, and zeros.
///
/// # Errors
///
/// `Failed` where the unit failed.
pub fn pass_events<M: Medium>(
    unit: &mut M,
    events: EventOutline,
    window: &mut Window,
) -> Result<(), Failed>
    requires unit { (M.state unit.old).size ≡ IMAGE_SIZE }
    requires range { IsEventInRange events }
    ensures passed { OnOk result (IfSome (M.state unit.old).image
        (λ x. AreEventsOf x events → HasPassed (Plan.Events events) x window.old window.new)) }
    ensures reads { ReadsIfAny (M.state unit.old) (M.state unit.new) (is_err result) }
{
    window.pass(&[MESSAGE, EVENTS_NUMBER]);
    pass_table(unit, &fault_entries(), events.faults, window)?;
    pass_table(unit, &event_entries(), events.events, window)?;
    window.pass(&[0; 4]);
    pass_number(window, events.first_over);
    pass_byte(window, events.over_count);
    pass_table(unit, &over_entries(), events.overs, window)?;
    window.pass(&[0; 129]);
    Ok(())
}

/// The message of a day passes by: its date in seconds, its odometer in km, its insertions, words and places, and
/// zeros.
///
/// # Errors
///
/// `Failed` where the unit failed.
pub fn pass_day<M: Medium>(unit: &mut M, day: DayOutline, window: &mut Window) -> Result<(), Failed>
    requires unit { (M.state unit.old).size ≡ IMAGE_SIZE }
    requires range { IsDayInRange day }
    ensures passed { OnOk result (IfSome (M.state unit.old).image
        (λ x. IsDayOf x day → HasPassed (Plan.Day day) x window.old window.new)) }
    ensures reads { ReadsIfAny (M.state unit.old) (M.state unit.new) (is_err result) }
{
    window.pass(&[MESSAGE, DAY_NUMBER]);
    pass_number(window, day.date);
    pass_odometer(window, day.odometer);
    pass_insertions(unit, day, window)?;
    pass_words(unit, day, window)?;
    pass_places(unit, day, window)?;
    window.pass(&[0; 130]);
    Ok(())
}

/// The message of detailed speed passes by: its blocks behind their count, and zeros.
///
/// # Errors
///
/// `Failed` where the unit failed.
pub fn pass_speed<M: Medium>(unit: &mut M, blocks: u32, window: &mut Window) -> Result<(), Failed>
    requires unit { (M.state unit.old).size ≡ IMAGE_SIZE }
    requires range { blocks ≤ speed_ring.count }
    ensures passed { OnOk result (IfSome (M.state unit.old).image
        (λ x. AreBlocksOf x blocks → HasPassed (Plan.Speed blocks) x window.old window.new)) }
    ensures reads { ReadsIfAny (M.state unit.old) (M.state unit.new) (is_err result) }
{
    window.pass(&[MESSAGE, SPEED_NUMBER]);
    pass_blocks(unit, blocks, window)?;
    window.pass(&[0; 128]);
    Ok(())
}
