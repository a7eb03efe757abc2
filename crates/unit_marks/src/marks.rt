//! The distances of days, and the interruptions of the power, that a unit file tells.
ghost use Rattle.std.specs.Prelude.{◌≡◌, ◌+◌, ◌*◌, ◌≤◌, ◌<◌, ◌++◌, ◌∷◌, [], ◌^◌, ℕ, List, length, map, IfOk, IfErr};
ghost use Rattle.std.specs.Prelude.{OnOk};
ghost use Rattle.card_layout.specs.Images.{number_at};
ghost use Rattle.message_model.specs.Messages.{Message as FileMessage, DayMessage, EventMessage, ADay, AnEventList};
ghost use Rattle.unit_messages.specs.Reading.{BeginsWith};
ghost use Rattle.file_view.specs.Faults.{IfBadFile};
ghost use Rattle.file_view.specs.UnitFiles.{IsBadUnitFile, days_told};
ghost use Rattle.file_view.specs.Places.{ArePlaced, IsPlaced};
ghost use Rattle.unit_marks.specs.Marks.{TellsMarks, gap_of, gaps_of, gaps_told, midnight_of, gained, distances_of};
ghost use Rattle.unit_marks.specs.Marks.{by_date, gains_of};
ghost use Rattle.unit_marks.specs.Sorted.{firsts_from};
ghost use Rattle.unit_marks.specs.Marks.{whole_minutes};

use activity_codec::DAY_SECONDS;
use byteorder::{BigEndian, ByteOrder};
use event_model::POWER_INTERRUPTION;
use file_view::{MessageAt, ViewFault, messages_at, part};
use message_model::sizes::{EVENT, FAULT};
use std::alloc::{AllocError, Global};
use tacho_types::read_odometer;
use unit_messages::Request;
use view_model::{Distance, Gap};

/// Where an event has its begin, behind its type and its purpose (Annex IB, Appendix 1, VuEventRecord).
pub const EVENT_BEGIN: usize = 2;

/// Where it has its end.
pub const EVENT_END: usize = 6;

/// Where the message of a day has its odometer, behind 76, its number and its date.
const DAY_ODOMETER: usize = 6;

/// What a unit file tells beside its minutes.
#[derive(Drop)]
pub struct Marks {
    /// The interruptions of the power.
    pub gaps: Vec<Gap>,
    /// The distances of its days.
    pub distances: Vec<Distance>,
}

/// A midnight that the message of a day tells.
#[derive(Clone, Copy, Debug, Default, PartialEq, Eq)]
pub struct Midnight {
    /// The first second of the day, since 1970-01-01 00:00 GMT.
    pub date: u32,
    /// The odometer then, in kilometres.
    pub odometer: u32,
}

/// What a unit file tells beside its minutes.
///
/// # Errors
///
/// As those of `file_view::read_download`.
pub fn marks_of(alloc: Global, b: &[u8]) -> Result<Marks, ViewFault>
    requires { length b.now < 2 ^ 32 }
    ensures marks { IfOk result (λ marks. TellsMarks b.now marks.gaps.items marks.distances.items) }
    ensures bad { IfErr result (λ fault. IfBadFile fault (λ place. IsBadUnitFile place b.now)) }
{
    let all = messages_at(alloc, b)?;
    let gaps = gaps_in(alloc, b, all.as_slice())?;
    let midnights = midnights_in(alloc, b, all.as_slice())?;
    let distances = distances_of(alloc, midnights.as_slice())?;
    Ok(Marks { gaps, distances })
}

/// The interruptions of the power among the events of messages.
fn gaps_in(alloc: Global, b: &[u8], all: &[MessageAt]) -> Result<Vec<Gap>, AllocError>
    requires { (messages : List FileMessage) × ArePlaced b.now all.now messages }
    ensures { (messages : List FileMessage) → ArePlaced b.now all.now messages
        → IfOk result (λ gaps. gaps.items ≡ gaps_told messages) }
{
    let mut gaps = Vec::new(alloc);
    for at in all {
        add_message_gaps(&mut gaps, b, *at)?;
    }
    Ok(gaps)
}

/// Adds the interruptions that a message tells.
fn add_message_gaps(gaps: &mut Vec<Gap>, b: &[u8], at: MessageAt) -> Result<(), AllocError>
    requires { (m : FileMessage) × IsPlaced b.now at m }
    ensures { (m : FileMessage) → IsPlaced b.now at m
        → OnOk result (gaps.new.items ≡ gaps.old.items ++ gaps_told (m ∷ [])) }
{
    match at.request {
        Request::Events => {
            add_gaps(gaps, &b[at.place..])?;
            Ok(())
        }
        _ => Ok(()),
    }
}

/// The midnights that messages of days tell.
fn midnights_in(alloc: Global, b: &[u8], all: &[MessageAt]) -> Result<Vec<Midnight>, AllocError>
    requires { (messages : List FileMessage) × ArePlaced b.now all.now messages }
    ensures { (messages : List FileMessage) → ArePlaced b.now all.now messages
        → IfOk result (λ midnights. midnights.items ≡ map midnight_of (days_told messages)) }
{
    let mut midnights = Vec::new(alloc);
    for at in all {
        add_midnight(&mut midnights, b, *at)?;
    }
    Ok(midnights)
}

/// Adds the midnight that a message tells.
fn add_midnight(midnights: &mut Vec<Midnight>, b: &[u8], at: MessageAt) -> Result<(), AllocError>
    requires { (m : FileMessage) × IsPlaced b.now at m }
    ensures { (m : FileMessage) → IsPlaced b.now at m
        → OnOk result (midnights.new.items ≡ midnights.old.items ++ map midnight_of (days_told (m ∷ []))) }
{
    match at.request {
        Request::Day(date) => {
            let odometer = odometer_in(&b[at.place..]);
            midnights.push(Midnight { date, odometer })?;
            Ok(())
        }
        _ => Ok(()),
    }
}

/// The odometer that the message of a day at the front tells.
fn odometer_in(message: &[u8]) -> u32
    requires { (m : DayMessage) × BeginsWith (ADay m) message.now }
    ensures { (m : DayMessage) → BeginsWith (ADay m) message.now → result ≡ m.odometer }
{
    read_odometer(&message[DAY_ODOMETER..DAY_ODOMETER + 3]).0
}

/// Adds the interruptions among the events of the message at the front.
fn add_gaps(gaps: &mut Vec<Gap>, message: &[u8]) -> Result<(), AllocError>
    requires { (m : EventMessage) × BeginsWith (AnEventList m) message.now }
    ensures { (m : EventMessage) → BeginsWith (AnEventList m) message.now
        → OnOk result (gaps.new.items ≡ gaps.old.items ++ gaps_of m.events) }
{
    let faults = byte_at(message, 2) as usize;
    let place = 3 + FAULT as usize * faults;
    let count = byte_at(message, place) as usize;
    for i in 0..count {
        let from = place + 1 + EVENT as usize * i;
        let event = part(message, from, EVENT as usize);
        add_gap(gaps, event)?;
    }
    Ok(())
}

/// The byte at a place.
pub(crate) fn byte_at(bytes: &[u8], place: usize) -> u8
    requires { place < length bytes.now }
    ensures { result ≡ number_at bytes.now place 1 }
{
    bytes[place]
}

/// Adds an event's minutes where it is an interruption.
fn add_gap(gaps: &mut Vec<Gap>, event: &[u8]) -> Result<(), AllocError>
    requires { 10 ≤ length event.now }
    ensures { OnOk result (gaps.new.items ≡ gaps.old.items ++ gap_of event.now) }
{
    if byte_at(event, 0) == POWER_INTERRUPTION {
        let begin = BigEndian::read_u32(&event[EVENT_BEGIN..EVENT_BEGIN + 4]);
        let end = BigEndian::read_u32(&event[EVENT_END..EVENT_END + 4]);
        gaps.push(whole_minutes(begin, end))?;
    }
    Ok(())
}

/// The minutes that lie whole between two seconds.
fn whole_minutes(begin: u32, end: u32) -> Gap
    ensures { result ≡ whole_minutes begin end }
{
    let first = (begin as u64 + 59) / 60;
    Gap {
        first: first as u32,
        behind: end / 60,
    }
}

/// The distances of days: each to the midnight of the least later date.
fn distances_of(alloc: Global, midnights: &[Midnight]) -> Result<Vec<Distance>, AllocError>
    ensures { IfOk result (λ distances. distances.items ≡ distances_of midnights.now) }
{
    let days = by_date(alloc, midnights)?;
    gains_of(alloc, days.as_slice())
}

/// Midnights by their dates, each date once, by its first telling.
fn by_date(alloc: Global, midnights: &[Midnight]) -> Result<Vec<Midnight>, AllocError>
    ensures { IfOk result (λ days. days.items ≡ by_date midnights.now) }
{
    let mut told = Vec::from_slice(alloc, midnights)?;
    told.sort_by_key(|midnight| midnight.date)?;
    let days = firsts(alloc, told.as_slice())?;
    Ok(days)
}

/// The first of each date, of midnights by their dates.
fn firsts(alloc: Global, told: &[Midnight]) -> Result<Vec<Midnight>, AllocError>
    ensures { IfOk result (λ days. days.items ≡ firsts_from 0 told.now) }
{
    let mut days = Vec::new(alloc);
    let mut least = 0u64;
    for midnight in told {
        if (midnight.date as u64) < least {
            continue;
        }
        days.push(*midnight)?;
        least = midnight.date as u64 + 1;
    }
    Ok(days)
}

/// What the odometer gained from each midnight to the one behind it.
fn gains_of(alloc: Global, midnights: &[Midnight]) -> Result<Vec<Distance>, AllocError>
    ensures { IfOk result (λ distances. distances.items ≡ gains_of midnights.now) }
{
    let mut distances = Vec::new(alloc);
    let mut rest = midnights;
    'midnights: while rest.len() > 1 {
        let (_day, behind) = rest.split_at(1);
        add_gained(&mut distances, rest[0], rest[1])?;
        rest = behind;
    }
    Ok(distances)
}

/// Adds what the odometer gained from a midnight to a later one.
fn add_gained(
    distances: &mut Vec<Distance>,
    day: Midnight,
    next: Midnight,
) -> Result<(), AllocError>
    ensures { OnOk result (distances.new.items ≡ distances.old.items ++ gained day next) }
{
    if day.date < next.date && day.odometer <= next.odometer {
        distances.push(Distance {
            day: day.date / DAY_SECONDS,
            km: next.odometer - day.odometer,
        })?;
        return Ok(());
    }
    Ok(())
}
