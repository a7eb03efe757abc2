//! What a message of the unit's image is made of, known before its bytes (Annex IB, Appendix 7, 2.2.6; what this unit
//! puts into the fields: profile).
ghost use Rattle.unit_model.specs.declared.layout.TheConstants.{IMAGE_SIZE};
ghost use Rattle.std.specs.Prelude.{ℕ, List, Some, min, ◌≡◌, ◌≤◌, ◌+◌, ◌*◌, ◌-◌, OnOk, IfSome, is_err, length};
ghost use Rattle.unit_minutes.specs.Reading.{ReadsIfAny};
ghost use Rattle.unit_messages.specs.declared.joining.TheConstants.{LONGEST};
ghost use Rattle.unit_messages.specs.Sent.{IsPiece};
ghost use Rattle.link_model.specs.declared.lengths.TheConstants.{WHOLE_MOST};
ghost use Rattle.message_model.specs.Records.{speed_ring};
ghost use Rattle.unit_messages.specs.Counts.{AreCounted, AreInRange};
ghost use Rattle.unit_messages.specs.Outlines.{Outlines, HasPassed, IsDayInRange, IsEventInRange, bytes_sent, asked};
ghost use Rattle.unit_messages.specs.Outlines.{length_of};

mod content;
mod counts;
mod finding;
mod rows;

use crate::window::{ROOM, Window};
use arrayvec::ArrayVec;
use content::{pass_day, pass_events, pass_overview, pass_speed, pass_technical};
use counts::Counts;
pub use finding::{find_next_outline, find_outline};
use link_model::Request;
use message_model::sizes::{EVENT, FAULT, INSERTION, OVER, PLACE, SPEED_BLOCK};
use std::marker::Model;
use tach_media::{Failed, Medium};

/// How many bytes the message of an overview has: a unit that has no locks and controls sends these always.
pub const OVERVIEW_LENGTH: u32 = 623;

/// How many bytes the message of technical data has, of a unit that has no calibrations.
pub const TECHNICAL_LENGTH: u32 = 267;

/// How many bytes the message of a day has beside its insertions, words and places.
pub const DAY_LENGTH: u32 = 144;

/// How many bytes the message of events and faults has beside these and the over speedings.
pub const EVENTS_LENGTH: u32 = 143;

/// How many bytes the message of detailed speed has beside its blocks.
pub const SPEED_LENGTH: u32 = 132;

/// What an overview tells beside fields of the image, in seconds since 1970-01-01 00:00 UTC.
#[derive(Clone, Copy, Debug, PartialEq, Eq)]
pub struct Times {
    /// The unit's time: its last-kept minute.
    pub now: u32,
    /// The first second of the oldest day, 0 where there is no day.
    pub begin: u32,
    /// The unit's time, 0 where there is no day.
    pub end: u32,
}

/// A day as its message has it: its first second, the odometer then, where its words stand and how many they are, and
/// how many insertions and places it has; and how many the dates beside it have, so that the rings are not looked
/// through for each day.
#[derive(Clone, Copy, Debug, PartialEq, Eq)]
pub struct DayOutline {
    /// The day's first second.
    pub date: u32,
    /// The odometer at the day's begin, in km.
    pub odometer: u32,
    /// The place in the image of its first change word.
    pub words_place: u32,
    /// How many change words it has.
    pub words: u32,
    /// How many insertions touch it.
    pub insertions: u32,
    /// How many places it has.
    pub places: u32,
    /// The same counts of the dates beside it.
    pub counts: Counts,
}

/// How many faults, events and over speedings there are; the begin of the first over speeding, and their number.
#[derive(Clone, Copy, Debug, PartialEq, Eq)]
pub struct EventOutline {
    /// How many faults there are, 0 to 24.
    pub faults: u32,
    /// How many events there are, 0 to 60.
    pub events: u32,
    /// How many over speedings there are, 0 to 10.
    pub overs: u32,
    /// The begin of the first over speeding in seconds, as the image has it.
    pub first_over: u32,
    /// Their number as the image has it, 0 to 255.
    pub over_count: u32,
}

/// The message that an outline is of.
#[derive(Clone, Copy, Debug, PartialEq, Eq)]
pub enum Plan {
    /// The overview, with these times.
    Overview(Times),
    /// A day.
    Day(DayOutline),
    /// Events and faults.
    Events(EventOutline),
    /// Detailed speed: how many blocks there are.
    Speed(u32),
    /// Technical data.
    Technical,
}

/// What a message is made of: it is known from one look at the unit, and serves as long as the unit's image stays.
#[derive(Clone, Copy, Debug, PartialEq, Eq)]
pub struct Outline {
    plan: Plan,
}

impl Model for Outline {
    ghost use Rattle.unit_messages.specs.declared.outline.Plan.{Plan};
    ghost use Rattle.unit_messages.specs.Outlines.{IsInRange};

    ghost Value = { Plan };

    ghost view = { λ o. o.plan };

    ghost invariant = { λ o. IsInRange o.plan };

    ghost inverse = { λ plan. record { plan = plan } };
}

impl Outline {
    /// The request that the message answers.
    pub fn request(&self) -> Request
        ensures { result ≡ asked self.now }
    {
        match self.plan {
            Plan::Overview(_) => Request::Overview,
            Plan::Day(day) => Request::Day(day.date),
            Plan::Events(_) => Request::Events,
            Plan::Speed(_) => Request::Speed,
            Plan::Technical => Request::Technical,
        }
    }

    /// How many insertions and places other dates have, where the message is a day's.
    fn counts(&self) -> Option<Counts>
        ensures range { IfSome result AreInRange }
        ensures counted { (x : List ℕ) → Outlines self.now x → IfSome result (λ c. AreCounted c x) }
    {
        match self.plan {
            Plan::Day(day) => Some(day.counts),
            Plan::Overview(_) | Plan::Events(_) | Plan::Speed(_) | Plan::Technical => None,
        }
    }

    /// How many bytes the message has, with 76 and its number in front.
    pub fn len(&self) -> u32
        ensures len { result ≡ length_of self.now }
        ensures told { (x : List ℕ) → IMAGE_SIZE ≤ length x → Outlines self.now x
            → IfSome (bytes_sent x (asked self.now)) (λ bytes. result ≡ length bytes) }
        ensures some { 2 ≤ result }
        ensures few { result ≤ LONGEST }
    {
        self.total()
    }

    /// Reads at most 252 bytes of the message, from a place on; none at its end and behind it. Of a unit that changed
    /// since, as one that tells nothing may, it gives as many bytes as the outline says.
    ///
    /// # Errors
    ///
    /// `Failed` where the unit failed.
    pub fn read<M: Medium>(
        &self,
        unit: &mut M,
        from: u32,
        out: &mut ArrayVec<u8, ROOM>,
    ) -> Result<(), Failed>
        requires unit { (M.state unit.old).size ≡ IMAGE_SIZE }
        requires outlines { IfSome (M.state unit.old).image (Outlines self.now) }
        ensures piece { OnOk result (IfSome (M.state unit.old).image
            (λ x. IsPiece x (asked self.now) from (Some (length_of self.now)) out.new.items)) }
        ensures fits { OnOk result (length out.new.items ≡ min WHOLE_MOST (length_of self.now - from)) }
        ensures reads { ReadsIfAny (M.state unit.old) (M.state unit.new) (is_err result) }
    {
        let mut window = Window::new(from);
        self.pass(unit, &mut window)?;
        let due = self.due(from);
        *out = window.into_piece(due);
        Ok(())
    }

    /// The bytes of the message, by its numbers.
    fn total(&self) -> u32
        ensures len { result ≡ length_of self.now }
        ensures some { 2 ≤ result }
        ensures few { result ≤ LONGEST }
    {
        match self.plan {
            Plan::Overview(_) => OVERVIEW_LENGTH,
            Plan::Day(day) => day_total(day),
            Plan::Events(events) => event_total(events),
            Plan::Speed(blocks) => speed_total(blocks),
            Plan::Technical => TECHNICAL_LENGTH,
        }
    }

    /// How many bytes a piece has.
    fn due(&self, from: u32) -> usize
        ensures due { result ≡ min WHOLE_MOST (length_of self.now - from) }
        ensures few { result ≤ WHOLE_MOST }
    {
        let len = self.len();
        (len - len.min(from)).min(ROOM as u32) as usize
    }

    /// The bytes of the message pass by.
    fn pass<M: Medium>(&self, unit: &mut M, window: &mut Window) -> Result<(), Failed>
        requires unit { (M.state unit.old).size ≡ IMAGE_SIZE }
        ensures passed { OnOk result (IfSome (M.state unit.old).image
            (λ x. Outlines self.now x → HasPassed self.now x window.old window.new)) }
        ensures reads { ReadsIfAny (M.state unit.old) (M.state unit.new) (is_err result) }
    {
        match self.plan {
            Plan::Overview(times) => pass_overview(unit, times, window),
            Plan::Day(day) => pass_day(unit, day, window),
            Plan::Events(events) => pass_events(unit, events, window),
            Plan::Speed(blocks) => pass_speed(unit, blocks, window),
            Plan::Technical => pass_technical(unit, window),
        }
    }
}

/// How many bytes the message of a day has.
fn day_total(day: DayOutline) -> u32
    requires { IsDayInRange day }
    ensures len { result ≡ length_of (Plan.Day day) }
    ensures some { 2 ≤ result }
    ensures few { result ≤ LONGEST }
{
    DAY_LENGTH + INSERTION * day.insertions + 2 * day.words + PLACE * day.places
}

/// How many bytes the message of events and faults has.
fn event_total(events: EventOutline) -> u32
    requires { IsEventInRange events }
    ensures len { result ≡ length_of (Plan.Events events) }
    ensures some { 2 ≤ result }
    ensures few { result ≤ LONGEST }
{
    EVENTS_LENGTH + FAULT * events.faults + EVENT * events.events + OVER * events.overs
}

/// How many bytes the message of detailed speed has.
fn speed_total(blocks: u32) -> u32
    requires { blocks ≤ speed_ring.count }
    ensures len { result ≡ length_of (Plan.Speed blocks) }
    ensures some { 2 ≤ result }
    ensures few { result ≤ LONGEST }
{
    SPEED_LENGTH + SPEED_BLOCK * blocks
}
