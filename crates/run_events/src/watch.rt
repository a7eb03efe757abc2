//! The events of a power span as its seconds come: they are fed by runs, and noted where they have ended.
ghost use Rattle.std.specs.Prelude.{◌≡◌, ◌≢◌, ℕ, ◌+◌, ◌<◌, ◌≤◌, ◌^◌, true, Some, None, [], IfSome, IfOk};
ghost use Rattle.std.specs.Prelude.{OnOk, is_err, unwrap_or, if◌then◌else◌};
ghost use Rattle.tach_media.specs.Medium.{HasCause, LeavesOnly};
ghost use Rattle.unit_model.specs.Image.{IsUnit};
ghost use Rattle.gated_ring.specs.Ring.{IsAtPointer};
ghost use Rattle.gated_ring.specs.Change.{IsAdding, IsAdded};
ghost use Rattle.unit_notes.specs.Journal.{LeavesJournal};
ghost use Rattle.speed_model.specs.declared.block.TheConstants.{BLOCK_SLOTS};
ghost use Rattle.speed_model.specs.Blocks.{block_bytes};
ghost use Rattle.speed_model.specs.Stored.{speed_ring};
ghost use Rattle.speed_store.specs.Feeding as minute;
ghost use Rattle.run_events.specs.Blocks.{KnowsNewest, IsBlockPut, IsPuttingBlock, IsWatchedOn, UnitMayBeTold};
ghost use Rattle.run_events.specs.Entries.{number_or_no_card};
ghost use Rattle.run_events.specs.Watching.{WatchesSpan, Watches, WatchesEvents, is_bare_at, bare_ended, over_ended};
ghost use Rattle.run_events.specs.Watching.{AreOfOneMinute, WatchStands};
ghost use Rattle.run_events.specs.Noting.{IsBareNoted, IsNotingBare, IsFastNoted, IsNotingFast, AreNoted};
ghost use Rattle.run_events.specs.Noting.{AreBeingNoted, IsFed};
ghost use Rattle.run_events.specs.Writes.{watch_most, ended_most, block_most, bare_most, fast_most};

use crate::entries::{card_bare, number_or_zeros};
use event_model::{Over, Span};
use event_rules::{NoCardRun, Overspeed};
use run_crew::Crew;
use speed_store::{Block, SpeedMinute, add_block, add_block_behind};
use tach_media::{Failed, Medium};
use tacho_types::FullCardNumber;
use unit_memory::UnitMemory;
use unit_notes::UnitNotes;

/// The runs of a power span's seconds that are watched: those without a card, and those above the limit, each with the
/// cards at its first second. It keeps a few counts and no second.
#[derive(Drop)]
pub struct Watch {
    /// The seconds without a card in the driver slot that go on.
    pub bare: NoCardRun,
    /// The seconds above the limit that go on.
    pub over: Overspeed,
    /// The speed limit of the vehicle in km/h, 0 to 255.
    pub limit: u8,
    /// The cards at the first of the seconds without a card, where they go on.
    pub bare_begin: Option<Crew>,
    /// The cards at the first of the seconds above the limit, where they go on.
    pub over_begin: Option<Crew>,
    /// The cards at the last second.
    pub last: Crew,
    /// The speeds of the minute that goes on.
    pub speeds: SpeedMinute,
    /// The index of the newest block of detailed speed, where this span has added one.
    pub newest: Option<u32>,
}

/// What has ended with the second before: driving without a card, and an over speeding, with the cards at the first
/// second of each and at their last.
#[derive(Drop)]
pub struct Ended {
    pub bare: Option<Span>,
    pub over: Option<Over>,
    pub bare_begin: Crew,
    pub over_begin: Crew,
    pub end: Crew,
}

/// Seconds of one minute at one speed.
#[derive(Clone, Copy)]
pub struct Seconds {
    /// The first of them, counted from 1970-01-01 00:00 GMT.
    pub first: u32,
    /// How many they are, 1 to 60.
    pub count: u32,
    /// Their speed in km/h, 0 to 255.
    pub speed: u8,
}

impl Watch {
    /// A span with no second yet, of a vehicle with this limit in km/h.
    pub fn new(limit: u8) -> Watch
        ensures stands { WatchesSpan result [] }
        ensures limit { (result.over.limit ≡ limit) × (result.limit ≡ limit) }
        ensures speeds { (next : ℕ) → minute.KeepsSpeedsOf result.speeds [] next }
        ensures newest { result.newest ≡ None }
    {
        Watch {
            bare: NoCardRun::new(),
            over: Overspeed::new(limit),
            limit,
            bare_begin: None,
            over_begin: None,
            last: Crew::default(),
            speeds: SpeedMinute::new(),
            newest: None,
        }
    }

    /// Some seconds more, one at least, with these cards accepted in them: what has ended with the second before them
    /// is noted, driving without a card first. Before that the block of the minute is added that ends with them.
    ///
    /// # Errors
    ///
    /// `Failed` where the unit failed; then the event that was being noted may be there or not.
    pub fn turn<M: Medium>(
        &mut self,
        memory: &UnitMemory,
        seconds: Seconds,
        crew: Crew,
        unit: &mut M,
    ) -> Result<(), Failed>
        requires seconds { AreOfOneMinute seconds.first seconds.count }
        requires watch { WatchStands self.old seconds.first }
        requires unit { UnitMayBeTold self.old.newest (M.state unit.old) }
        ensures newest { OnOk result (KnowsNewest self.new.newest (M.state unit.new)) }
        ensures watches { Watches self.new (seconds.first + seconds.count) }
        ensures limit { self.new.limit ≡ self.new.over.limit }
        ensures watched { IsWatchedOn (is_err result) self.old self.new seconds.first seconds.count seconds.speed crew
            (M.state unit.old) (M.state unit.new) }
        ensures journal { LeavesOnly (M.state unit.old) (M.state unit.new) LeavesJournal }
        ensures unit { IsUnit (M.state unit.new) }
        ensures cause { HasCause (M.state unit.old) (M.state unit.new) (is_err result) }
        ensures most { (M.state unit.new).clock ≤ (M.state unit.old).clock + watch_most }
    {
        let block = self
            .speeds
            .feed(seconds.first, seconds.count, seconds.speed);
        let ended = self.feed(seconds.first, seconds.count, seconds.speed, crew);
        let newest = put_block(&block, self.newest, unit)?;
        self.newest = newest;
        note_ended(memory, &ended, unit)
    }

    // The seconds are fed to both counts: what has ended with the second before them.
    fn feed(&mut self, first: u32, count: u32, speed: u8, crew: Crew) -> Ended
        requires some { 0 < count }
        requires low { 0 < first }
        requires fits { first + count ≤ 2 ^ 32 }
        requires limit { self.old.limit ≡ self.old.over.limit }
        requires watches { WatchesEvents self.old first }
        ensures watches { WatchesEvents self.new (first + count) }
        ensures limit { self.new.limit ≡ self.new.over.limit }
        ensures fed { IsFed self.old self.new first count speed crew result }
        ensures speeds { self.new.speeds ≡ self.old.speeds }
        ensures newest { self.new.newest ≡ self.old.newest }
        ensures bare { IfSome result.bare (λ s. 0 < s.begin) }
        ensures over { IfSome result.over (λ o. 0 < o.begin) }
    {
        let is_bare = is_driven_bare(speed, crew);
        let ended = Ended {
            bare: self.bare.feed_run(first, count, is_bare),
            over: self.over.feed_run(first, count, speed),
            bare_begin: self.bare_begin.unwrap_or(crew),
            over_begin: self.over_begin.unwrap_or(crew),
            end: self.last,
        };
        self.bare_begin = begin_of(is_bare, self.bare_begin, crew);
        self.over_begin = begin_of(speed > self.limit, self.over_begin, crew);
        self.last = crew;
        ended
    }
}

// Whether a second is driven without an accepted card in the driver slot.
fn is_driven_bare(speed: u8, crew: Crew) -> bool
    ensures { result ≡ is_bare_at speed crew }
{
    speed > 0 && crew.driver.is_none()
}

// The cards at the first second of a run that goes on, where it does.
fn begin_of(goes_on: bool, begin: Option<Crew>, crew: Crew) -> Option<Crew>
    ensures { result ≡ (if goes_on then Some (unwrap_or begin crew) else None) }
{
    if goes_on {
        Some(begin.unwrap_or(crew))
    } else {
        None
    }
}

// The block of a minute is added, if there is one, and the index of the newest is known then.
fn put_block<M: Medium>(
    block: &Option<Block>,
    newest: Option<u32>,
    unit: &mut M,
) -> Result<Option<u32>, Failed>
    requires unit { IsUnit (M.state unit.old) }
    requires works { (M.state unit.old).works ≡ true }
    requires newest { KnowsNewest newest (M.state unit.old) }
    requires time { IfSome block.now (λ b. 0 < b.time) }
    ensures newest { IfOk result (λ newest. KnowsNewest newest (M.state unit.new)) }
    ensures put { OnOk result (IfSome (M.state unit.old).image
        (λ x. IfSome (M.state unit.new).image (IsBlockPut block.now x))) }
    ensures moments { LeavesOnly (M.state unit.old) (M.state unit.new) (IsPuttingBlock block.now) }
    ensures journal { LeavesOnly (M.state unit.old) (M.state unit.new) LeavesJournal }
    ensures unit { IsUnit (M.state unit.new) }
    ensures cause { HasCause (M.state unit.old) (M.state unit.new) (is_err result) }
    ensures most { (M.state unit.new).clock ≤ (M.state unit.old).clock + block_most }
{
    match block {
        None => Ok(newest),
        Some(block) => put_some(block, newest, unit),
    }
}

// A block is added.
fn put_some<M: Medium>(
    block: &Block,
    newest: Option<u32>,
    unit: &mut M,
) -> Result<Option<u32>, Failed>
    requires unit { IsUnit (M.state unit.old) }
    requires newest { KnowsNewest newest (M.state unit.old) }
    requires time { block.now.time ≢ 0 }
    ensures newest { IfOk result (λ newest. KnowsNewest newest (M.state unit.new)) }
    ensures added { OnOk result (IfSome (M.state unit.old).image
        (λ x. IfSome (M.state unit.new).image (IsAdded speed_ring (block_bytes block.now) x))) }
    ensures moments { LeavesOnly (M.state unit.old) (M.state unit.new) (IsAdding speed_ring (block_bytes block.now)) }
    ensures cause { HasCause (M.state unit.old) (M.state unit.new) (is_err result) }
    ensures most { (M.state unit.new).clock ≤ (M.state unit.old).clock + block_most }
{
    let index = add_next(block, newest, unit)?;
    Ok(Some(index))
}

// A block is added behind the newest where that is known, else where the ring's pointer tells: its index.
fn add_next<M: Medium>(block: &Block, newest: Option<u32>, unit: &mut M) -> Result<u32, Failed>
    requires unit { IsUnit (M.state unit.old) }
    requires newest { KnowsNewest newest (M.state unit.old) }
    requires time { block.now.time ≢ 0 }
    ensures below { IfOk result (λ index. index < BLOCK_SLOTS) }
    ensures newest { IfOk result (λ index. IfSome (M.state unit.new).image (IsAtPointer speed_ring index)) }
    ensures added { OnOk result (IfSome (M.state unit.old).image
        (λ x. IfSome (M.state unit.new).image (IsAdded speed_ring (block_bytes block.now) x))) }
    ensures moments { LeavesOnly (M.state unit.old) (M.state unit.new) (IsAdding speed_ring (block_bytes block.now)) }
    ensures cause { HasCause (M.state unit.old) (M.state unit.new) (is_err result) }
    ensures most { (M.state unit.new).clock ≤ (M.state unit.old).clock + block_most }
{
    match newest {
        Some(last) => add_block_behind(unit, last, block),
        None => add_block(unit, block),
    }
}

// Driving without a card, and then an over speeding, is noted, if it has ended.
fn note_ended<M: Medium>(memory: &UnitMemory, ended: &Ended, unit: &mut M) -> Result<(), Failed>
    requires unit { IsUnit (M.state unit.old) }
    requires works { (M.state unit.old).works ≡ true }
    requires bare { IfSome ended.now.bare (λ s. 0 < s.begin) }
    requires over { IfSome ended.now.over (λ o. 0 < o.begin) }
    ensures noted { OnOk result (IfSome (M.state unit.old).image
        (λ x. IfSome (M.state unit.new).image (AreNoted ended.now x))) }
    ensures moments { LeavesOnly (M.state unit.old) (M.state unit.new) (AreBeingNoted ended.now) }
    ensures journal { LeavesOnly (M.state unit.old) (M.state unit.new) LeavesJournal }
    ensures unit { IsUnit (M.state unit.new) }
    ensures cause { HasCause (M.state unit.old) (M.state unit.new) (is_err result) }
    ensures most { (M.state unit.new).clock ≤ (M.state unit.old).clock + ended_most }
{
    note_bare(memory, ended, unit)?;
    note_fast(memory, ended, unit)
}

// Driving without a card that has ended is noted.
fn note_bare<M: Medium>(memory: &UnitMemory, ended: &Ended, unit: &mut M) -> Result<(), Failed>
    requires unit { IsUnit (M.state unit.old) }
    requires works { (M.state unit.old).works ≡ true }
    requires begin { IfSome ended.now.bare (λ s. 0 < s.begin) }
    ensures noted { OnOk result (IfSome (M.state unit.old).image
        (λ x. IfSome (M.state unit.new).image (IsBareNoted (bare_ended ended.now) x))) }
    ensures moments { LeavesOnly (M.state unit.old) (M.state unit.new) (IsNotingBare (bare_ended ended.now)) }
    ensures journal { LeavesOnly (M.state unit.old) (M.state unit.new) LeavesJournal }
    ensures unit { IsUnit (M.state unit.new) }
    ensures cause { HasCause (M.state unit.old) (M.state unit.new) (is_err result) }
    ensures most { (M.state unit.new).clock ≤ (M.state unit.old).clock + bare_most }
{
    match ended.bare {
        None => Ok(()),
        Some(span) => memory.note_event(unit, &card_bare(span, ended.bare_begin, ended.end)),
    }
}

// An over speeding that has ended is noted.
fn note_fast<M: Medium>(memory: &UnitMemory, ended: &Ended, unit: &mut M) -> Result<(), Failed>
    requires unit { IsUnit (M.state unit.old) }
    requires works { (M.state unit.old).works ≡ true }
    requires begin { IfSome ended.now.over (λ o. 0 < o.begin) }
    ensures noted { OnOk result (IfSome (M.state unit.old).image
        (λ x. IfSome (M.state unit.new).image (IsFastNoted (over_ended ended.now) x))) }
    ensures moments { LeavesOnly (M.state unit.old) (M.state unit.new) (IsNotingFast (over_ended ended.now)) }
    ensures journal { LeavesOnly (M.state unit.old) (M.state unit.new) LeavesJournal }
    ensures unit { IsUnit (M.state unit.new) }
    ensures cause { HasCause (M.state unit.old) (M.state unit.new) (is_err result) }
    ensures most { (M.state unit.new).clock ≤ (M.state unit.old).clock + fast_most }
{
    match ended.over {
        None => Ok(()),
        Some(over) => memory.note_over(unit, &over, &driver_of(ended.over_begin)),
    }
}

// The driver's card number, zeros without one.
fn driver_of(crew: Crew) -> FullCardNumber
    ensures { result ≡ number_or_no_card crew.driver }
{
    number_or_zeros(crew.driver)
}
