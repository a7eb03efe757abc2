//! What a message is made of, found in the unit's image.
ghost use Rattle.activity_codec.specs.declared.day.TheConstants.{DAY_SECONDS};
ghost use Rattle.unit_model.specs.declared.layout.TheConstants.{DAY_WORD_LIMIT, HIGHEST_ODOMETER};
ghost use Rattle.unit_model.specs.declared.layout.TheConstants.{IMAGE_SIZE};
ghost use Rattle.std.specs.Prelude.{◌≡◌, ◌<◌, ◌≤◌, ◌+◌, ◌*◌, ℕ, List, Some, IfOk, IfSome, is_err, filter, length};
ghost use Rattle.gated_ring.specs.Ring.{ring_list, PointsInside};
ghost use Rattle.unit_model.specs.Decoding.{Decodes};
ghost use Rattle.unit_minutes.specs.Reading.{AreRight, IsOfDate, IsSlotPlace, ReadsIfAny};
ghost use Rattle.message_model.specs.Records.{insertion_ring, unit_place_ring, speed_ring};
ghost use Rattle.message_model.specs.Sending.{touches_day, place_in_day};
ghost use Rattle.unit_messages.specs.Counts.{AreCounted, AreInRange};
ghost use Rattle.unit_messages.specs.Outlines.{Outlines, IsOutlined, IsDayInRange, IsEventInRange, AreTimes};
ghost use Rattle.unit_messages.specs.Outlines.{AreEventsOf, AreBlocksOf, asked};

use crate::outline::counts::{Counts, DATES, count_at, count_dates, date_index};
use crate::outline::rows::{event_entries, fault_entries, over_entries, speed_blocks};
use crate::outline::{DayOutline, EventOutline, Outline, Plan, Times};
use link_model::Request;
use tach_media::{Failed, Medium, read_number};
use tacho_types::TimeReal;
use unit_minutes::{Journal, UnitDay};
use unit_model::layout::{DAY_WORDS, FIRST_OVER, OVER_COUNT};

/// What the message is made of that answers a request, of a unit whose image is known to decode, as from its journal's
/// load; `None` exactly where there is no such message: for a day that is not recorded.
///
/// # Errors
///
/// `Failed` where the unit failed.
pub fn find_outline<M: Medium>(
    journal: &Journal,
    unit: &mut M,
    request: &Request,
) -> Result<Option<Outline>, Failed>
    requires unit { (M.state unit.old).size ≡ IMAGE_SIZE }
    requires right { IfSome (M.state unit.old).image (AreRight journal.now) }
    requires decodes { IfSome (M.state unit.old).image Decodes }
    ensures outlined { IfOk result (λ found. IfSome (M.state unit.old).image (λ x. IsOutlined x request.now found)) }
    ensures request { IfOk result (λ found. IfSome found (λ o. asked o ≡ request.now)) }
    ensures reads { ReadsIfAny (M.state unit.old) (M.state unit.new) (is_err result) }
{
    find_next_outline(journal, unit, &None, request)
}

/// `find_outline` behind another message, whose outline is known: what that tells of other dates is not counted again.
///
/// # Errors
///
/// `Failed` where the unit failed.
pub fn find_next_outline<M: Medium>(
    journal: &Journal,
    unit: &mut M,
    known: &Option<Outline>,
    request: &Request,
) -> Result<Option<Outline>, Failed>
    requires unit { (M.state unit.old).size ≡ IMAGE_SIZE }
    requires right { IfSome (M.state unit.old).image (AreRight journal.now) }
    requires decodes { IfSome (M.state unit.old).image Decodes }
    requires known { IfSome (M.state unit.old).image (λ x. IfSome known.now (λ o. Outlines o x)) }
    ensures outlined { IfOk result (λ found. IfSome (M.state unit.old).image (λ x. IsOutlined x request.now found)) }
    ensures request { IfOk result (λ found. IfSome found (λ o. asked o ≡ request.now)) }
    ensures reads { ReadsIfAny (M.state unit.old) (M.state unit.new) (is_err result) }
{
    match request {
        Request::Overview => overview_outline(journal, unit),
        Request::Day(date) => dated_outline(journal, unit, known, *date),
        Request::Events => events_outline(unit),
        Request::Speed => speed_outline(unit),
        Request::Technical => Ok(Some(Outline {
            plan: Plan::Technical,
        })),
    }
}

/// The outline of an overview.
fn overview_outline<M: Medium>(journal: &Journal, unit: &mut M) -> Result<Option<Outline>, Failed>
    requires unit { (M.state unit.old).size ≡ IMAGE_SIZE }
    requires right { IfSome (M.state unit.old).image (AreRight journal.now) }
    requires decodes { IfSome (M.state unit.old).image Decodes }
    ensures outlined { IfOk result (λ found. IfSome (M.state unit.old).image
        (λ x. IsOutlined x Request.Overview found)) }
    ensures request { IfOk result (λ found. IfSome found (λ o. asked o ≡ Request.Overview)) }
    ensures reads { ReadsIfAny (M.state unit.old) (M.state unit.new) (is_err result) }
{
    let times = overview_times(journal, unit)?;
    Ok(Some(Outline {
        plan: Plan::Overview(times),
    }))
}

/// The times that an overview tells: the last-kept minute is the unit's time, and the period goes from the oldest day
/// to it; it is 0 to 0 where there is no day.
fn overview_times<M: Medium>(journal: &Journal, unit: &mut M) -> Result<Times, Failed>
    requires unit { (M.state unit.old).size ≡ IMAGE_SIZE }
    requires right { IfSome (M.state unit.old).image (AreRight journal.now) }
    requires decodes { IfSome (M.state unit.old).image Decodes }
    ensures times { IfOk result (λ times. IfSome (M.state unit.old).image (λ x. AreTimes x times)) }
    ensures reads { ReadsIfAny (M.state unit.old) (M.state unit.new) (is_err result) }
{
    let kept = journal.last_kept();
    let now = 60 * kept;
    let days = journal.days();
    if days == 0 {
        return Ok(Times {
            now,
            begin: 0,
            end: 0,
        });
    }
    let oldest = journal.day_at(unit, 0)?;
    Ok(Times {
        now,
        begin: oldest.date.0,
        end: now,
    })
}

/// The outline of the message of a day; `None` exactly where no recorded day begins at this second.
fn dated_outline<M: Medium>(
    journal: &Journal,
    unit: &mut M,
    known: &Option<Outline>,
    date: u32,
) -> Result<Option<Outline>, Failed>
    requires unit { (M.state unit.old).size ≡ IMAGE_SIZE }
    requires right { IfSome (M.state unit.old).image (AreRight journal.now) }
    requires decodes { IfSome (M.state unit.old).image Decodes }
    requires known { IfSome (M.state unit.old).image (λ x. IfSome known.now (λ o. Outlines o x)) }
    ensures outlined { IfOk result (λ found. IfSome (M.state unit.old).image
        (λ x. IsOutlined x (Request.Day date) found)) }
    ensures request { IfOk result (λ found. IfSome found (λ o. asked o ≡ Request.Day date)) }
    ensures reads { ReadsIfAny (M.state unit.old) (M.state unit.new) (is_err result) }
{
    // so the notes have their ranges
    let _kept = journal.last_kept();
    let found = journal.find(unit, TimeReal(date))?;
    match found {
        None => Ok(None),
        Some(day) => found_outline(journal, unit, known, day),
    }
}

/// The outline of the message of a day that was found.
fn found_outline<M: Medium>(
    journal: &Journal,
    unit: &mut M,
    known: &Option<Outline>,
    day: UnitDay,
) -> Result<Option<Outline>, Failed>
    requires unit { (M.state unit.old).size ≡ IMAGE_SIZE }
    requires right { IfSome (M.state unit.old).image (AreRight journal.now) }
    requires decodes { IfSome (M.state unit.old).image Decodes }
    requires known { IfSome (M.state unit.old).image (λ x. IfSome known.now (λ o. Outlines o x)) }
    requires found { IfSome (M.state unit.old).image (λ x. IsOfDate x day.date.0 (Some day)) }
    requires place { IsSlotPlace day.place }
    requires words { day.words ≤ DAY_WORD_LIMIT }
    requires odometer { day.odometer.0 ≤ HIGHEST_ODOMETER }
    ensures outlined { IfOk result (λ found. IfSome (M.state unit.old).image
        (λ x. IsOutlined x (Request.Day day.date.0) found)) }
    ensures request { IfOk result (λ found. IfSome found (λ o. asked o ≡ Request.Day day.date.0)) }
    ensures reads { ReadsIfAny (M.state unit.old) (M.state unit.new) (is_err result) }
{
    // so the notes have their ranges
    let _kept = journal.last_kept();
    let outline = day_outline(unit, known, &day)?;
    Ok(Some(Outline {
        plan: Plan::Day(outline),
    }))
}

// Counts of many dates, and the index of one of them.
#[derive(Clone, Copy)]
struct DateCounts {
    counts: Counts,
    index: usize,
}

/// What is known of a day that was found.
fn day_outline<M: Medium>(
    unit: &mut M,
    known: &Option<Outline>,
    day: &UnitDay,
) -> Result<DayOutline, Failed>
    requires unit { (M.state unit.old).size ≡ IMAGE_SIZE }
    requires place { IsSlotPlace day.now.place }
    requires words { day.now.words ≤ DAY_WORD_LIMIT }
    requires odometer { day.now.odometer.0 ≤ HIGHEST_ODOMETER }
    requires decodes { IfSome (M.state unit.old).image Decodes }
    requires known { IfSome (M.state unit.old).image (λ x. IfSome known.now (λ o. Outlines o x)) }
    ensures day { IfOk result (λ d. (d.date ≡ day.now.date.0) × (d.odometer ≡ day.now.odometer.0)
        × (d.words_place ≡ day.now.place + 16) × (d.words ≡ day.now.words)) }
    ensures range { IfOk result IsDayInRange }
    ensures pointers { IfOk result (λ d. IfSome (M.state unit.old).image
        (λ x. PointsInside insertion_ring x × PointsInside unit_place_ring x)) }
    ensures counts { IfOk result (λ d. IfSome (M.state unit.old).image (λ x.
        (d.insertions ≡ length (filter (touches_day day.now.date.0) (ring_list insertion_ring x)))
        × (d.places ≡ length (filter (place_in_day day.now.date.0) (ring_list unit_place_ring x))))) }
    ensures counted { IfOk result (λ d. IfSome (M.state unit.old).image (AreCounted d.counts)) }
    ensures reads { ReadsIfAny (M.state unit.old) (M.state unit.new) (is_err result) }
{
    let date = day.date.0;
    let dated = counts_on(unit, known, date)?;
    let insertions = count_at(&dated.counts.insertions, dated.index);
    let places = count_at(&dated.counts.places, dated.index);
    let words_place = day.place + DAY_WORDS.place;
    Ok(DayOutline {
        date,
        odometer: day.odometer.0,
        words_place,
        words: day.words as u32,
        insertions,
        places,
        counts: dated.counts,
    })
}

/// The counts that an outline tells, where one is known.
fn counts_known(known: &Option<Outline>) -> Option<Counts>
    ensures range { IfSome result AreInRange }
    ensures counted { (x : List ℕ) → IfSome known.now (λ o. Outlines o x) → IfSome result (λ c. AreCounted c x) }
{
    match known {
        Some(outline) => outline.counts(),
        None => None,
    }
}

/// Counts among which a date has this index: those that are known, or else those from this date on.
fn counts_on<M: Medium>(
    unit: &mut M,
    known: &Option<Outline>,
    date: u32,
) -> Result<DateCounts, Failed>
    requires unit { (M.state unit.old).size ≡ IMAGE_SIZE }
    requires decodes { IfSome (M.state unit.old).image Decodes }
    requires known { IfSome (M.state unit.old).image (λ x. IfSome known.now (λ o. Outlines o x)) }
    ensures index { IfOk result (λ d. (d.index < DATES) × (date ≡ d.counts.first + DAY_SECONDS * d.index)) }
    ensures range { IfOk result (λ d. AreInRange d.counts) }
    ensures counted { IfOk result (λ d. IfSome (M.state unit.old).image (AreCounted d.counts)) }
    ensures reads { ReadsIfAny (M.state unit.old) (M.state unit.new) (is_err result) }
{
    if let Some(counts) = counts_known(known) {
        if let Some(index) = date_index(counts.first, date) {
            return Ok(DateCounts { counts, index });
        }
    }
    let counts = count_dates(unit, date)?;
    Ok(DateCounts { counts, index: 0 })
}

/// The outline of the message of events and faults.
fn events_outline<M: Medium>(unit: &mut M) -> Result<Option<Outline>, Failed>
    requires unit { (M.state unit.old).size ≡ IMAGE_SIZE }
    requires decodes { IfSome (M.state unit.old).image Decodes }
    ensures outlined { IfOk result (λ found. IfSome (M.state unit.old).image (λ x. IsOutlined x Request.Events found)) }
    ensures request { IfOk result (λ found. IfSome found (λ o. asked o ≡ Request.Events)) }
    ensures reads { ReadsIfAny (M.state unit.old) (M.state unit.new) (is_err result) }
{
    let events = event_outline(unit)?;
    Ok(Some(Outline {
        plan: Plan::Events(events),
    }))
}

/// How many events, faults and over speedings there are, and what the image tells of the over speedings.
fn event_outline<M: Medium>(unit: &mut M) -> Result<EventOutline, Failed>
    requires unit { (M.state unit.old).size ≡ IMAGE_SIZE }
    requires decodes { IfSome (M.state unit.old).image Decodes }
    ensures events { IfOk result (λ e. IfSome (M.state unit.old).image (λ x. AreEventsOf x e)) }
    ensures range { IfOk result IsEventInRange }
    ensures reads { ReadsIfAny (M.state unit.old) (M.state unit.new) (is_err result) }
{
    let faults = fault_entries().count(unit)?;
    let events = event_entries().count(unit)?;
    let overs = over_entries().count(unit)?;
    let first_over = read_number(unit, FIRST_OVER.place, FIRST_OVER.size)?;
    let over_count = read_number(unit, OVER_COUNT.place, OVER_COUNT.size)?;
    Ok(EventOutline {
        faults,
        events,
        overs,
        first_over,
        over_count: over_count.min(255),
    })
}

/// The outline of the message of detailed speed.
fn speed_outline<M: Medium>(unit: &mut M) -> Result<Option<Outline>, Failed>
    requires unit { (M.state unit.old).size ≡ IMAGE_SIZE }
    requires decodes { IfSome (M.state unit.old).image Decodes }
    ensures outlined { IfOk result (λ found. IfSome (M.state unit.old).image (λ x. IsOutlined x Request.Speed found)) }
    ensures request { IfOk result (λ found. IfSome found (λ o. asked o ≡ Request.Speed)) }
    ensures reads { ReadsIfAny (M.state unit.old) (M.state unit.new) (is_err result) }
{
    let blocks = block_count(unit)?;
    Ok(Some(Outline {
        plan: Plan::Speed(blocks),
    }))
}

/// How many blocks of detailed speed there are.
fn block_count<M: Medium>(unit: &mut M) -> Result<u32, Failed>
    requires unit { (M.state unit.old).size ≡ IMAGE_SIZE }
    requires decodes { IfSome (M.state unit.old).image Decodes }
    ensures blocks { IfOk result (λ n. IfSome (M.state unit.old).image (λ x. AreBlocksOf x n)) }
    ensures few { IfOk result (λ n. n ≤ speed_ring.count) }
    ensures reads { ReadsIfAny (M.state unit.old) (M.state unit.new) (is_err result) }
{
    let entries = speed_blocks();
    entries.count(unit)
}
