//! The entries and words of a message, behind their counts.
ghost use Rattle.unit_model.specs.declared.layout.TheConstants.{IMAGE_SIZE, INSERTIONS, INSERTION_SLOTS, PLACES};
ghost use Rattle.unit_model.specs.declared.layout.TheConstants.{EVENTS, OVERS, FAULTS, SPEEDS};
ghost use Rattle.std.specs.Prelude.{◌≡◌, ◌==◌, ◌≤◌, ◌<◌, ◌+◌, ◌*◌, ◌^◌, if◌then◌else◌, OnOk, IfSome, is_err, filter};
ghost use Rattle.std.specs.Prelude.{length};
ghost use Rattle.byteorder.specs.Endian.{big_bytes};
ghost use Rattle.card_layout.specs.Images.{number_at};
ghost use Rattle.card_layout.specs.Fields.{joined};
ghost use Rattle.gated_ring.specs.Ring.{ring_list, PointsInside};
ghost use Rattle.unit_model.specs.Image.{words_at};
ghost use Rattle.unit_minutes.specs.Reading.{ReadsIfAny};
ghost use Rattle.message_model.specs.Records.{insertion_ring, unit_place_ring, speed_ring};
ghost use Rattle.message_model.specs.Messages.{counted, word_bytes};
ghost use Rattle.message_model.specs.Sending.{entries_in, touches_day, place_in_day};
ghost use Rattle.unit_messages.specs.Windows.{passed};
ghost use Rattle.unit_messages.specs.Chosen.{AreEntries, shape_of, insertions_on, places_on, speed_blocks, entries_of};
ghost use Rattle.unit_messages.specs.Chosen.{chosen_in_ring};
ghost use Rattle.unit_messages.specs.Outlines.{IsDayInRange};

use crate::entries::{Choice, Entries, INSERTION_TIME, PLACE_TIME};
use crate::outline::DayOutline;
use crate::window::Window;
use message_model::sizes;
use tach_media::{Failed, Medium, read_number};
use unit_model::layout::{
    EVENTS, FAULTS, INSERTION_SLOTS, INSERTIONS, OVERS, PLACE_SLOTS, PLACES, SPEED_SLOTS, SPEEDS,
};

// How many places there are for faults.
const FAULT_PLACES: u32 = 24;

// How many there are for events.
const EVENT_PLACES: u32 = 60;

// How many there are for over speedings.
const OVER_PLACES: u32 = 10;

// Where a fault, an event and an over speeding have their begin, behind their type and their purpose.
const BEGIN: u32 = 2;

/// The insertions that touch a day.
pub fn insertions_on(date: u32) -> Entries
    ensures is { result ≡ insertions_on date }
    ensures base { result.base ≡ INSERTIONS.place + 4 }
    ensures entries { AreEntries result }
{
    Entries {
        base: INSERTIONS.place + 4,
        width: sizes::INSERTION,
        count: INSERTION_SLOTS,
        gate: INSERTION_TIME,
        choice: Choice::Touching(date),
    }
}

/// The places of a day.
pub fn places_on(date: u32) -> Entries
    ensures is { result ≡ places_on date }
    ensures base { result.base ≡ PLACES.place + 4 }
    ensures entries { AreEntries result }
{
    Entries {
        base: PLACES.place + 4,
        width: sizes::PLACE,
        count: PLACE_SLOTS,
        gate: PLACE_TIME,
        choice: Choice::PlaceOn(date),
    }
}

/// The blocks of detailed speed, of which each begins with its time.
pub fn speed_blocks() -> Entries
    ensures is { result ≡ speed_blocks }
    ensures base { result.base ≡ SPEEDS.place + 4 }
    ensures entries { AreEntries result }
{
    Entries {
        base: SPEEDS.place + 4,
        width: sizes::SPEED_BLOCK,
        count: SPEED_SLOTS,
        gate: 0,
        choice: Choice::Each,
    }
}

/// All entries of a table, of which each begins with its type and its purpose.
fn table(base: u32, width: u32, count: u32) -> Entries
    ensures { result ≡ entries_of base width count }
{
    Entries {
        base,
        width,
        count,
        gate: BEGIN,
        choice: Choice::Each,
    }
}

/// The faults.
pub fn fault_entries() -> Entries
    ensures is { result ≡ entries_of FAULTS.place 82 24 }
    ensures each { result.choice ≡ Choice.Each }
    ensures entries { AreEntries result }
{
    table(FAULTS.place, sizes::FAULT, FAULT_PLACES)
}

/// The events.
pub fn event_entries() -> Entries
    ensures is { result ≡ entries_of EVENTS.place 83 60 }
    ensures each { result.choice ≡ Choice.Each }
    ensures entries { AreEntries result }
{
    table(EVENTS.place, sizes::EVENT, EVENT_PLACES)
}

/// The over speedings.
pub fn over_entries() -> Entries
    ensures is { result ≡ entries_of OVERS.place 31 10 }
    ensures each { result.choice ≡ Choice.Each }
    ensures entries { AreEntries result }
{
    table(OVERS.place, sizes::OVER, OVER_PLACES)
}

/// A number of one byte passes by.
pub fn pass_byte(window: &mut Window, number: u32)
    requires { number ≤ 255 }
    ensures { window.new ≡ passed window.old (big_bytes 1 number) }
{
    let bytes = (number as u8).to_be_bytes();
    window.pass(&bytes);
}

/// A number of two bytes passes by.
fn pass_count(window: &mut Window, number: u32)
    requires { number < 2 ^ 16 }
    ensures { window.new ≡ passed window.old (big_bytes 2 number) }
{
    let bytes = (number as u16).to_be_bytes();
    window.pass(&bytes);
}

/// How many bytes so many entries have.
fn bytes_of(count: u32, width: u32) -> u32
    requires few { count ≤ INSERTION_SLOTS }
    requires narrow { width ≤ 129 }
    ensures { result ≡ count * width }
{
    count * width
}

/// The entries of a table pass by, behind their count.
///
/// # Errors
///
/// `Failed` where the unit failed.
pub fn pass_table<M: Medium>(
    unit: &mut M,
    entries: &Entries,
    count: u32,
    window: &mut Window,
) -> Result<(), Failed>
    requires unit { (M.state unit.old).size ≡ IMAGE_SIZE }
    requires entries { AreEntries entries.now }
    requires each { entries.now.choice ≡ Choice.Each }
    requires few { count ≤ 255 }
    ensures passed { OnOk result (IfSome (M.state unit.old).image
        (λ x. count ≡ length (entries_in (shape_of entries.now) x)
        → window.new ≡ passed window.old (counted 1 (entries_in (shape_of entries.now) x)))) }
    ensures reads { ReadsIfAny (M.state unit.old) (M.state unit.new) (is_err result) }
{
    pass_byte(window, count);
    let len = bytes_of(count, entries.width);
    let over = window.passes_over(len);
    if over {
        return Ok(());
    }
    entries.pass(unit, 0, window)?;
    Ok(())
}

/// The index behind the pointer, round the end; 0 where the pointer is no index.
fn turn_at(pointer: u32, count: u32) -> u32
    ensures turn { pointer < count → result ≡ (if pointer + 1 == count then 0 else pointer + 1) }
    ensures below { result ≤ count }
{
    if pointer < count && pointer + 1 < count {
        pointer + 1
    } else {
        0
    }
}

/// The entries of a ring, of which so many are meant, pass by; where none of them can be taken, none is read, and where
/// each is meant, none before the window's begin.
fn pass_ring<M: Medium>(
    unit: &mut M,
    place: u32,
    entries: &Entries,
    count: u32,
    window: &mut Window,
) -> Result<(), Failed>
    requires unit { (M.state unit.old).size ≡ IMAGE_SIZE }
    requires entries { AreEntries entries.now }
    requires pointer { entries.now.base ≡ place + 4 }
    requires few { count ≤ INSERTION_SLOTS }
    ensures passed { OnOk result (IfSome (M.state unit.old).image
        (λ x. number_at x place 4 < entries.now.count → count ≡ length (chosen_in_ring place entries.now x)
        → window.new ≡ passed window.old (joined (chosen_in_ring place entries.now x)))) }
    ensures reads { ReadsIfAny (M.state unit.old) (M.state unit.new) (is_err result) }
{
    let len = bytes_of(count, entries.width);
    let over = window.passes_over(len);
    if over {
        return Ok(());
    }
    let pointer = read_number(unit, place, 4)?;
    let turn = turn_at(pointer, entries.count);
    entries.pass_some_of(unit, turn, count, window)?;
    Ok(())
}

/// The insertions of a day pass by, behind their count.
///
/// # Errors
///
/// `Failed` where the unit failed.
pub fn pass_insertions<M: Medium>(
    unit: &mut M,
    day: DayOutline,
    window: &mut Window,
) -> Result<(), Failed>
    requires unit { (M.state unit.old).size ≡ IMAGE_SIZE }
    requires range { IsDayInRange day }
    ensures passed { OnOk result (IfSome (M.state unit.old).image
        (λ x. PointsInside insertion_ring x
        → day.insertions ≡ length (filter (touches_day day.date) (ring_list insertion_ring x))
        → window.new ≡ passed window.old (counted 2 (filter (touches_day day.date) (ring_list insertion_ring x))))) }
    ensures reads { ReadsIfAny (M.state unit.old) (M.state unit.new) (is_err result) }
{
    let entries = insertions_on(day.date);
    pass_count(window, day.insertions);
    pass_ring(unit, INSERTIONS.place, &entries, day.insertions, window)?;
    Ok(())
}

/// The words of a day pass by, behind their count.
///
/// # Errors
///
/// `Failed` where the unit failed.
pub fn pass_words<M: Medium>(
    unit: &mut M,
    day: DayOutline,
    window: &mut Window,
) -> Result<(), Failed>
    requires unit { (M.state unit.old).size ≡ IMAGE_SIZE }
    requires range { IsDayInRange day }
    ensures passed { OnOk result (IfSome (M.state unit.old).image
        (λ x. window.new ≡ passed window.old (counted 2 (word_bytes (words_at x day.words_place day.words))))) }
    ensures reads { ReadsIfAny (M.state unit.old) (M.state unit.new) (is_err result) }
{
    pass_count(window, day.words);
    window.pass_words_at(unit, day.words_place, day.words)?;
    Ok(())
}

/// The places of a day pass by, behind their count.
///
/// # Errors
///
/// `Failed` where the unit failed.
pub fn pass_places<M: Medium>(
    unit: &mut M,
    day: DayOutline,
    window: &mut Window,
) -> Result<(), Failed>
    requires unit { (M.state unit.old).size ≡ IMAGE_SIZE }
    requires range { IsDayInRange day }
    ensures passed { OnOk result (IfSome (M.state unit.old).image
        (λ x. PointsInside unit_place_ring x
        → day.places ≡ length (filter (place_in_day day.date) (ring_list unit_place_ring x))
        → window.new ≡ passed window.old (counted 1 (filter (place_in_day day.date) (ring_list unit_place_ring x))))) }
    ensures reads { ReadsIfAny (M.state unit.old) (M.state unit.new) (is_err result) }
{
    let entries = places_on(day.date);
    pass_byte(window, day.places);
    pass_ring(unit, PLACES.place, &entries, day.places, window)?;
    Ok(())
}

/// The blocks of detailed speed pass by, behind their count.
///
/// # Errors
///
/// `Failed` where the unit failed.
pub fn pass_blocks<M: Medium>(unit: &mut M, blocks: u32, window: &mut Window) -> Result<(), Failed>
    requires unit { (M.state unit.old).size ≡ IMAGE_SIZE }
    requires few { blocks ≤ speed_ring.count }
    ensures passed { OnOk result (IfSome (M.state unit.old).image
        (λ x. PointsInside speed_ring x → blocks ≡ length (ring_list speed_ring x)
        → window.new ≡ passed window.old (counted 2 (ring_list speed_ring x)))) }
    ensures reads { ReadsIfAny (M.state unit.old) (M.state unit.new) (is_err result) }
{
    let entries = speed_blocks();
    pass_count(window, blocks);
    pass_ring(unit, SPEEDS.place, &entries, blocks, window)?;
    Ok(())
}
