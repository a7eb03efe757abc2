//! The rings of a card of the smallest sizes, with zeros in every file but where a test puts bytes.
ghost use Rattle.std.specs.Prelude.{◌≤◌, ◌<◌, ◌+◌, ◌*◌, length, IsTrue};
ghost use Rattle.gated_ring.specs.Ring.{is_pointer_width};

use card_files::{
    CardEvent, file_of, has_event, image_size, note_event, note_place, places, vehicles,
};
use card_layout::{Application, Fid};
use gated_ring::{Ring, RingFault};
use std::alloc::Global;
use std::process::Abort;
use std::test::Fail;
use tach_media::{Failed, Left, Medium, MemMedium, Memory, Stop};
use tacho_types::{Nation, Odometer, PlaceEntry, Registration, TimeReal};

const SMALLEST: Application = Application {
    structure: 0,
    events: 6,
    faults: 12,
    activity: 5544,
    vehicles: 84,
    places: 84,
};

/// The size of its image in bytes.
const SIZE: usize = 11411;

/// Where the set of events of type 05 begins, behind that of type 03; the file of vehicles; and that of places.
const SET: usize = 187;

const VEHICLES: usize = 7031;

const PLACES: usize = 9637;

/// The registration of each event.
const REGISTRATION: [u8; 15] = *b"\x0D\x01DEMO         ";

/// The begin of the event that is noted.
const BEGIN: u8 = 9;

const EVENT: CardEvent = CardEvent {
    kind: 5,
    begin: TimeReal(BEGIN as u32),
    end: TimeReal(BEGIN as u32),
    registration: Registration(REGISTRATION),
};

const PLACE: PlaceEntry = PlaceEntry {
    time: TimeReal(1267401600),
    kind: 0,
    country: Nation(13),
    region: 2,
    odometer: Odometer(0),
};

// The card with these bytes at a place, whose call of that number fails.
fn card(
    alloc: Global,
    place: usize,
    bytes: &[u8],
    call: u64,
    left: Left,
) -> Result<MemMedium, Memory>
    requires { place + length bytes.now ≤ 11411 }
{
    let mut image = vec![in alloc; 0u8; SIZE]?;
    let room = &mut image[place..place + bytes.len()];
    room.copy_from_slice(bytes);
    let mut stops = Vec::new(alloc);
    stops.push(Stop { call, left }).map_err(|_| Memory)?;
    MemMedium::new(alloc, image, 16, 512, stops)
}

/// A call that no test reaches.
const NEVER: u64 = 99;

// So many bytes of a medium that works again. A stop that was not reached yet may come in the first read.
fn bytes<const N: usize>(medium: &mut MemMedium, place: u32) -> Result<[u8; N], Failed>
    requires { place + N ≤ 11411 }
{
    let mut out = [0; N];
    medium.revive()?;
    if (medium.size() as usize) < SIZE {
        return Err(Failed);
    }
    if medium.read_at(place, &mut out).is_err() {
        medium.revive()?;
        medium.read_at(place, &mut out)?;
    }
    Ok(out)
}

fn loaded_vehicles(medium: &mut MemMedium) -> Result<Ring, RingFault> {
    if medium.size() < image_size(&SMALLEST) {
        return Err(RingFault::Failed);
    }
    vehicles(medium, &SMALLEST)
}

fn loaded_places(medium: &mut MemMedium) -> Result<Ring, RingFault> {
    if medium.size() < image_size(&SMALLEST) {
        return Err(RingFault::Failed);
    }
    places(medium, &SMALLEST)
}

// The ring of these places of a width, with the gate there.
fn ring(
    medium: &mut MemMedium,
    base: usize,
    width: u32,
    pointer_width: u8,
    gate: u32,
) -> Result<Ring, RingFault>
    requires inside { base + (pointer_width + 84 * width) ≤ 11411 }
    requires pointer { IsTrue (is_pointer_width pointer_width) }
    requires some { 0 < pointer_width }
    requires gate { gate + 4 ≤ width }
{
    if (medium.size() as usize) < SIZE {
        return Err(RingFault::Failed);
    }
    Ring::load(medium, base as u32, width, 84, pointer_width, gate)
}

// The rings of a blank card are those of these places.
fn rings_of(rt: &impl Abort, blank: &mut MemMedium) {
    let vehicles = loaded_vehicles(blank);
    assert!(rt; vehicles.is_ok() && vehicles == ring(blank, VEHICLES, 31, 2, 6));
    let places = loaded_places(blank);
    assert!(rt; places.is_ok() && places == ring(blank, PLACES, 10, 1, 0));
}

// The ring of vehicles of a card with this pointer.
fn vehicles_at(alloc: Global, pointer: u8) -> Result<Result<Ring, RingFault>, Memory> {
    let mut card = card(alloc, VEHICLES, &[0, pointer], NEVER, Left::Before)?;
    Ok(loaded_vehicles(&mut card))
}

// The ring of places of a card with this pointer.
fn places_at(alloc: Global, pointer: u8) -> Result<Result<Ring, RingFault>, Memory> {
    let mut card = card(alloc, PLACES, &[pointer], NEVER, Left::Before)?;
    Ok(loaded_places(&mut card))
}

#[test]
fn the_rings_of_vehicles_and_places(rt: HostRuntime) -> Result<(), Fail> {
    let mut blank = card(rt.alloc(), 0, &[], NEVER, Left::Before)?;
    rings_of(&rt, &mut blank);
    Ok(())
}

#[test]
fn pointers_of_vehicles_and_places(rt: HostRuntime) -> Result<(), Fail> {
    assert!(rt; vehicles_at(rt.alloc(), 83)?.is_ok());
    assert!(rt; vehicles_at(rt.alloc(), 84)? == Err(RingFault::BadPointer(84)));
    assert!(rt; places_at(rt.alloc(), 84)? == Err(RingFault::BadPointer(84)));
    Ok(())
}

// An event of type 05 in bytes; zeros where its begin is 0.
fn event(begin: u8) -> [u8; 24] {
    let mut bytes = [0; 24];
    if begin != 0 {
        bytes[0] = 5;
        bytes[4] = begin;
        bytes[8] = begin;
        bytes[9..24].copy_from_slice(&REGISTRATION);
    }
    bytes
}

// A set of six events with these begins.
fn set(begins: [u8; 6]) -> [u8; 144] {
    let mut bytes = [0; 144];
    for index in 0..6 {
        let place = 24 * index;
        bytes[place..place + 24].copy_from_slice(&event(begins[index]));
    }
    bytes
}

fn noted(medium: &mut MemMedium) -> Result<(), Failed> {
    let _file = file_of(&SMALLEST, Fid::EVENTS);
    if medium.size() < image_size(&SMALLEST) {
        return Err(Failed);
    }
    note_event(medium, &SMALLEST, &EVENT)
}

fn has(medium: &mut MemMedium, kind: u8, begin: u8) -> Result<bool, Failed> {
    if medium.size() < image_size(&SMALLEST) {
        return Err(Failed);
    }
    has_event(medium, &SMALLEST, kind, TimeReal(begin as u32))
}

/// The begins of a set before an event is noted and after it, and the place that it takes: in an empty set, in one with
/// an empty place, in a full one, and in one with two of the earliest begin.
const ROWS: [([u8; 6], [u8; 6], usize); 4] = [
    ([0, 0, 0, 0, 0, 0], [BEGIN, 0, 0, 0, 0, 0], 0),
    ([1, 2, 0, 4, 5, 6], [1, 2, BEGIN, 4, 5, 6], 2),
    ([3, 4, 5, 6, 2, 7], [3, 4, 5, 6, BEGIN, 7], 4),
    ([3, 2, 4, 2, 6, 7], [3, BEGIN, 4, 2, 6, 7], 1),
];

// Whether the event, one of another begin, one of another type, and one of no begin are there.
fn seen_events(medium: &mut MemMedium) -> Result<[bool; 4], Failed> {
    Ok([
        has(medium, 5, BEGIN)?,
        has(medium, 5, BEGIN + 1)?,
        has(medium, 6, BEGIN)?,
        has(medium, 5, 0)?,
    ])
}

// The event is noted in a set of these begins, which has those then.
fn is_noted(rt: &impl Abort, alloc: Global, before: [u8; 6], after: [u8; 6]) -> Result<(), Memory> {
    let mut medium = card(alloc, SET, &set(before), NEVER, Left::Before)?;
    assert!(rt; has(&mut medium, 5, BEGIN) == Ok(false));
    assert!(rt; noted(&mut medium) == Ok(()));
    assert!(rt; bytes(&mut medium, SET as u32) == Ok(set(after)));
    assert!(rt; seen_events(&mut medium) == Ok([true, false, false, false]));
    Ok(())
}

#[test]
fn an_event_takes_an_empty_place_or_that_of_the_earliest(rt: HostRuntime) -> Result<(), Fail> {
    for (before, after, _) in ROWS {
        is_noted(&rt, rt.alloc(), before, after)?;
    }
    Ok(())
}

/// As many calls as the noting of an event makes; at the last of these numbers no call of it fails.
const CALLS: u64 = 6;

// The set with zeros for an event whose begin is 0, for it is not there.
fn seen(found: [u8; 144], index: usize) -> [u8; 144]
    requires { index < 6 }
{
    let mut bytes = found;
    let event = &mut bytes[24 * index..24 * index + 24];
    if event[1..5] == [0; 4] {
        event.copy_from_slice(&[0; 24]);
    }
    bytes
}

// A note that stops at this call: whether it was made, and the set behind it.
fn stopped_note(
    rt: &impl Abort,
    alloc: Global,
    before: [u8; 6],
    call: u64,
) -> Result<(bool, [u8; 144]), Memory> {
    let mut medium = card(alloc, SET, &set(before), call, Left::Torn(0x55))?;
    let made = noted(&mut medium).is_ok();
    Ok((made, bytes(&mut medium, SET as u32).expect(rt, "revived")))
}

// The set without the event at this place.
fn without(before: [u8; 6], index: usize) -> [u8; 144]
    requires { index < 6 }
{
    let mut begins = before;
    begins[index] = 0;
    set(begins)
}

// A note that stops at each of its calls leaves the set without the event, or with it.
fn is_left(rt: &impl Abort, alloc: Global, row: &([u8; 6], [u8; 6], usize)) -> Result<(), Memory> {
    let (before, after, index) = *row;
    assert!(rt; index < 6);
    for call in 0..=CALLS {
        let (made, found) = stopped_note(rt, alloc, before, call)?;
        assert!(rt; made || call < CALLS);
        let found = seen(found, index);
        let left = !made && (found == set(before) || found == without(before, index));
        assert!(rt; left || found == set(after));
        if made {
            break;
        }
    }
    Ok(())
}

#[test]
fn a_stopped_note_leaves_the_set_without_or_with_the_event(rt: HostRuntime) -> Result<(), Fail> {
    for row in &ROWS {
        is_left(&rt, rt.alloc(), row)?;
    }
    Ok(())
}

fn noted_place(medium: &mut MemMedium) -> Result<(), Failed> {
    let _file = file_of(&SMALLEST, Fid::PLACES);
    if medium.size() < image_size(&SMALLEST) {
        return Err(Failed);
    }
    note_place(medium, &SMALLEST, &PLACE)
}

#[test]
fn a_place_in_an_empty_ring(rt: HostRuntime) -> Result<(), Fail> {
    let mut medium = card(rt.alloc(), 0, &[], NEVER, Left::Before)?;
    assert!(rt; noted_place(&mut medium) == Ok(()));
    let found: [u8; 11] = bytes(&mut medium, PLACES as u32).expect(&rt, "read");
    assert!(rt;
        found
            == [
                0x00, 0x4B, 0x8B, 0x03, 0x80, 0x00, 0x0D, 0x02, 0x00, 0x00, 0x00
            ]
    );
    Ok(())
}

#[test]
fn a_bad_place_pointer_leaves_the_card(rt: HostRuntime) -> Result<(), Fail> {
    let mut medium = card(rt.alloc(), PLACES, &[84], NEVER, Left::Before)?;
    assert!(rt; noted_place(&mut medium) == Ok(()));
    assert!(rt; medium.clock() == 0);
    let found: [u8; 11] = bytes(&mut medium, PLACES as u32).expect(&rt, "read");
    assert!(rt; found == [84, 0, 0, 0, 0, 0, 0, 0, 0, 0, 0]);
    Ok(())
}
