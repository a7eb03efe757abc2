//! Noting on a unit in memory.
ghost use Rattle.std.specs.Prelude.{◌≡◌, ◌≤◌, ◌<◌, ◌+◌, IfOk, vec_len};
ghost use Rattle.tach_media.specs.MemMedium.{memory_state};
ghost use Rattle.unit_model.specs.Image.{IsUnit};
ghost use Rattle.unit_model.specs.declared.layout.TheConstants.{IMAGE_SIZE};

use event_model::Over;
use std::alloc::{AllocError, Global};
use std::process::Abort;
use std::test::Fail;
use tach_media::{Failed, Left, Medium, MemMedium, Memory, Stop};
use tacho_types::{FullCardNumber, Name36, Nation, Odometer, PlaceEntry, Registration, TimeReal};
use unit_memory::{UnitFault, UnitMemory};
use unit_model::layout::IMAGE_SIZE;
use unit_notes::{Insertion, UnitEvent, UnitNotes};

/// 2010-03-01 00:00:00 GMT, 0x4B8B0380.
const START: u32 = 1267401600;

const NUMBER: FullCardNumber = FullCardNumber {
    kind: 1,
    state: Nation(13),
    number: *b"DE00000000000100",
};

const NO_NUMBER: FullCardNumber = FullCardNumber {
    kind: 0,
    state: Nation(0),
    number: [0; 16],
};

const INSERTION: Insertion = Insertion {
    surname: Name36(*b"\x01Surname                            "),
    first: Name36(*b"\x01First                              "),
    number: NUMBER,
    expiry: TimeReal(1388534399),
    time: TimeReal(START),
    odometer: Odometer(0x010203),
    slot: 1,
    out_time: TimeReal(0),
    out_odometer: Odometer(0),
    previous: Registration([0; 15]),
    previous_time: TimeReal(0),
    manual: 0,
};

const PLACE: PlaceEntry = PlaceEntry {
    time: TimeReal(START),
    kind: 0,
    country: Nation(13),
    region: 2,
    odometer: Odometer(7),
};

/// 61 seconds of driving without a card.
const WITHOUT_CARD: UnitEvent = UnitEvent {
    kind: 4,
    purpose: 1,
    begin: TimeReal(START),
    end: TimeReal(START + 60),
    driver_begin: NO_NUMBER,
    codriver_begin: NO_NUMBER,
    driver_end: NO_NUMBER,
    codriver_end: NO_NUMBER,
    similar: 0,
};

/// 61 seconds at 100 km/h, where the limit is 90.
const OVER: Over = Over {
    begin: START,
    end: START + 60,
    most: 100,
    average: 100,
};

/// A card that was torn out.
const FAULT: UnitEvent = UnitEvent {
    kind: 0x40,
    purpose: 0,
    begin: TimeReal(START),
    end: TimeReal(START),
    driver_begin: NUMBER,
    codriver_begin: NO_NUMBER,
    driver_end: NUMBER,
    codriver_end: NO_NUMBER,
    similar: 0,
};

/// A new unit, with its last insertion and its last place.
fn new_image(alloc: Global) -> Result<Vec<u8>, AllocError>
    ensures { IfOk result (λ bytes. vec_len bytes ≡ IMAGE_SIZE) }
{
    let mut image = vec![in alloc; 0u8; IMAGE_SIZE as usize]?;
    image[3] = 1;
    image[2115048 + 2047 * 129 + 97] = 1;
    image[2379244 + 254 * 28 + 21] = 1;
    Ok(image)
}

/// Where the calls on a unit fail, and what they leave: of notes that are begun again each time, with one call before
/// the first and three after each, at the first call of a note, at its second, and so on, of each twice.
const STOPS: [(u64, Left); 22] = [
    (1, Left::After),
    (5, Left::Torn(0x55)),
    (10, Left::After),
    (15, Left::Torn(0x55)),
    (21, Left::After),
    (27, Left::Torn(0x55)),
    (34, Left::After),
    (41, Left::Torn(0x55)),
    (49, Left::After),
    (57, Left::Torn(0x55)),
    (66, Left::After),
    (75, Left::Torn(0x55)),
    (85, Left::After),
    (95, Left::Torn(0x55)),
    (106, Left::After),
    (117, Left::Torn(0x55)),
    (129, Left::After),
    (141, Left::Torn(0x55)),
    (154, Left::After),
    (167, Left::Torn(0x55)),
    (181, Left::After),
    (195, Left::Torn(0x55)),
];

/// A unit in memory, the calls of which fail at these.
fn unit_with(alloc: Global, stops: &[(u64, Left)]) -> Result<MemMedium, Memory>
    ensures { IfOk result (λ unit. IsUnit (memory_state unit.log unit.counts)) }
{
    let mut list = Vec::new(alloc);
    for (call, left) in stops {
        list.push(Stop {
            call: *call,
            left: *left,
        })
        .map_err(|_| Memory)?;
    }
    let image = new_image(alloc).map_err(|_| Memory)?;
    MemMedium::new(alloc, image, 700, 16384, list)
}

fn memory<M: Medium>(unit: &mut M) -> Result<UnitMemory, UnitFault>
    requires { IsUnit (M.state unit.old) }
    ensures { IsUnit (M.state unit.new) }
{
    UnitMemory::load(unit)
}

/// So many bytes of a unit.
fn bytes<M: Medium, const N: usize>(unit: &mut M, place: u32) -> Result<[u8; N], Failed>
    requires unit { IsUnit (M.state unit.old) }
    requires inside { place + N ≤ IMAGE_SIZE }
    ensures { IsUnit (M.state unit.new) }
{
    let mut out = [0; N];
    unit.read_at(place, &mut out)?;
    Ok(out)
}

/// Four bytes of a unit are written.
fn write<M: Medium>(unit: &mut M, place: u32, four: [u8; 4]) -> Result<(), Failed>
    requires unit { IsUnit (M.state unit.old) }
    requires inside { place + 4 ≤ IMAGE_SIZE }
    ensures { IsUnit (M.state unit.new) }
{
    unit.write_at(place, &four)
}

/// What is noted in a test.
#[derive(Clone, Copy)]
enum Note {
    Insertion,
    Withdrawal,
    Place,
    Event,
    Over,
    Fault,
}

impl Note {
    /// Where the ring or the places of its type begin.
    fn base(self) -> u32
        ensures { result + 135 ≤ IMAGE_SIZE }
    {
        match self {
            Note::Insertion | Note::Withdrawal => 2115044,
            Note::Place => 2379240,
            // the third of the types with 83 bytes
            Note::Event => 2386384 + 20 * 83,
            Note::Over => 2391364,
            Note::Fault => 2391674,
        }
    }

    /// How often it fails at least, where each of its calls fails twice.
    fn fewest(self) -> u8 {
        match self {
            Note::Withdrawal => 4,
            _ => 10,
        }
    }
}

/// An insertion without the odometer of its withdrawal.
fn without_odometer(whole: [u8; 135]) -> [u8; 135] {
    let mut entry = whole;
    entry[110..113].copy_from_slice(&[0; 3]);
    entry
}

/// What may stand there within a note: no entry, by its gate, or a withdrawal without its odometer.
fn is_within(kind: Note, found: [u8; 135], whole: [u8; 135]) -> bool {
    match kind {
        Note::Insertion => found[98..102] == [0; 4],
        Note::Withdrawal => found == without_odometer(whole),
        Note::Place => found[22..26] == [0; 4],
        _ => found[2..6] == [0; 4],
    }
}

fn make<M: Medium>(memory: &UnitMemory, unit: &mut M, note: Note) -> Result<(), Failed>
    requires { IsUnit (M.state unit.old) }
    ensures { IsUnit (M.state unit.new) }
{
    match note {
        Note::Insertion => memory.note_insertion(unit, &INSERTION).map(|_| ()),
        Note::Withdrawal => {
            memory.note_withdrawal(unit, 0, TimeReal(START + 60), Odometer(0x040506))
        }
        Note::Place => memory.note_place(unit, &NUMBER, &PLACE),
        Note::Event => memory.note_event(unit, &WITHOUT_CARD),
        Note::Over => memory.note_over(unit, &OVER, &NO_NUMBER),
        Note::Fault => memory.note_fault(unit, &FAULT),
    }
}

/// What stands in the first place of a note's ring, with the pointer before it.
fn first_entry<M: Medium>(unit: &mut M, note: Note) -> Result<[u8; 135], Failed>
    requires { IsUnit (M.state unit.old) }
    ensures { IsUnit (M.state unit.new) }
{
    bytes(unit, note.base())
}

/// What stands there before a note: an entry whose place it takes, or none.
fn before(kind: Note) -> [u8; 135] {
    let mut found = [0; 135];
    match kind {
        Note::Insertion => {
            found[2..4].copy_from_slice(&[0x07, 0xFF]);
            found[101] = 1;
        }
        Note::Withdrawal => found[101] = 1,
        Note::Place => {
            found[3] = 0xFE;
            found[25] = 1;
        }
        Note::Event => found[2..10].copy_from_slice(&[0x4B, 0x8B, 3, 0x80, 0x4B, 0x8B, 3, 0x80]),
        Note::Over => found[2..12].copy_from_slice(&[0x4B, 0x8B, 3, 0x80, 0, 0, 0, 0, 1, 1]),
        Note::Fault => {}
    }
    found
}

/// Has that stand there.
fn set_before<M: Medium>(unit: &mut M, kind: Note) -> Result<(), Failed>
    requires { IsUnit (M.state unit.old) }
    ensures { IsUnit (M.state unit.new) }
{
    unit.write_at(kind.base(), &before(kind))
}

/// The first entry once it is noted where no call fails.
fn noted<M: Medium>(memory: &UnitMemory, unit: &mut M, kind: Note) -> Result<[u8; 135], Failed>
    requires { IsUnit (M.state unit.old) }
    ensures { IsUnit (M.state unit.new) }
{
    set_before(unit, kind)?;
    make(memory, unit, kind)?;
    first_entry(unit, kind)
}

/// After a note that was stopped the first entry is the one before, the one that is noted, or what may stand there
/// within the note. That before is set again.
fn after_stop<M: Medium>(
    rt: &impl Abort,
    unit: &mut M,
    kind: Note,
    whole: [u8; 135],
) -> Result<(), Failed>
    requires { IsUnit (M.state unit.old) }
    ensures { IsUnit (M.state unit.new) }
{
    unit.revive()?;
    let found = first_entry(unit, kind)?;
    assert!(rt; found == before(kind) || found == whole || is_within(kind, found, whole));
    let version: [u8; 4] = bytes(unit, 0)?;
    assert_eq!(rt; version, [0, 0, 0, 1]);
    set_before(unit, kind)
}

/// The first entry, where the call that reads it may fail once.
fn entry_after<M: Medium>(unit: &mut M, kind: Note) -> Result<[u8; 135], Failed>
    requires { IsUnit (M.state unit.old) }
    ensures { IsUnit (M.state unit.new) }
{
    if let Ok(found) = first_entry(unit, kind) {
        return Ok(found);
    }
    unit.revive()?;
    first_entry(unit, kind)
}

/// Begins a note again until no call of it fails, and tells how often it failed.
fn begun_again<M: Medium>(
    rt: &impl Abort,
    memory: &UnitMemory,
    unit: &mut M,
    kind: Note,
    whole: [u8; 135],
) -> Result<u8, Failed>
    requires { IsUnit (M.state unit.old) }
{
    for failed in 0..30 {
        if make(memory, unit, kind).is_ok() {
            assert!(rt; entry_after(unit, kind)? == whole);
            return Ok(failed);
        }
        after_stop(rt, unit, kind, whole)?;
    }
    Ok(30)
}

/// Notes it where no call fails, and on another unit where each of its calls fails in turn.
fn stopped<M: Medium>(
    rt: &(impl Abort + AllocGlobal),
    memory: &UnitMemory,
    unit: &mut M,
    kind: Note,
) -> Result<(), Fail>
    requires { IsUnit (M.state unit.old) }
    ensures { IsUnit (M.state unit.new) }
{
    let whole = noted(memory, unit, kind)?;
    let mut other = unit_with(rt.alloc(), &STOPS)?;
    set_before(&mut other, kind)?;
    let failed = begun_again(rt, memory, &mut other, kind, whole)?;
    assert!(rt; kind.fewest() <= failed && failed <= 22);
    Ok(())
}

#[test]
fn an_insertion_and_a_withdrawal_are_stopped(rt: HostRuntime) -> Result<(), Fail> {
    let mut unit = unit_with(rt.alloc(), &[])?;
    let memory = memory(&mut unit)?;
    stopped(&rt, &memory, &mut unit, Note::Insertion)?;
    stopped(&rt, &memory, &mut unit, Note::Withdrawal)
}

#[test]
fn a_place_and_a_fault_are_stopped(rt: HostRuntime) -> Result<(), Fail> {
    let mut unit = unit_with(rt.alloc(), &[])?;
    let memory = memory(&mut unit)?;
    stopped(&rt, &memory, &mut unit, Note::Place)?;
    stopped(&rt, &memory, &mut unit, Note::Fault)
}

#[test]
fn an_event_and_an_over_speeding_are_stopped(rt: HostRuntime) -> Result<(), Fail> {
    let mut unit = unit_with(rt.alloc(), &[])?;
    let memory = memory(&mut unit)?;
    stopped(&rt, &memory, &mut unit, Note::Event)?;
    stopped(&rt, &memory, &mut unit, Note::Over)
}

/// A card is inserted twice and withdrawn; what is told of it stands in its fields.
fn a_card_is_used<M: Medium>(
    rt: &impl Abort,
    memory: &UnitMemory,
    unit: &mut M,
) -> Result<(), Failed>
    requires { IsUnit (M.state unit.old) }
{
    assert_eq!(rt; memory.note_insertion(unit, &INSERTION)?, 0);
    assert_eq!(rt; memory.note_insertion(unit, &INSERTION)?, 1);
    memory.note_withdrawal(unit, 1, TimeReal(START + 60), Odometer(0x040506))?;
    memory.note_place(unit, &NUMBER, &PLACE)?;
    // the pointer, and the two entries from the time on
    let found: [u8; 262] = bytes(unit, 2115044)?;
    assert!(rt; found[..4] == [0, 0, 0, 1]);
    assert!(rt; found[4..40] == INSERTION.surname.0[..]);
    assert!(rt; found[98..109] == [0x4B, 0x8B, 0x03, 0x80, 1, 2, 3, 1, 0, 0, 0]);
    assert!(rt; found[227..238] == [0x4B, 0x8B, 0x03, 0x80, 1, 2, 3, 1, 0x4B, 0x8B, 0x03]);
    assert!(rt; found[238..242] == [0xBC, 4, 5, 6]);
    let found: [u8; 32] = bytes(unit, 2379240)?;
    assert!(rt; found[..6] == [0, 0, 0, 0, 1, 13]);
    assert!(rt; found[22..] == [0x4B, 0x8B, 0x03, 0x80, 0, 13, 2, 0, 0, 7]);
    Ok(())
}

/// The ring of insertions with its pointer at the last one, where that and the first one are there: the next one is the
/// first.
fn round_the_end<M: Medium>(
    rt: &impl Abort,
    memory: &UnitMemory,
    unit: &mut M,
) -> Result<(), Failed>
    requires { IsUnit (M.state unit.old) }
{
    write(unit, 2115044, [0, 0, 0x07, 0xFF])?;
    write(unit, 2115048 + 94, [0, 0, 0, 1])?;
    assert_eq!(rt; memory.note_insertion(unit, &INSERTION)?, 0);
    let found: [u8; 4] = bytes(unit, 2115048 + 94)?;
    assert_eq!(rt; found, [0x4B, 0x8B, 3, 0x80]);
    Ok(())
}

#[test]
fn insertions_withdrawals_and_places(rt: HostRuntime) -> Result<(), Fail> {
    let mut unit = unit_with(rt.alloc(), &[])?;
    let memory = memory(&mut unit)?;
    a_card_is_used(&rt, &memory, &mut unit)?;
    Ok(())
}

#[test]
fn insertions_go_round_the_end(rt: HostRuntime) -> Result<(), Fail> {
    let mut unit = unit_with(rt.alloc(), &[])?;
    let memory = memory(&mut unit)?;
    round_the_end(&rt, &memory, &mut unit)?;
    Ok(())
}

/// The begin's last byte, the average and the similar events of the first two places of over speedings.
fn two_overs<M: Medium>(unit: &mut M) -> Result<[u8; 6], Failed>
    requires { IsUnit (M.state unit.old) }
    ensures { IsUnit (M.state unit.new) }
{
    let all: [u8; 62] = bytes(unit, 2391364)?;
    Ok([all[5], all[11], all[30], all[36], all[42], all[61]])
}

/// An over speeding of another begin and average.
fn note_other<M: Medium>(
    memory: &UnitMemory,
    unit: &mut M,
    begin: u32,
    average: u8,
) -> Result<(), Failed>
    requires unit { IsUnit (M.state unit.old) }
    requires begin { 0 < begin }
    ensures { IsUnit (M.state unit.new) }
{
    let mut over = OVER;
    over.begin = begin;
    over.average = average;
    memory.note_over(unit, &over, &NUMBER)
}

fn more_overs<M: Medium>(rt: &impl Abort, memory: &UnitMemory, unit: &mut M) -> Result<(), Failed>
    requires { IsUnit (M.state unit.old) }
{
    note_other(memory, unit, START, 100)?;
    let entry: [u8; 12] = bytes(unit, 2391364)?;
    assert_eq!(rt;
        entry,
        [7, 4, 0x4B, 0x8B, 3, 0x80, 0x4B, 0x8B, 3, 0xBC, 100, 100]
    );
    let counts: [u8; 8] = bytes(unit, 572)?;
    assert_eq!(rt; counts, [0x4B, 0x8B, 0x03, 0x80, 0, 0, 0, 1]);
    // of equal averages the held one stays, and counts the other
    note_other(memory, unit, START + 1, 100)?;
    assert_eq!(rt; two_overs(unit)?, [0x80, 100, 2, 0, 0, 0]);
    // a higher average takes the place of its day
    note_other(memory, unit, START + 1, 101)?;
    assert_eq!(rt; two_overs(unit)?, [0x81, 101, 3, 0, 0, 0]);
    // another day takes another place
    note_other(memory, unit, START + 86400, 101)?;
    assert_eq!(rt; two_overs(unit)?, [0x81, 101, 3, 0x00, 101, 1]);
    // the begin of the first one, and their number
    let counts: [u8; 8] = bytes(unit, 572)?;
    assert_eq!(rt; counts, [0x4B, 0x8B, 0x03, 0x80, 0, 0, 0, 4]);
    write(unit, 576, [0, 0, 0, 255])?;
    note_other(memory, unit, START, 99)?;
    let counts: [u8; 8] = bytes(unit, 572)?;
    assert_eq!(rt; counts, [0x4B, 0x8B, 0x03, 0x80, 0, 0, 0, 255]);
    Ok(())
}

#[test]
fn over_speedings_of_one_day_and_of_another(rt: HostRuntime) -> Result<(), Fail> {
    let mut unit = unit_with(rt.alloc(), &[])?;
    let memory = memory(&mut unit)?;
    more_overs(&rt, &memory, &mut unit)?;
    Ok(())
}

/// Notes a fault of this begin.
fn torn<M: Medium>(memory: &UnitMemory, unit: &mut M, begin: u32) -> Result<(), Failed>
    requires unit { IsUnit (M.state unit.old) }
    requires begin { 0 < begin }
    ensures { IsUnit (M.state unit.new) }
{
    let mut fault = FAULT;
    fault.begin = TimeReal(begin);
    memory.note_fault(unit, &fault)
}

/// Notes faults that begin at each second from 1 to 24.
fn torn_often<M: Medium>(memory: &UnitMemory, unit: &mut M) -> Result<(), Failed>
    requires { IsUnit (M.state unit.old) }
    ensures { IsUnit (M.state unit.new) }
{
    for begin in 1..25 {
        torn(memory, unit, begin)?;
    }
    Ok(())
}

/// The last byte of the begin of the first and of the last fault.
fn outer_faults<M: Medium>(unit: &mut M) -> Result<[u8; 2], Failed>
    requires { IsUnit (M.state unit.old) }
    ensures { IsUnit (M.state unit.new) }
{
    let all: [u8; 1968] = bytes(unit, 2391674)?;
    Ok([all[5], all[82 * 23 + 5]])
}

fn many_faults<M: Medium>(rt: &impl Abort, memory: &UnitMemory, unit: &mut M) -> Result<(), Failed>
    requires { IsUnit (M.state unit.old) }
{
    torn_often(memory, unit)?;
    assert_eq!(rt; outer_faults(unit)?, [1, 24]);
    // all places are full: one that begins with the earliest is not kept
    torn(memory, unit, 1)?;
    assert_eq!(rt; outer_faults(unit)?, [1, 24]);
    // and a later one takes the place of the earliest
    torn(memory, unit, 99)?;
    assert_eq!(rt; outer_faults(unit)?, [99, 24]);
    Ok(())
}

#[test]
fn the_newest_faults_are_kept(rt: HostRuntime) -> Result<(), Fail> {
    let mut unit = unit_with(rt.alloc(), &[])?;
    let memory = memory(&mut unit)?;
    many_faults(&rt, &memory, &mut unit)?;
    Ok(())
}

/// A card is torn out at 00:03:59 and put in again two minutes later, with its session still open: its fault, the
/// driving without it, and the session.
fn a_card_is_torn_out<M: Medium>(
    rt: &impl Abort,
    memory: &UnitMemory,
    unit: &mut M,
) -> Result<(), Failed>
    requires { IsUnit (M.state unit.old) }
{
    let mut fault = FAULT;
    fault.begin = TimeReal(START + 239);
    fault.end = TimeReal(START + 239);
    fault.driver_begin = NO_NUMBER;
    fault.driver_end = NO_NUMBER;
    memory.note_fault(unit, &fault)?;
    let mut bare = WITHOUT_CARD;
    bare.begin = TimeReal(START + 240);
    bare.end = TimeReal(START + 359);
    memory.note_event(unit, &bare)?;
    let mut session = FAULT;
    session.kind = 6;
    session.end = TimeReal(START + 360);
    memory.note_event(unit, &session)?;
    let found: [u8; 11] = bytes(unit, 2391674)?;
    assert_eq!(rt;
        found,
        [0x40, 0, 0x4B, 0x8B, 4, 0x6F, 0x4B, 0x8B, 4, 0x6F, 0]
    );
    let found: [u8; 11] = bytes(unit, 2388044)?;
    assert_eq!(rt; found, [4, 1, 0x4B, 0x8B, 4, 0x70, 0x4B, 0x8B, 4, 0xE7, 0]);
    let found: [u8; 11] = bytes(unit, 2389704)?;
    assert_eq!(rt; found, [6, 0, 0x4B, 0x8B, 3, 0x80, 0x4B, 0x8B, 4, 0xE8, 1]);
    let similar: [u8; 1] = bytes(unit, 2389704 + 82)?;
    assert_eq!(rt; similar, [1]);
    Ok(())
}

#[test]
fn events_of_a_card_that_is_torn_out(rt: HostRuntime) -> Result<(), Fail> {
    let mut unit = unit_with(rt.alloc(), &[])?;
    let memory = memory(&mut unit)?;
    a_card_is_torn_out(&rt, &memory, &mut unit)?;
    Ok(())
}
