//! The places of the events and faults of a type.
ghost use Rattle.std.specs.Prelude.{◌≡◌, ◌≤◌, ◌<◌, ◌+◌, ◌*◌, length, map, IfSome};
ghost use Rattle.unit_model.specs.declared.layout.TheConstants.{IMAGE_SIZE, EVENTS, FAULTS};
ghost use Rattle.card_layout.specs.Fields.{total_width};
ghost use Rattle.event_model.specs.Kinds.{places_of};
ghost use Rattle.note_model.specs.Tables as side;
ghost use Rattle.note_model.specs.Tables.{widths_of, similar_field};
ghost use Rattle.unit_notes.specs.Tables.{rows_in, all_events};

use crate::UnitEvent;
use arrayvec::ArrayVec;
use byteorder::{BigEndian, ByteOrder};
use event_model::{
    CARD_FAULT, CARD_NOT_VALID, DRIVING_WITHOUT_CARD, EVENT_PLACES, FAULT_PLACES, Held,
    INSERTION_WHILE_DRIVING, OVER_SPEEDING, SESSION_NOT_CLOSED, TIME_OVERLAP,
};
use gated_ring::Ring;
use unit_model::layout::{EVENTS, FAULTS, OVERS};

/// The size of an entry of an event in bytes; an over speeding and a fault have fewer.
pub const EVENT_SIZE: usize = UnitEvent::SIZE;

/// The size of an entry of a fault in bytes, and of that of an event without its number of similar events.
pub const FAULT_SIZE: usize = EVENT_SIZE - 1;

/// The size of an entry of an over speeding in bytes.
pub const OVER_SIZE: usize = 31;

/// The most bytes that the places of a type have: those of the faults.
pub const MOST_BYTES: usize = FAULT_PLACES * FAULT_SIZE;

/// Where an entry has its begin and its end, in seconds, and an over speeding its average speed.
const BEGIN: usize = 2;

const END: usize = 6;

const AVERAGE: usize = 11;

/// How many types have events of 83 bytes.
const EVENT_KINDS: usize = 6;

/// The size of an entry of a type in bytes.
pub fn width_of(kind: u8) -> usize
    ensures width { result ≡ total_width (widths_of kind) }
    ensures most { result ≤ EVENT_SIZE }
    ensures least { 31 ≤ result }
{
    match kind {
        OVER_SPEEDING => OVER_SIZE,
        CARD_FAULT => FAULT_SIZE,
        _ => UnitEvent::SIZE,
    }
}

/// How many places a type has.
pub fn count_of(kind: u8) -> usize
    ensures count { result ≡ places_of kind }
    ensures most { result ≤ 24 }
    ensures some { 0 < result }
{
    if kind == CARD_FAULT {
        FAULT_PLACES
    } else {
        EVENT_PLACES
    }
}

/// Which of the types with events of 83 bytes it is.
fn order_of(kind: u8) -> u32
    ensures order { result ≡ side.order_of kind }
    ensures most { result ≤ 5 }
{
    match kind {
        CARD_NOT_VALID => 0,
        TIME_OVERLAP => 1,
        DRIVING_WITHOUT_CARD => 2,
        INSERTION_WHILE_DRIVING => 3,
        SESSION_NOT_CLOSED => 4,
        _ => 5,
    }
}

/// Where the places of a type begin.
pub fn base_of(kind: u8) -> u32
    ensures base { result ≡ side.base_of kind }
    ensures inside { result + places_of kind * total_width (widths_of kind) ≤ FAULTS.place + FAULTS.size }
    ensures behind { EVENTS.place ≤ result }
{
    match kind {
        OVER_SPEEDING => OVERS.place,
        CARD_FAULT => FAULTS.place,
        _ => EVENTS.place + order_of(kind) * (EVENT_PLACES * UnitEvent::SIZE) as u32,
    }
}

/// So many places of a width, without a pointer: an entry is there where its begin is not 0.
fn places_at(base: u32, width: usize, count: usize) -> Ring
    requires width { BEGIN + 4 ≤ width }
    requires some { 0 < count }
    requires small { width ≤ EVENT_SIZE }
    requires few { count ≤ 60 }
    requires inside { base + count * width ≤ IMAGE_SIZE }
    ensures { result ≡ record { base = base; width = width; count = count; pointer_width = 0; gate = 2 } }
{
    Ring::at(base, width as u32, count as u32, 0, BEGIN as u32)
}

/// The places of the events of a type.
pub fn table_of(kind: u8) -> Ring
    ensures { result ≡ side.table_of kind }
{
    places_at(base_of(kind), width_of(kind), count_of(kind))
}

/// The places of all events but over speedings, for reading: ten of each of the types 01, 03, 04, 05, 06 and 08, one
/// type after the other.
pub fn events() -> Ring
    ensures { result ≡ all_events }
{
    places_at(EVENTS.place, UnitEvent::SIZE, EVENT_KINDS * EVENT_PLACES)
}

/// The ten places of over speedings.
pub fn overs() -> Ring
    ensures { result ≡ side.table_of OVER_SPEEDING }
{
    table_of(OVER_SPEEDING)
}

/// The 24 places of faults.
pub fn faults() -> Ring
    ensures { result ≡ side.table_of CARD_FAULT }
{
    table_of(CARD_FAULT)
}

/// What an entry of a type tells of the event's place.
pub fn held_in(kind: u8, entry: &[u8]) -> Held
    requires { 12 ≤ length entry.now }
    ensures { result ≡ side.held_in kind entry.now }
{
    Held {
        begin: BigEndian::read_u32(&entry[BEGIN..END]),
        end: BigEndian::read_u32(&entry[END..END + 4]),
        weight: if kind == OVER_SPEEDING {
            entry[AVERAGE]
        } else {
            0
        },
    }
}

/// The events in the bytes of the places of a type.
pub fn held_table(kind: u8, table: &[u8]) -> ArrayVec<Held, FAULT_PLACES>
    requires { length table.now ≡ places_of kind * total_width (widths_of kind) }
    ensures held { result.items ≡ map (side.held_in kind) (rows_in kind table.now) }
{
    let width = width_of(kind);
    let mut held = ArrayVec::new();
    for index in 0..count_of(kind) {
        let place = index * width;
        held.push(held_in(kind, &table[place..place + width]));
    }
    held
}

/// How many similar events the entry at a place counts, where entries of the type count them.
pub fn similar_at(kind: u8, table: &[u8], place: Option<u8>) -> Option<u8>
    requires len { length table.now ≡ places_of kind * total_width (widths_of kind) }
    requires below { IfSome place (λ i. i < places_of kind) }
    ensures { result ≡ side.similar_at kind (rows_in kind table.now) (similar_field kind) place }
{
    let Some(index) = place else {
        return None;
    };
    if kind == CARD_FAULT {
        return None;
    }
    let width = width_of(kind);
    let place = index as usize * width;
    let entry = &table[place..place + width];
    Some(entry[width - 1])
}
