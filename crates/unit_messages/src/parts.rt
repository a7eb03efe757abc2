//! The parts of which a message is made, one after the other, behind its number (Annex IB, Appendix 7, 2.2.6).
ghost use Rattle.std.specs.Prelude.{◌≡◌, ◌≤◌, ◌<◌, ◌+◌, ◌*◌, ◌^◌, IfSome, length, slice_index_or};
ghost use Rattle.card_layout.specs.Images.{bytes_at, number_at};
ghost use Rattle.unit_messages.specs.Parts.{within, counted_end, part_end, parts_end, most, most_of};

use byteorder::{BigEndian, ByteOrder};
use link_model::lengths::MESSAGE_HEADER;

/// A part of a message; each size is in bytes.
#[derive(Clone, Copy, Debug, PartialEq, Eq)]
pub enum Part {
    /// A field of this size.
    Field(u32),
    /// Entries of this size, behind their count in one byte.
    Few(u32),
    /// Entries of this size, behind their count in two bytes.
    Many(u32),
}

/// How many bytes stand before a message's first part: 76 and the number.
pub const HEADER: usize = MESSAGE_HEADER as usize;

/// Certificates of the state and the unit, vehicle, registration, the unit's time, the period's begin and end, the
/// slots' cards, the last download, locks, controls, signature.
pub const OVERVIEW_PARTS: [Part; 12] = [
    Part::Field(194),
    Part::Field(194),
    Part::Field(17),
    Part::Field(15),
    Part::Field(4),
    Part::Field(4),
    Part::Field(4),
    Part::Field(1),
    Part::Field(58),
    Part::Few(98),
    Part::Few(31),
    Part::Field(128),
];

/// Date, odometer, insertions, change words, places, conditions, signature.
pub const DAY_PARTS: [Part; 7] = [
    Part::Field(4),
    Part::Field(3),
    Part::Many(129),
    Part::Many(2),
    Part::Few(28),
    Part::Many(5),
    Part::Field(128),
];

/// Faults, events, the last control of over speeding, the first over speeding since and their number, over speedings,
/// adjustments of the time, signature.
pub const EVENT_PARTS: [Part; 8] = [
    Part::Few(82),
    Part::Few(83),
    Part::Field(4),
    Part::Field(4),
    Part::Field(1),
    Part::Few(31),
    Part::Few(98),
    Part::Field(128),
];

/// Blocks of speeds, signature.
pub const SPEED_PARTS: [Part; 2] = [Part::Many(64), Part::Field(128)];

/// The unit, its sensor, calibrations, signature.
pub const TECHNICAL_PARTS: [Part; 4] = [
    Part::Field(116),
    Part::Field(20),
    Part::Few(167),
    Part::Field(128),
];

/// The number in one byte.
fn one_in(bytes: &[u8], place: usize) -> u8
    requires { place < length bytes.now }
    ensures { result ≡ number_at bytes.now place 1 }
{
    bytes[place]
}

/// The number in two bytes, the highest first.
pub fn two_in(bytes: &[u8], place: usize) -> u16
    requires { place + 2 ≤ length bytes.now }
    ensures { result ≡ number_at bytes.now place 2 }
{
    BigEndian::read_u16(cut(bytes, place, 2))
}

/// The number in four bytes, the highest first.
pub fn four_in(bytes: &[u8], place: usize) -> u32
    requires { place + 4 ≤ length bytes.now }
    ensures { result ≡ number_at bytes.now place 4 }
{
    BigEndian::read_u32(cut(bytes, place, 4))
}

/// So many bytes from a place on.
pub fn cut(b: &[u8], place: usize, len: usize) -> &[u8]
    requires { place + len ≤ length b.now }
    ensures bytes { result.now ≡ bytes_at b.now place len }
    ensures len { length result.now ≡ len }
{
    &b[place..][..len]
}

/// An end that lies inside the bytes.
fn within(bytes: &[u8], end: usize) -> Option<usize>
    ensures end { result ≡ within bytes.now end }
    ensures inside { IfSome result (λ found. (found ≡ end) × (found ≤ length bytes.now)) }
{
    if end <= bytes.len() { Some(end) } else { None }
}

/// Where entries end whose count of one byte stands at a place.
fn few_end(bytes: &[u8], at: usize, size: u32) -> Option<usize>
    requires { at ≤ length bytes.now }
    ensures end { result ≡ counted_end bytes.now at 1 size }
    ensures inside { IfSome result (λ end. end ≤ length bytes.now) }
    ensures near { IfSome result (λ end. end ≤ at + 1 + 256 * size) }
{
    if at + 1 > bytes.len() {
        return None;
    }
    let count = one_in(bytes, at);
    within(bytes, at + 1 + count as usize * size as usize)
}

/// Where entries end whose count of two bytes stands at a place.
fn many_end(bytes: &[u8], at: usize, size: u32) -> Option<usize>
    requires { at ≤ length bytes.now }
    ensures end { result ≡ counted_end bytes.now at 2 size }
    ensures inside { IfSome result (λ end. end ≤ length bytes.now) }
    ensures near { IfSome result (λ end. end ≤ at + 2 + 65536 * size) }
{
    if at + 2 > bytes.len() {
        return None;
    }
    let count = two_in(bytes, at);
    within(bytes, at + 2 + count as usize * size as usize)
}

/// Where a part ends that begins at a place; `None` where the bytes end before it.
fn part_end(bytes: &[u8], at: usize, part: &Part) -> Option<usize>
    requires { at ≤ length bytes.now }
    ensures end { result ≡ part_end bytes.now at part.now }
    ensures inside { IfSome result (λ end. end ≤ length bytes.now) }
    ensures near { IfSome result (λ end. end ≤ at + most part.now) }
{
    match part {
        Part::Field(size) => within(bytes, at + *size as usize),
        Part::Few(size) => few_end(bytes, at, *size),
        Part::Many(size) => many_end(bytes, at, *size),
    }
}

/// The part at an index.
fn part_at(parts: &[Part], index: usize) -> Part
    requires { index < length parts.now }
    ensures { (d : Part) → result ≡ slice_index_or parts.now index d }
{
    parts[index]
}

/// Where the last of these parts ends, of which the first stands behind the number; `None` where the bytes end before
/// it.
pub fn parts_end(bytes: &[u8], parts: &[Part]) -> Option<usize>
    requires begun { 2 ≤ length bytes.now }
    requires small { 2 + most_of parts.now < 2 ^ 32 }
    ensures end { result ≡ parts_end bytes.now parts.now 2 }
    ensures near { IfSome result (λ end. end < 2 ^ 32) }
{
    let mut at = HEADER;
    for i in 0..parts.len() {
        let part = part_at(parts, i);
        match part_end(bytes, at, &part) {
            Some(end) => at = end,
            None => return None,
        }
    }
    Some(at)
}
