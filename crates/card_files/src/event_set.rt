//! The events of one type, by the bytes of their set.
ghost use Rattle.std.specs.Prelude.{◌≡◌, ◌≢◌, ◌↔◌, ◌<◌, ◌≤◌, ◌+◌, ◌*◌, ℕ, length, IsTrue};
ghost use Rattle.tach_media.specs.Medium.{bytes_at};
ghost use Rattle.gated_ring.specs.Ring.{number_at};
ghost use Rattle.card_files.specs.Noting.{IsEvent};
ghost use Rattle.gated_ring.specs.Earliest.{IsEarliest};

use crate::{CardEvent, read_event};
use byteorder::{BigEndian, ByteOrder};
use tacho_types::TimeReal;

/// Where the begin stands in an event.
pub const BEGIN: usize = 1;

/// The begin of an event of the set, by its index.
fn begin_of(set: &[u8], index: u32) -> u32
    requires { 24 * index + 24 ≤ length set.now }
    ensures { result ≡ number_at set.now (24 * index + 1) 4 }
{
    let place = CardEvent::SIZE * index as usize + BEGIN;
    BigEndian::read_u32(&set[place..place + TimeReal::SIZE])
}

/// The index of the first of the earliest events in the bytes of a set. An empty place has the begin 0.
pub fn earliest(set: &[u8], count: u32) -> u32
    requires some { 0 < count }
    requires len { 24 * count ≤ length set.now }
    ensures { IsEarliest count (λ j. number_at set.now (24 * j + 1) 4) result }
{
    let mut found = 0;
    let mut least = begin_of(set, 0);
    for index in 1..count {
        let begin = begin_of(set, index);
        if begin < least {
            found = index;
            least = begin;
        }
    }
    found
}

/// Whether these bytes are an event of a type with this begin.
fn is_event(bytes: &[u8], kind: u8, begin: TimeReal) -> bool
    requires len { length bytes.now ≡ 24 }
    requires some { begin.0 ≢ 0 }
    ensures { IsTrue result ↔ IsEvent kind begin.0 bytes.now }
{
    let event = read_event(bytes);
    event.kind == kind && event.begin.0 == begin.0
}

/// Whether an event of a type with this begin is there in the bytes of a set.
pub fn holds(set: &[u8], count: u32, kind: u8, begin: TimeReal) -> bool
    requires len { 24 * count ≤ length set.now }
    ensures { IsTrue result ↔ ((i : ℕ) × (i < count) × IsEvent kind begin.0 (bytes_at set.now (24 * i) 24)) }
{
    if begin.0 == 0 {
        return false;
    }
    for index in 0..count {
        let place = CardEvent::SIZE * index as usize;
        if is_event(&set[place..place + CardEvent::SIZE], kind, begin) {
            return true;
        }
    }
    false
}
