//! Events_Data: a set of events of each type.
ghost use Rattle.std.specs.Prelude.{◌≡◌, ◌≢◌, ◌≤◌, ◌<◌, ◌+◌, ◌*◌, ◌||◌, ◌==◌, ◌↔◌, length, IsTrue, IfOk, IfSome, OnOk};
ghost use Rattle.std.specs.Prelude.{is_err};
ghost use Rattle.card_layout.specs.Application.{IsApplication};
ghost use Rattle.card_layout.specs.Files.{place_of, size_of, image_size_of};
ghost use Rattle.tach_media.specs.Medium.{Reads, LeavesOnly, LiesInside, HasCause, IsSettled, last_count, bytes_at};
ghost use Rattle.card_files.specs.Rings.{file, set_of, set_size, event_ring};
ghost use Rattle.card_files.specs.Noting.{HoldsEvent, TakesPlace, IsNotingEvent, IsEventNoted};

use crate::event_set::{BEGIN, earliest, holds};
use crate::{CardEvent, file_of, write_event};
use card_layout::{Application, Fid};
use gated_ring::Ring;
use tach_media::{Failed, Medium};
use tacho_types::TimeReal;

/// The most events that a set has, and their bytes.
const MOST_EVENTS: usize = 12;

const MOST_BYTES: usize = MOST_EVENTS * CardEvent::SIZE;

/// How far behind the first set that of a type begins.
fn set_offset(app: &Application, kind: u8) -> u32
    requires { IsApplication app.now }
    ensures offset { result ≡ set_of kind * set_size app.now }
    ensures inside { result + 24 * app.now.events ≤ 144 * app.now.events }
{
    let size = CardEvent::SIZE as u32 * u32::from(app.events);
    match kind {
        0x03 => 0,
        0x05 => size,
        0x06 => 2 * size,
        0x08 => 3 * size,
        0x09 => 4 * size,
        _ => 5 * size,
    }
}

/// Where the set of a type begins.
fn set_place(app: &Application, kind: u8) -> u32
    requires { IsApplication app.now }
    ensures place { result ≡ (event_ring app.now kind).base }
    ensures image { result + 24 * app.now.events ≤ image_size_of app.now }
{
    let base = file_of(app, Fid::EVENTS).base;
    let offset = set_offset(app, kind);
    base + offset
}

/// The ring of a type's events, which has no pointer.
fn event_ring(app: &Application, kind: u8) -> Ring
    requires { IsApplication app.now }
    ensures { result ≡ event_ring app.now kind }
{
    let base = set_place(app, kind);
    let count = u32::from(app.events);
    let width = CardEvent::SIZE as u32;
    Ring::at(base, width, count, 0, BEGIN as u32)
}

/// Whether an event of a type with this begin is there: true exactly where one stands in the set of its type. The types
/// with a set of their own are 03, 05, 06, 08 and 09; all others are looked for among the security breach attempts
/// (Appendix 1, CardEventData).
///
/// # Errors
///
/// `Failed` where the medium failed.
pub fn has_event<M: Medium>(
    medium: &mut M,
    app: &Application,
    kind: u8,
    begin: TimeReal,
) -> Result<bool, Failed>
    requires sizes { IsApplication app.now }
    requires fits { image_size_of app.now ≤ (M.state medium.old).size }
    ensures there { IfOk result (λ there. IfSome (M.state medium.old).image (λ x. IsTrue there ↔ HoldsEvent app.now kind
        begin.0 x)) }
    ensures reads { Reads (M.state medium.old) (M.state medium.new) (is_err result) }
{
    let mut room = [0; MOST_BYTES];
    let count = u32::from(app.events);
    let set = &mut room[..CardEvent::SIZE * count as usize];
    medium.read_at(set_place(app, kind), set)?;
    Ok(holds(set, count, kind, begin))
}

/// The place that a new event of a type takes in its set.
fn choose<M: Medium>(medium: &mut M, app: &Application, kind: u8) -> Result<u32, Failed>
    requires sizes { IsApplication app.now }
    requires fits { image_size_of app.now ≤ (M.state medium.old).size }
    ensures takes { IfOk result (λ i. IfSome (M.state medium.old).image (λ x. TakesPlace (event_ring app.now kind) x
        i)) }
    ensures below { IfOk result (λ i. i < app.now.events) }
    ensures reads { Reads (M.state medium.old) (M.state medium.new) (is_err result) }
{
    let mut room = [0; MOST_BYTES];
    let count = u32::from(app.events);
    let set = &mut room[..CardEvent::SIZE * count as usize];
    medium.read_at(set_place(app, kind), set)?;
    Ok(earliest(set, count))
}

/// Notes an event in the set of its type: in an empty place, else in that of the earliest begin, then the lowest
/// (profile). A stop at a moment of the call leaves that place as it was, empty, or with the event; every other byte of
/// the card stays.
///
/// # Errors
///
/// `Failed` where the medium failed.
pub fn note_event<M: Medium>(
    medium: &mut M,
    app: &Application,
    event: &CardEvent,
) -> Result<(), Failed>
    requires sizes { IsApplication app.now }
    requires fits { image_size_of app.now ≤ (M.state medium.old).size }
    requires writable { LiesInside (M.state medium.old).writable (place_of app.now (file 0x0502))
        (size_of app.now (file 0x0502)) }
    requires kind { IsTrue (event.now.kind == 5 || event.now.kind == 6 || event.now.kind == 8) }
    requires begin { event.now.begin.0 ≢ 0 }
    ensures noted { OnOk result (IfSome (M.state medium.old).image
        (λ x. IfSome (M.state medium.new).image (IsEventNoted app.now event.now x))) }
    ensures moments { LeavesOnly (M.state medium.old) (M.state medium.new) (IsNotingEvent app.now event.now) }
    ensures settled { OnOk result ((M.state medium.new).clock < last_count → IsSettled (M.state medium.new)) }
    ensures cause { HasCause (M.state medium.old) (M.state medium.new) (is_err result) }
    ensures most { (M.state medium.new).clock ≤ (M.state medium.old).clock + 4 }
{
    let index = choose(medium, app, event.kind)?;
    let mut bytes = [0; CardEvent::SIZE];
    write_event(event, &mut bytes);
    event_ring(app, event.kind).put_at(medium, index, &bytes)
}
