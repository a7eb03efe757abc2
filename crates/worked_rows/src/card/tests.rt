ghost use Rattle.std.specs.Prelude.{◌≡◌, ℕ, ◌<◌, ◌≤◌, ◌+◌, ◌*◌, ◌/◌, ◌%◌, IfSome};
ghost use Rattle.card_session.specs.Inserting.{AreOwed};
ghost use Rattle.card_layout.specs.Application.{IsApplication};
ghost use Rattle.card_layout.specs.Files.{image_size_of};
ghost use Rattle.card_commands.specs.Ports.{writable_of};
ghost use Rattle.tach_media.specs.Medium.{LiesInside};

use crate::card::images::{blank, full, largest, most_days, two_days};
use crate::card::keeping::{Figures, Stopped, VEHICLE, card, insertion, new_day, word};
use activity_codec::{Activity, Entry, Owed, Slot};
use card_commands::Port;
use card_days::{Days, DaysFault};
use card_files::file_range;
use card_layout::{Application, Fid, LARGEST_IMAGE, Range};
use gated_ring::{Ring, RingFault};
use std::alloc::Global;
use std::process::Abort;
use std::test::Fail;
use tach_media::{Chip, Medium};
use tacho_types::TimeReal;
use worked_media::{Room, T0, card_with};

// The room of a card's log.
const ROOM: Room = Room {
    writes: 64,
    bytes: 1024,
};

// Begins a day, and adds a word: where the newest day stands, and how many words it has.
fn day_in<M: Medium>(medium: &mut M, range: Range) -> Result<Option<(u32, u16)>, DaysFault>
    requires inside { range.base + range.len ≤ (M.state medium.old).size }
    requires writable { LiesInside (M.state medium.old).writable range.base range.len }
    requires even { range.len % 2 ≡ 0 }
    requires low { 5548 ≤ range.len }
    requires high { range.len ≤ 13780 }
{
    let mut days = Days::load(medium, range)?;
    days.begin_day(medium, TimeReal(T0), &[0])?;
    days.add_change(medium, 0x1805)?;
    let last = days.last(medium)?;
    Ok(last.map(|day| (day.place, day.words)))
}

// The file of days on a card of these sizes.
fn file_of_days(app: &Application) -> Option<Range>
    requires { IsApplication app.now }
    ensures inside { IfSome result (λ r. r.base + r.len ≤ image_size_of app.now) }
    ensures writable { IfSome result (λ r. LiesInside (writable_of app.now) r.base r.len) }
    ensures even { IfSome result (λ r. r.len % 2 ≡ 0) }
    ensures low { IfSome result (λ r. 5548 ≤ r.len) }
    ensures high { IfSome result (λ r. r.len ≤ 13780) }
{
    file_range(app, Fid::ACTIVITY)
}

// The same on a card, through a port.
fn day_on<C: Chip>(card: &mut C) -> Result<Option<(u32, u16)>, Fail>
    requires { LARGEST_IMAGE ≤ (C.state card.old).size }
{
    let mut port = Port::load(&mut *card)?;
    let Some(range) = file_of_days(&port.application()) else {
        return Err(Fail::from("no days"));
    };
    Ok(day_in(&mut port, range)?)
}

#[test]
fn a_day_through_a_port(rt: HostRuntime) -> Result<(), Fail> {
    let alloc = rt.alloc();
    let mut card = card_with(alloc, blank(alloc)?, ROOM, Vec::new(alloc))?;
    assert_eq!(rt; day_on(&mut card)?, Some((0, 2)));
    Ok(())
}

// Adds an entry: the newest one then, and its last byte.
fn entry_in<M: Medium>(
    medium: &mut M,
    base: u32,
    count: u32,
) -> Result<(Option<u32>, u8), RingFault>
    requires inside { base + (2 + 31 * count) ≤ (M.state medium.old).size }
    requires writable { LiesInside (M.state medium.old).writable base (2 + 31 * count) }
    requires some { 84 ≤ count }
    requires few { count ≤ 200 }
{
    let mut ring = Ring::load(medium, base, 31, count, 2, 6)?;
    ring.add(medium, &VEHICLE)?;
    let newest = ring.newest(medium)?;
    let mut out = [0; 31];
    if let Some(index) = newest {
        ring.entry(medium, index, &mut out)?;
    }
    Ok((newest, out[30]))
}

// The file of vehicles on a card of these sizes.
fn file_of_vehicles(app: &Application) -> Option<Range>
    requires { IsApplication app.now }
    ensures inside { IfSome result (λ r. r.base + (2 + 31 * app.now.vehicles) ≤ image_size_of app.now) }
    ensures writable { IfSome result (λ r. LiesInside (writable_of app.now) r.base (2 + 31 * app.now.vehicles)) }
{
    file_range(app, Fid::VEHICLES)
}

// The same on a card, through a port.
fn entry_on<C: Chip>(card: &mut C) -> Result<(Option<u32>, u8), Fail>
    requires { LARGEST_IMAGE ≤ (C.state card.old).size }
{
    let mut port = Port::load(&mut *card)?;
    let app = port.application();
    let Some(range) = file_of_vehicles(&app) else {
        return Err(Fail::from("no vehicles"));
    };
    Ok(entry_in(&mut port, range.base, app.vehicles as u32)?)
}

#[test]
fn an_entry_through_a_port(rt: HostRuntime) -> Result<(), Fail> {
    let alloc = rt.alloc();
    let mut card = card_with(alloc, blank(alloc)?, ROOM, Vec::new(alloc))?;
    assert_eq!(rt; entry_on(&mut card)?, (Some(0), 9));
    Ok(())
}

// A minute takes at most this many commands, and this many writes.
const MOST_COMMANDS: u64 = 60;

const MOST_WRITES: u64 = 17;

// What a minute that begins a day takes of a card with this image.
fn figures(alloc: Global, image: Vec<u8>) -> Result<Figures, Fail> {
    let mut card = card(alloc, image)?;
    if card.size() < LARGEST_IMAGE {
        return Err(Fail::from("no card"));
    }
    match new_day(&mut card) {
        Ok(figures) => Ok(figures),
        Err(Stopped) => Err(Fail::from("stopped")),
    }
}

// That it takes few.
fn takes_few(rt: &(impl Abort + AllocGlobal), image: Vec<u8>) -> Result<(), Fail> {
    let figures = figures(rt.alloc(), image)?;
    assert!(rt; figures.commands <= MOST_COMMANDS, "{figures:?}");
    assert!(rt; figures.writes <= MOST_WRITES, "{figures:?}");
    Ok(())
}

#[test]
fn a_minute_takes_few_commands(rt: HostRuntime) -> Result<(), Fail> {
    let alloc = rt.alloc();
    takes_few(&rt, two_days(alloc)?)?;
    takes_few(&rt, full(alloc, 0)?)?;
    takes_few(&rt, full(alloc, 12)?)
}

// What a word takes of a card with this image.
fn figures_of_a_word(alloc: Global, image: Vec<u8>) -> Result<Figures, Fail> {
    let mut card = card(alloc, image)?;
    if card.size() < LARGEST_IMAGE {
        return Err(Fail::from("no card"));
    }
    match word(&mut card) {
        Ok(figures) => Ok(figures),
        Err(Stopped) => Err(Fail::from("stopped")),
    }
}

#[test]
fn a_word_reads_nothing_where_there_is_room(rt: HostRuntime) -> Result<(), Fail> {
    let alloc = rt.alloc();
    let figures = figures_of_a_word(alloc, two_days(alloc)?)?;
    // the directory and the file are selected, and two writes
    assert_eq!(rt; (figures.commands, figures.writes), (4, 2));
    Ok(())
}

// An insertion of the largest full card takes at most this many commands.
const MOST_AT_INSERTION: u64 = 1500;

// The day after that of the largest card's newest day, from its first minute on: the states change.
const AFTER: u32 = 779 * 1440;

// An entry that many minutes into it.
fn owed_at(minute: u32) -> Entry
    requires { minute < 1440 }
    ensures { result.minute ≡ 1121760 + minute }
{
    let act = if minute % 2 == 0 {
        Activity::Work
    } else {
        Activity::Driving
    };
    Entry {
        minute: AFTER + minute,
        slot: Slot::Driver,
        crew: false,
        act,
    }
}

// Four of them.
fn four() -> Owed
    ensures { (now : ℕ) → 1121764 < now / 60 → AreOwed now result.items }
{
    let first = owed_at(1);
    let second = owed_at(2);
    let third = owed_at(3);
    let last = owed_at(4);
    Owed::from([first, second, third, last])
}

// What an insertion takes of a card with this image, with four owed entries.
fn inserted(alloc: Global, image: Vec<u8>) -> Result<Figures, Fail> {
    let mut card = card(alloc, image)?;
    if card.size() < LARGEST_IMAGE {
        return Err(Fail::from("no card"));
    }
    let owed = four();
    match insertion(&mut card, 60 * (AFTER + 10), &owed) {
        Ok((figures, 4)) => Ok(figures),
        Ok(_) => Err(Fail::from("replayed")),
        Err(Stopped) => Err(Fail::from("stopped")),
    }
}

// That it takes few commands.
fn is_inserted_by_few(rt: &(impl Abort + AllocGlobal), image: Vec<u8>) -> Result<(), Fail> {
    let figures = inserted(rt.alloc(), image)?;
    assert!(rt; figures.commands <= MOST_AT_INSERTION, "{figures:?}");
    Ok(())
}

#[test]
fn an_insertion_takes_few_commands(rt: HostRuntime) -> Result<(), Fail> {
    let alloc = rt.alloc();
    // in the first minute of its newest day, in its middle, and in the last one, up to which each minute has a word
    let newest = AFTER - 1440;
    is_inserted_by_few(&rt, largest(alloc, 60 * newest)?)?;
    is_inserted_by_few(&rt, largest(alloc, 60 * (newest + 720))?)?;
    is_inserted_by_few(&rt, largest(alloc, 60 * (newest + 1439))?)
}

#[test]
fn an_insertion_reads_the_days_that_go_in_blocks(rt: HostRuntime) -> Result<(), Fail> {
    let alloc = rt.alloc();
    // 400 days go, all 778 of them, and 984, the most that a string holds
    let newest = AFTER - 1440;
    is_inserted_by_few(&rt, largest(alloc, 60 * (newest - 400 * 1440))?)?;
    is_inserted_by_few(&rt, largest(alloc, 60 * 1439)?)?;
    is_inserted_by_few(&rt, most_days(alloc, 60 * 1439)?)
}
