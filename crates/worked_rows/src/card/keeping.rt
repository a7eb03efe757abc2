ghost use Rattle.std.specs.Prelude.{◌≡◌, ◌≤◌, ◌<◌, ◌/◌, ◌^◌, None, IfOk};
ghost use Rattle.card_commands.specs.Ports.{IsPort};
ghost use Rattle.card_image.specs.Fields.{day_string, last_use_of};
ghost use Rattle.card_validity.specs.Judged.{IsSized};
ghost use Rattle.card_layout.specs.Application.{IsApplication};
ghost use Rattle.card_session.specs.Inserting.{AreOwed};
ghost use Rattle.card_session.specs.declared.words.TheConstants.{LATEST_MINUTE};

use crate::card::counted::Counted;
use activity_codec::{Activity, Entry, Owed, Slot};
use card_commands::{Port, PortFault, SimCard, read_sizes};
use card_days::Days;
use card_files::Vehicle;
use card_layout::{Application, LARGEST_IMAGE};
use card_session::{CardSession, Kept, LATEST_MINUTE};
use card_validity::{InsertFault, Judged, judge};
use std::alloc::Global;
use tach_media::{Chip, Failed, MemMedium, Memory};
use tacho_types::{Odometer, Registration, TimeReal};
use worked_media::{Room, card_with};

/// 2010-03-01 01:00, work in the driver's slot.
const MARCH: Kept = Kept {
    entry: Entry {
        minute: 21123420,
        slot: Slot::Driver,
        crew: false,
        act: Activity::Work,
    },
    odometer: Odometer(7),
};

/// An entry of a vehicle that is first used at a time, and last at the sixth minute of the newest day of a full card.
pub const VEHICLE: [u8; 31] = [
    0, 0, 0, 0, 0, 0, 0x4B, 0x8B, 0x03, 0x80, 2, 10, 19, 44, 0, 0, 0, 0, 0, 0, 0, 0, 0, 0, 0, 0, 0,
    0, 0, 0, 9,
];

/// Another vehicle.
const REGISTRATION: Registration = Registration(*b"\x0D\x01DEMO         ");

/// A card could not be reached, or was not accepted.
#[derive(Clone, Copy, Debug, PartialEq, Eq)]
pub struct Stopped;

impl From<Failed> for Stopped {
    ghost from_gives = { λ _ _. Unit {0} };

    fn from(_fault: Failed) -> Stopped {
        Stopped
    }
}

impl From<PortFault> for Stopped {
    ghost from_gives = { λ _ _. Unit {0} };

    fn from(_fault: PortFault) -> Stopped {
        Stopped
    }
}

impl From<InsertFault> for Stopped {
    ghost from_gives = { λ _ _. Unit {0} };

    fn from(_fault: InsertFault) -> Stopped {
        Stopped
    }
}

/// How many commands a card was sent for a call, and how many writes it began.
#[derive(Clone, Copy, Debug, PartialEq, Eq)]
pub struct Figures {
    pub commands: u64,
    pub writes: u64,
}

impl Figures {
    // So many commands and writes so far.
    fn of<C: Chip>(card: &Counted<C>) -> Figures {
        Figures {
            commands: card.commands(),
            writes: card.clock(),
        }
    }

    // The commands and writes since then.
    fn since<C: Chip>(self, card: &Counted<C>) -> Figures {
        Figures {
            commands: card.commands().saturating_sub(self.commands),
            writes: card.clock().saturating_sub(self.writes),
        }
    }
}

/// Room for the writes of an insertion.
const ROOM: Room = Room {
    writes: 2048,
    bytes: 16384,
};

/// A card in memory with this image.
pub fn card(alloc: Global, image: Vec<u8>) -> Result<Counted<SimCard<MemMedium>>, Memory> {
    let card = card_with(alloc, image, ROOM, Vec::new(alloc))?;
    Ok(Counted::new(card))
}

// Judges a card through a port of its own. It gives the sizes too.
fn open<C: Chip>(card: &mut C) -> Result<(Application, Judged), Stopped>
    requires { LARGEST_IMAGE ≤ (C.state card.old).size }
    ensures port { IfOk result (λ opened. IsPort opened.0 None (C.card card.new) (C.state card.new)) }
    ensures sized { IfOk result (λ opened. IsSized opened.0 opened.1) }
{
    let application = read_sizes(&mut *card)?;
    let mut port = Port::new(&mut *card, application);
    let judged = judge(&mut port, &application)?;
    Ok((application, judged))
}

// Adds a word to the newest day of a card that was judged.
fn add_word<C: Chip>(
    card: &mut C,
    application: Application,
    days: &mut Days,
    word: u16,
) -> Result<(), Stopped>
    requires port { IsPort application None (C.card card.old) (C.state card.old) }
    requires days { days.old.shape ≡ day_string application }
{
    let mut port = Port::resume(&mut *card, application);
    Ok(days.add_change(&mut port, word)?)
}

// A session over a card that was judged, in another vehicle.
fn session(application: Application, judged: Judged) -> Result<CardSession, Stopped>
    requires good { IsApplication application }
    requires sized { IsSized application judged }
    ensures { IfOk result (λ session. session.application ≡ application) }
{
    if last_use(&judged.vehicle) / 60 > LATEST_MINUTE {
        return Err(Stopped);
    }
    Ok(CardSession::over(
        application,
        judged.days,
        judged.vehicles,
        judged.newest,
        judged.vehicle,
        REGISTRATION,
    ))
}

// When a vehicle was last used; 0 without one.
fn last_use(vehicle: &Option<Vehicle>) -> u32
    ensures { result ≡ last_use_of vehicle.now }
{
    match vehicle {
        None => 0,
        Some(vehicle) => vehicle.last_use.0,
    }
}

// Keeps a minute on the card of a session.
fn keep<C: Chip>(
    card: &mut C,
    application: Application,
    session: &mut CardSession,
    kept: &Kept,
) -> Result<(), Stopped>
    requires port { IsPort application None (C.card card.old) (C.state card.old) }
    requires sizes { session.old.application ≡ application }
    requires later { session.old.minute < kept.now.entry.minute }
    requires first { 1440 ≤ kept.now.entry.minute }
    requires last { kept.now.entry.minute ≤ LATEST_MINUTE }
    requires fits { kept.now.odometer.0 < 2 ^ 24 }
{
    let mut port = Port::resume(&mut *card, application);
    Ok(session.keep(&mut port, kept)?)
}

// Inserts a card in another vehicle.
fn insert<C: Chip>(card: &mut C, now: u32, owed: &Owed) -> Result<u8, Stopped>
    requires size { LARGEST_IMAGE ≤ (C.state card.old).size }
    requires some { 1 ≤ now }
    requires last { now / 60 < LATEST_MINUTE }
    requires owed { AreOwed now owed.now.items }
{
    let application = read_sizes(&mut *card)?;
    let mut port = Port::new(&mut *card, application);
    let now = TimeReal(now);
    let odometer = Odometer(7);
    let inserted = CardSession::insert(
        &mut port,
        &application,
        now,
        &REGISTRATION,
        odometer,
        owed,
    )?;
    Ok(inserted.replayed)
}

/// A word on the newest day of a card.
pub fn word<C: Chip>(card: &mut Counted<C>) -> Result<Figures, Stopped>
    requires { LARGEST_IMAGE ≤ (C.state card.old.chip).size }
{
    let (application, judged) = open(&mut *card)?;
    let mut days = judged.days;
    let before = Figures::of(card);
    add_word(&mut *card, application, &mut days, 0x1805)?;
    Ok(before.since(card))
}

/// A minute that begins a day: a word that closes a gap, the day, its distance, and a vehicle.
pub fn new_day<C: Chip>(card: &mut Counted<C>) -> Result<Figures, Stopped>
    requires { LARGEST_IMAGE ≤ (C.state card.old.chip).size }
{
    let (application, judged) = open(&mut *card)?;
    let mut session = session(application, judged)?;
    if session.newest_minute() >= MARCH.entry.minute {
        return Err(Stopped);
    }
    let before = Figures::of(card);
    keep(&mut *card, application, &mut session, &MARCH)?;
    Ok(before.since(card))
}

/// An insertion of a card, and how many owed entries it replays.
pub fn insertion<C: Chip>(
    card: &mut Counted<C>,
    now: u32,
    owed: &Owed,
) -> Result<(Figures, u8), Stopped>
    requires size { LARGEST_IMAGE ≤ (C.state card.old.chip).size }
    requires some { 1 ≤ now }
    requires last { now / 60 < LATEST_MINUTE }
    requires owed { AreOwed now owed.now.items }
{
    let before = Figures::of(card);
    let replayed = insert(&mut *card, now, owed)?;
    Ok((before.since(card), replayed))
}
