//! A drive with a card over memory, step by step: three minutes, a minute that is owed to the card, its replay, and a
//! withdrawal.
ghost use Rattle.std.specs.Prelude.{◌≡◌, ◌≤◌, ◌<◌, ◌+◌, ◌/◌, ◌^◌, None, IfOk, IfSome, OnOk};
ghost use Rattle.tacho_types.specs.CardNumber.{card_number_bytes};
ghost use Rattle.tach_media.specs.MemMedium.{memory_state};
ghost use Rattle.card_commands.specs.Ports.{IsPort};
ghost use Rattle.card_validity.specs.Judged.{TellsSizes};
ghost use Rattle.card_session.specs.declared.words.TheConstants.{LATEST_MINUTE};
ghost use Rattle.unit_model.specs.Image.{IsUnit};
ghost use Rattle.unit_minutes.specs.Image.{Agrees};
ghost use Rattle.unit_owed.specs.Rows.{IsRowAt};
ghost use Rattle.device_calls.specs.Calls.{HasRowAt, UnitIsReady, UnitStandsOwing};

use crate::card::keeping::Stopped;
use activity_codec::{Activity, Entry, Pick, Slot};
use card_commands::read_sizes;
use card_layout::{Application, LARGEST_IMAGE};
use card_session::{CardSession, Kept};
use device_calls::{
    CardInsertion, NewRow, NotEntered, OwedEntry, begin, commit, enter, keep_on_card, leave, mend,
    owe,
};
use hand_model::Held;
use std::alloc::Global;
use std::rt::HostRuntime;
use std::test::Fail;
use tach_media::{Chip, Failed, Medium, MemMedium};
use tacho_types::{FullCardNumber, Odometer, Registration, TimeReal};
use trace_model::Card;
use unit_minutes::{Journal, KeptMinute, State};
use worked_media::{
    DAYS, M0, NUMBER_A, Room, T0, UNCLOSED, Untold, VEHICLES, bytes, new_card, new_unit, unit_tells,
};

/// Where the current use of the largest card stands.
const CURRENT_USE: u32 = 24026;

/// The room of each device's log.
const ROOM: Room = Room {
    writes: 400,
    bytes: 40000,
};

const REGISTRATION: Registration = Registration(*b"\x0D\x01DEMO         ");

impl From<NotEntered> for Stopped {
    ghost from_gives = { λ _ _. Unit {0} };

    fn from(_fault: NotEntered) -> Stopped {
        Stopped
    }
}

/// A card in its slot: the unit's journal, the sizes by which the card goes, its number and its row, its session, and
/// how many entries were put on it as it came in.
#[derive(Drop)]
struct Drive {
    journal: Journal,
    app: Application,
    number: FullCardNumber,
    row: u32,
    session: CardSession,
    held: Held,
    replayed: u8,
}

/// A minute of the drive: what is done, whether the card is present, and whether it keeps its entry.
#[derive(Clone, Copy)]
struct Step {
    minute: u32,
    act: Activity,
    present: bool,
    keeps: bool,
    odometer: u32,
}

impl Step {
    /// A minute in which the card is present, and keeps its entry.
    fn new(minute: u32, act: Activity, odometer: u32) -> Step
        ensures minute { result.minute ≡ minute }
        ensures odometer { result.odometer ≡ odometer }
    {
        Step {
            minute,
            act,
            present: true,
            keeps: true,
            odometer,
        }
    }

    /// The entry of the card.
    fn entry(&self) -> Entry
        ensures { result.minute ≡ self.now.minute }
    {
        Entry {
            minute: self.minute,
            slot: Slot::Driver,
            crew: false,
            act: self.act,
        }
    }

    /// What the minute says on the card: its entry, where the card is present.
    fn said(&self) -> Option<Entry> {
        if self.present {
            Some(self.entry())
        } else {
            None
        }
    }

    /// The minute of the unit.
    fn kept(&self) -> KeptMinute
        ensures minute { result.minute ≡ self.now.minute }
        ensures odometer { result.odometer.0 ≡ self.now.odometer }
    {
        KeptMinute {
            minute: self.minute,
            driver: State {
                act: self.act,
                present: self.present,
            },
            codriver: State {
                act: Activity::Rest,
                present: false,
            },
            odometer: Odometer(self.odometer),
        }
    }
}

// The sizes of a card.
fn sizes_of<C: Chip>(card: &mut C) -> Result<Application, Stopped>
    requires { LARGEST_IMAGE ≤ (C.state card.old).size }
    ensures port { IfOk result (λ app. IsPort app None (C.card card.new) (C.state card.new)) }
    ensures told { IfOk result (λ app. IfSome (C.state card.new).image (TellsSizes app)) }
{
    let app = read_sizes(card)?;
    Ok(app)
}

// The journal of a unit that was found, and is mended.
fn journal_of<M: Medium, C: Chip, D: Chip>(
    unit: &mut M,
    card: &C,
    other: &D,
) -> Result<Journal, Stopped>
    requires { IsUnit (M.state unit.old) }
    ensures unit { IsUnit (M.state unit.new) }
    ensures agrees { IfOk result (λ j. IfSome (M.state unit.new).image (Agrees j)) }
{
    match Journal::load(unit) {
        Err(_) => Err(Stopped),
        Ok(mut journal) => {
            mend(unit, &mut journal, card, other)?;
            Ok(journal)
        }
    }
}

// Puts the card in at a second whose minute is later than the last-kept one.
fn put_in<M: Medium, C: Chip, D: Chip>(
    unit: &mut M,
    card: &mut C,
    other: &D,
    second: u32,
    odometer: u32,
) -> Result<Drive, Stopped>
    requires unit { IsUnit (M.state unit.old) }
    requires card { LARGEST_IMAGE ≤ (C.state card.old).size }
    requires last { second / 60 < LATEST_MINUTE }
    requires fits { odometer < 2 ^ 24 }
    ensures unit { IsUnit (M.state unit.new) }
    ensures agrees { IfOk result (λ d. IfSome (M.state unit.new).image (Agrees d.journal)) }
    ensures row { IfOk result (λ d. (d.row < 8)
        × IfSome (M.state unit.new).image (IsRowAt d.row (card_number_bytes d.number))) }
    ensures port { IfOk result (λ d. IsPort d.app None (C.card card.new) (C.state card.new)) }
    ensures sizes { IfOk result (λ d. d.session.application ≡ d.app) }
{
    let app = sizes_of(card)?;
    let mut journal = journal_of(unit, card, other)?;
    if second == 0 || second / 60 <= journal.last_kept() {
        return Err(Stopped);
    }
    let insertion = CardInsertion {
        app,
        time: TimeReal(second),
        registration: REGISTRATION,
        odometer: Odometer(odometer),
        spared: None,
    };
    let entered = enter(unit, &journal, card, other, Card::A, insertion)?;
    let number = entered.look.number;
    let row = entered.row;
    let new_row = NewRow {
        number,
        session: second,
        index: row,
        spared: None,
    };
    begin(unit, &mut journal, card, other, Card::A, new_row)?;
    Ok(Drive {
        journal,
        app,
        number,
        row,
        session: entered.session,
        held: Held::new(second / 60),
        replayed: entered.replayed,
    })
}

// The card is owed what a minute says on it.
fn owe_to<M: Medium, C: Chip, D: Chip>(
    drive: &mut Drive,
    unit: &mut M,
    card: &C,
    other: &D,
    said: Option<Entry>,
) -> Result<(), Failed>
    requires ready { UnitIsReady drive.old.journal (M.state unit.old) }
    requires row { HasRowAt drive.old.row (card_number_bytes drive.old.number) (M.state unit.old) }
    ensures same { (drive.new.number ≡ drive.old.number) × (drive.new.row ≡ drive.old.row)
        × (drive.new.app ≡ drive.old.app) × (drive.new.session ≡ drive.old.session) }
    ensures stands { UnitStandsOwing result drive.old.journal drive.new.journal (M.state unit.old) (M.state unit.new) }
{
    match said {
        None => Ok(()),
        Some(entry) => {
            let owed = OwedEntry {
                number: drive.number,
                row: drive.row,
                entry,
            };
            owe(unit, &mut drive.journal, card, other, Card::A, owed)
        }
    }
}

// Keeps a minute on the unit, behind the entry that it owes to the card, and on the card if it is there.
fn keep<M: Medium, C: Chip, D: Chip>(
    drive: &mut Drive,
    unit: &mut M,
    card: &mut C,
    other: &D,
    step: &Step,
) -> Result<(), Stopped>
    requires unit { IsUnit (M.state unit.old) }
    requires agrees { IfSome (M.state unit.old).image (Agrees drive.old.journal) }
    requires row { (drive.old.row < 8)
        × IfSome (M.state unit.old).image (IsRowAt drive.old.row (card_number_bytes drive.old.number)) }
    requires port { IsPort drive.old.app None (C.card card.old) (C.state card.old) }
    requires sizes { drive.old.session.application ≡ drive.old.app }
    requires low { 1440 ≤ step.now.minute }
    requires small { step.now.minute ≤ LATEST_MINUTE }
    requires odometer { step.now.odometer ≤ 9999999 }
    ensures unit { IsUnit (M.state unit.new) }
    ensures agrees { OnOk result (IfSome (M.state unit.new).image (Agrees drive.new.journal)) }
    ensures row { OnOk result ((drive.new.row < 8)
        × IfSome (M.state unit.new).image (IsRowAt drive.new.row (card_number_bytes drive.new.number))) }
    ensures port { OnOk result (IsPort drive.new.app None (C.card card.new) (C.state card.new)) }
    ensures sizes { OnOk result (drive.new.session.application ≡ drive.new.app) }
{
    let minute = step.kept();
    if minute.minute <= drive.journal.last_kept() {
        return Err(Stopped);
    }
    owe_to(drive, unit, card, other, step.said())?;
    commit(unit, &mut drive.journal, card, other, &minute)?;
    if step.keeps {
        bring(drive, unit, card, step)?;
    }
    Ok(())
}

// Keeps the entry of a minute on the card.
fn bring<M: Medium, C: Chip>(
    drive: &mut Drive,
    unit: &M,
    card: &mut C,
    step: &Step,
) -> Result<(), Stopped>
    requires port { IsPort drive.old.app None (C.card card.old) (C.state card.old) }
    requires sizes { drive.old.session.application ≡ drive.old.app }
    requires low { 1440 ≤ step.now.minute }
    requires small { step.now.minute ≤ LATEST_MINUTE }
    requires odometer { step.now.odometer ≤ 9999999 }
    ensures same { (drive.new.journal ≡ drive.old.journal) × (drive.new.number ≡ drive.old.number)
        × (drive.new.row ≡ drive.old.row) × (drive.new.app ≡ drive.old.app) }
    ensures port { IsPort drive.old.app None (C.card card.new) (C.state card.new) }
    ensures sizes { drive.new.session.application ≡ drive.old.app }
{
    let kept = Kept {
        entry: step.entry(),
        odometer: Odometer(step.odometer),
    };
    if kept.entry.minute <= drive.session.newest_minute() {
        return Err(Stopped);
    }
    let [] = drive.held.entries() else {
        return Err(Stopped);
    };
    keep_on_card(
        unit,
        card,
        drive.app,
        &mut drive.session,
        &mut drive.held,
        &kept,
    )?;
    Ok(())
}

// Takes the card out.
fn take_out<M: Medium, C: Chip>(drive: Drive, unit: &M, card: &mut C) -> Result<(), Stopped>
    requires port { IsPort drive.app None (C.card card.old) (C.state card.old) }
    requires sizes { drive.session.application ≡ drive.app }
{
    leave(unit, card, drive.app, drive.session, Card::A, Pick::Rest)?;
    Ok(())
}

// The drive: three minutes; one that the card is owed, since it is torn out; it comes in again two minutes later, keeps
// one more minute and is taken out. It gives how many entries were put on the card as it came in, each time.
fn drives<M: Medium, C: Chip, D: Chip>(
    unit: &mut M,
    card: &mut C,
    other: &D,
) -> Result<(u8, u8), Stopped>
    requires unit { IsUnit (M.state unit.old) }
    requires card { LARGEST_IMAGE ≤ (C.state card.old).size }
    ensures { IsUnit (M.state unit.new) }
{
    let mut drive = put_in(unit, card, other, T0, 100)?;
    let first = drive.replayed;
    let work = Step::new(M0, Activity::Work, 100);
    let driving = Step::new(M0 + 1, Activity::Driving, 101);
    let rest = Step::new(M0 + 2, Activity::Rest, 102);
    let mut torn = Step::new(M0 + 3, Activity::Work, 103);
    torn.keeps = false;
    keep(&mut drive, unit, card, other, &work)?;
    keep(&mut drive, unit, card, other, &driving)?;
    keep(&mut drive, unit, card, other, &rest)?;
    keep(&mut drive, unit, card, other, &torn)?;
    let again = comes_back(unit, card, other)?;
    Ok((first, again))
}

// The card comes in again, keeps a minute, and is taken out.
fn comes_back<M: Medium, C: Chip, D: Chip>(
    unit: &mut M,
    card: &mut C,
    other: &D,
) -> Result<u8, Stopped>
    requires unit { IsUnit (M.state unit.old) }
    requires card { LARGEST_IMAGE ≤ (C.state card.old).size }
    ensures { IsUnit (M.state unit.new) }
{
    let mut drive = put_in(unit, card, other, T0 + 300, 103)?;
    let replayed = drive.replayed;
    let mut without = Step::new(M0 + 4, Activity::Rest, 103);
    without.present = false;
    without.keeps = false;
    let waiting = Step::new(M0 + 5, Activity::Available, 104);
    keep(&mut drive, unit, card, other, &without)?;
    keep(&mut drive, unit, card, other, &waiting)?;
    take_out(drive, unit, card)?;
    Ok(replayed)
}

// What a card holds: its pointers and its first day, its newest vehicle, its current use, and the first session that
// was not closed.
#[derive(Clone, Copy)]
struct OnCard {
    days: [u8; 30],
    vehicle: [u8; 16],
    current_use: [u8; 4],
    unclosed: [u8; 9],
}

fn on_card(image: &mut MemMedium) -> Result<OnCard, Untold> {
    let days: [u8; 30] = bytes(&mut *image, DAYS)?;
    let vehicle: [u8; 16] = bytes(&mut *image, VEHICLES)?;
    let current_use: [u8; 4] = bytes(&mut *image, CURRENT_USE)?;
    let unclosed: [u8; 9] = bytes(image, UNCLOSED)?;
    Ok(OnCard {
        days,
        vehicle,
        current_use,
        unclosed,
    })
}

// The drive with a new card on a unit: what it gives, and what the card holds then.
fn driven_with_a_card(alloc: Global, unit: &mut MemMedium) -> Result<((u8, u8), OnCard), Fail>
    requires { IsUnit (memory_state unit.old.log unit.old.counts) }
    ensures { IsUnit (memory_state unit.new.log unit.new.counts) }
{
    let mut card = new_card(alloc, NUMBER_A, ROOM, Vec::new(alloc))?;
    let other = new_card(alloc, NUMBER_A, ROOM, Vec::new(alloc))?;
    let put = drives(unit, &mut card, &other)?;
    let mut image = card.into_medium();
    Ok((put, on_card(&mut image)?))
}

// The same on a new unit, and whether that tells the last minute then, and these words of the day.
fn driven(alloc: Global, words: &[u16]) -> Result<((u8, u8), OnCard, bool), Fail> {
    let mut unit = new_unit(alloc, 90, ROOM, Vec::new(alloc))?;
    let (put, card) = driven_with_a_card(alloc, &mut unit)?;
    let is_told = unit_tells(alloc, &mut unit, T0, M0 + 5, words)?;
    Ok((put, card, is_told))
}

#[test]
fn a_drive_is_on_the_unit_and_the_card(rt: HostRuntime) -> Result<(), Fail> {
    // each minute with its card, the one without it, and the other slot's rest
    let words = [0x1000u16, 0xA000, 0x1801, 0x0002, 0x1003, 0x2004, 0x0805];
    let (put, card, is_told) = driven(rt.alloc(), &words)?;
    assert!(rt; is_told);
    // nothing is owed to a new card; the torn-out minute is owed to it, and is put on it as it comes back
    assert_eq!(rt; put, (0, 1));
    // the pointers, and one day: 26 bytes, 2010-03-01, counter 1, 2 km, and the words with those that close
    let kept = [
        0, 0, 0, 0, 0, 0, 0, 26, 0x4B, 0x8B, 0x03, 0x80, 0, 1, 0, 2, 0x10, 0x00, 0x18, 0x01, 0x00,
        0x02, 0x10, 0x03, 0x20, 0x04, 0x08, 0x05, 0x20, 0x06,
    ];
    assert_eq!(rt; card.days, kept);
    // one vehicle: 100 to 104 km, first used at the first minute, last at the closing word's
    let used = [
        0, 0, 0, 0, 100, 0, 0, 104, 0x4B, 0x8B, 0x03, 0x80, 0x4B, 0x8B, 0x04, 0xE8,
    ];
    assert_eq!(rt; card.vehicle, used);
    // the session is closed, and the one that was broken off is an event
    assert_eq!(rt; card.current_use, [0; 4]);
    let event = [6, 0x4B, 0x8B, 0x03, 0x80, 0x4B, 0x8B, 0x04, 0xAC];
    assert_eq!(rt; card.unclosed, event);
    Ok(())
}
