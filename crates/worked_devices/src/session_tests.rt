//! Insertions, keeps and withdrawals of a card of the smallest sizes in memory.
ghost use Rattle.std.specs.Prelude.{◌≡◌, ℕ, ◌+◌, ◌/◌, ◌<◌, ◌≤◌, ◌^◌, IfSome, IfOk};
ghost use Rattle.card_layout.specs.Application.{IsApplication};
ghost use Rattle.card_layout.specs.Files.{image_size_of};
ghost use Rattle.tach_media.specs.MemMedium.{memory_state};
ghost use Rattle.card_validity.specs.Judged.{TellsSizes};
ghost use Rattle.card_session.specs.declared.words.TheConstants.{LATEST_MINUTE};
ghost use Rattle.card_session.specs.Inserting.{AreOwed};

use activity_codec::{Activity, Entry, Owed, Pick, Slot};
use card_files::{CardIdentity, blank_card, image_size, read_application};
use card_layout::{Application, Fid};
use card_session::{CardSession, Inserted, Kept, LATEST_MINUTE};
use card_validity::InsertFault;
use std::alloc::Global;
use std::process::Abort;
use std::test::Fail;
use tach_media::{Failed, Left, Medium, MemMedium, Memory, Stop};
use tacho_types::{Name36, Nation, Odometer, Registration, TimeReal};

const SMALLEST: Application = Application {
    structure: 0,
    events: 6,
    faults: 12,
    activity: 5544,
    vehicles: 84,
    places: 84,
};

const IDENTITY: CardIdentity = CardIdentity {
    state: Nation(13),
    number: *b"DEMO000000000000",
    surname: Name36(*b"\x01MUSTERMANN                         "),
    first: Name36(*b"\x01HEIKE                              "),
};

const REGISTRATION: Registration = Registration(*b"\x0D\x01DEMO         ");

/// The size of its image in bytes; where the sizes stand; where the events of type 06 begin; the file of days; the file
/// of vehicles; and that of the current use.
const SIZE: usize = 11411;

const SIZES: u32 = 33;

const EVENTS: u32 = 331;

const DAYS: u32 = 1483;

const VEHICLES: u32 = 7031;

const CURRENT_USE: u32 = 10478;

/// The first minute of 2010-03-01, and the second at which a session begins: 10:00:00 of that day.
const MIDNIGHT: u32 = 21123360;

const BEGIN: u32 = 1267437600;

fn new_card(alloc: Global) -> Result<MemMedium, Memory> {
    let image = blank_card(alloc, &IDENTITY, &SMALLEST)?;
    if image.len() > SIZE {
        return Err(Memory);
    }
    MemMedium::new(alloc, image, 64, 1024, Vec::new(alloc))
}

// So many bytes of the card.
fn bytes<const N: usize>(card: &mut MemMedium, place: u32) -> Result<[u8; N], Failed>
    requires { place + N ≤ 11411 }
{
    let mut out = [0; N];
    if (card.size() as usize) < SIZE {
        return Err(Failed);
    }
    card.read_at(place, &mut out)?;
    Ok(out)
}

// Whether these bytes stand at a place of it.
fn has<const N: usize>(card: &mut MemMedium, place: u32, wanted: &[u8; N]) -> bool
    requires { place + N ≤ 11411 }
{
    bytes(card, place) == Ok(*wanted)
}

// These bytes stand at a place of it.
fn shows<const N: usize>(rt: &impl Abort, card: &mut MemMedium, place: u32, wanted: &[u8; N])
    requires { place + N ≤ 11411 }
{
    assert!(rt; has(card, place, wanted));
}

// Other bytes at a place of it.
fn put<const N: usize>(card: &mut MemMedium, place: u32, bytes: [u8; N]) -> Result<(), Failed>
    requires { place + N ≤ 11411 }
{
    if (card.size() as usize) < SIZE {
        return Err(Failed);
    }
    card.write_at(place, &bytes)
}

// The sizes that a card tells, which it has.
fn sizes_of(card: &mut MemMedium) -> Result<Application, Failed>
    ensures sizes { IfOk result IsApplication }
    ensures fits { IfOk result (λ app. image_size_of app ≤ (memory_state card.new.log card.new.counts).size) }
    ensures told { IfOk result (λ app. IfSome (memory_state card.new.log card.new.counts).image (TellsSizes app)) }
{
    if (card.size() as usize) < SIZE {
        return Err(Failed);
    }
    let mut told = [0; 10];
    card.read_at(SIZES, &mut told)?;
    match read_application(&told) {
        Ok(app) if image_size(&app) <= card.size() => Ok(app),
        _ => Err(Failed),
    }
}

fn inserted(
    card: &mut MemMedium,
    seconds: u32,
    odometer: u32,
    owed: &Owed,
) -> Result<Inserted, InsertFault>
    requires some { 1 ≤ seconds }
    requires last { seconds / 60 < LATEST_MINUTE }
    requires fits { odometer < 2 ^ 24 }
    requires owed { AreOwed seconds owed.now.items }
{
    match sizes_of(card) {
        Err(Failed) => Err(InsertFault::Failed),
        Ok(app) => CardSession::insert(
            card,
            &app,
            TimeReal(seconds),
            &REGISTRATION,
            Odometer(odometer),
            owed,
        ),
    }
}

// Inserts it where nothing is owed.
fn first(card: &mut MemMedium, seconds: u32) -> Result<Inserted, InsertFault>
    requires some { 1 ≤ seconds }
    requires last { seconds / 60 < LATEST_MINUTE }
{
    let none = Owed::new();
    inserted(card, seconds, 100, &none)
}

// Inserts it, where that goes well.
fn begin(rt: &impl Abort, card: &mut MemMedium, seconds: u32) -> Inserted
    requires some { 1 ≤ seconds }
    requires last { seconds / 60 < LATEST_MINUTE }
{
    first(card, seconds).expect(rt, "inserted")
}

// A minute of the day, or of the next one, in the driver's slot.
fn doing(act: Activity, minute: u32, odometer: u32) -> Kept
    requires { minute < 2880 }
    ensures minute { result.entry.minute ≡ 21123360 + minute }
    ensures odometer { result.odometer.0 ≡ odometer }
{
    Kept {
        entry: Entry {
            minute: MIDNIGHT + minute,
            slot: Slot::Driver,
            crew: false,
            act,
        },
        odometer: Odometer(odometer),
    }
}

// A minute of work.
fn work(minute: u32, odometer: u32) -> Kept
    requires { minute < 2880 }
    ensures minute { result.entry.minute ≡ 21123360 + minute }
    ensures odometer { result.odometer.0 ≡ odometer }
{
    doing(Activity::Work, minute, odometer)
}

// The minutes 599, 600, 601 and 603.
fn four() -> Owed
    ensures { (now : ℕ) → 21123963 < now / 60 → AreOwed now result.items }
{
    let first = work(599, 0);
    let second = work(600, 0);
    let third = work(601, 0);
    let last = work(603, 0);
    Owed::from([first.entry, second.entry, third.entry, last.entry])
}

// Inserts it at 10:05:00, where these four are owed.
fn again(card: &mut MemMedium) -> Result<Inserted, InsertFault> {
    let owed = four();
    inserted(card, BEGIN + 300, 104, &owed)
}

// Keeps a minute, where it is later than the newest one.
fn did(
    session: &mut CardSession,
    card: &mut MemMedium,
    act: Activity,
    minute: u32,
    odometer: u32,
) -> bool
    requires minute { minute < 2880 }
    requires fits { odometer < 2 ^ 24 }
{
    let kept = doing(act, minute, odometer);
    let least = image_size(session.application());
    let held = card.size();
    if held < least {
        return false;
    }
    let newest = session.newest_minute();
    if kept.entry.minute <= newest {
        return false;
    }
    session.keep(card, &kept).is_ok()
}

fn kept(session: &mut CardSession, card: &mut MemMedium, minute: u32, odometer: u32) -> bool
    requires minute { minute < 2880 }
    requires fits { odometer < 2 ^ 24 }
{
    did(session, card, Activity::Work, minute, odometer)
}

// Keeps a minute of work.
fn keeps(
    rt: &impl Abort,
    session: &mut CardSession,
    card: &mut MemMedium,
    minute: u32,
    odometer: u32,
)
    requires minute { minute < 2880 }
    requires fits { odometer < 2 ^ 24 }
{
    assert!(rt; kept(session, card, minute, odometer));
}

fn withdrawn(session: CardSession, card: &mut MemMedium) -> bool {
    let least = image_size(session.application());
    let held = card.size();
    if held < least {
        return false;
    }
    session.close(card, Pick::Work).is_ok()
}

// A new card after a session that kept minute 600 and was left open.
fn left_open(card: &mut MemMedium) -> bool {
    match first(card, BEGIN) {
        Err(_) => false,
        Ok(mut begun) => kept(&mut begun.session, card, 600, 100),
    }
}

// Three minutes of work, with a gap before the last.
fn works(rt: &impl Abort, session: &mut CardSession, card: &mut MemMedium) {
    // a day with its first words, and the vehicle
    keeps(rt, session, card, 600, 100);
    let first = b"\0\0\0\0\0\0\0\x10\x4B\x8B\x03\x80\0\x01\0\0\x20\0\x12\x58\0\0";
    shows(rt, card, DAYS, first);
    // a minute of the same state: the distance and the vehicle alone
    keeps(rt, session, card, 601, 101);
    // a gap: the word that closes it, and the state again
    keeps(rt, session, card, 603, 103);
    let words = b"\0\0\0\x14\x4B\x8B\x03\x80\0\x01\0\x03\x20\0\x12\x58\x22\x5A\x12\x5B\0\0";
    shows(rt, card, DAYS + 4, words);
    shows(
        rt,
        card,
        VEHICLES,
        b"\0\0\0\0\x64\0\0\x67\x4B\x8B\x90\x20\x4B\x8B\x90\xD4",
    );
}

#[test]
fn a_session_of_a_new_card(rt: HostRuntime) -> Result<(), Fail> {
    let mut card = new_card(rt.alloc())?;
    let mut begun = begin(&rt, &mut card, BEGIN);
    assert!(rt; begun.session.newest_minute() == 0 && begun.replayed == 0);
    shows(
        &rt,
        &mut card,
        CURRENT_USE,
        b"\x4B\x8B\x90\x20\x0D\x01DEMO         ",
    );
    shows(&rt, &mut card, EVENTS, b"\0\0\0\0\0\0\0\0");
    works(&rt, &mut begun.session, &mut card);
    // the withdrawal, with work selected: the word that closes, and the end mark at it
    assert!(rt; withdrawn(begun.session, &mut card));
    let closed =
        b"\0\0\0\x16\x4B\x8B\x03\x80\0\x01\0\x03\x20\0\x12\x58\x22\x5A\x12\x5B\x32\x5C\0\0";
    shows(&rt, &mut card, DAYS + 4, closed);
    shows(
        &rt,
        &mut card,
        CURRENT_USE,
        b"\0\0\0\0\x0D\x01DEMO         ",
    );
    Ok(())
}

// A new card after a session that kept minute 600 and was left open.
fn open_card(rt: &impl Abort, alloc: Global) -> Result<MemMedium, Memory> {
    let mut card = new_card(alloc)?;
    assert!(rt; left_open(&mut card));
    Ok(card)
}

// Owed minutes behind the end mark are on it, and the word that closes; so is the event of its session.
fn has_owed(rt: &impl Abort, card: &mut MemMedium) {
    let words = b"\0\0\0\x16\x4B\x8B\x03\x80\0\x01\0\0\x20\0\x12\x58\x22\x5A\x12\x5B\x22\x5C\0\0";
    shows(rt, card, DAYS + 4, words);
    shows(
        rt,
        card,
        VEHICLES,
        b"\0\0\0\0\x64\0\0\x68\x4B\x8B\x90\x20\x4B\x8B\x91\x10",
    );
    let event = b"\x06\x4B\x8B\x90\x20\x4B\x8B\x91\x4C\x0D\x01DEMO         \0";
    shows(rt, card, EVENTS, event);
    shows(
        rt,
        card,
        CURRENT_USE,
        b"\x4B\x8B\x91\x4C\x0D\x01DEMO         ",
    );
}

// It comes back; owed are two minutes up to its end mark, and two after it.
#[test]
fn a_session_left_open(rt: HostRuntime) -> Result<(), Fail> {
    let mut card = open_card(&rt, rt.alloc())?;
    let back = again(&mut card).expect(&rt, "inserted");
    assert!(rt; back.replayed == 2 && back.session.newest_minute() == MIDNIGHT + 604);
    has_owed(&rt, &mut card);
    Ok(())
}

// The word of minute 601 stands there, its use of the vehicle does not.
fn put_word(rt: &impl Abort, card: &mut MemMedium) {
    assert!(rt; put(card, DAYS + 20, [0x1A, 0x59]).is_ok());
    assert!(rt; put(card, DAYS + 6, [0, 0x12]).is_ok());
}

#[test]
fn words_behind_the_mark_are_cut(rt: HostRuntime) -> Result<(), Fail> {
    let mut card = open_card(&rt, rt.alloc())?;
    put_word(&rt, &mut card);
    let back = begin(&rt, &mut card, BEGIN + 300);
    assert!(rt; back.replayed == 0 && back.session.newest_minute() == MIDNIGHT + 601);
    let words = b"\0\0\0\x12\x4B\x8B\x03\x80\0\x01\0\0\x20\0\x12\x58\x22\x59";
    shows(&rt, &mut card, DAYS + 4, words);
    Ok(())
}

// It is inserted at this second of a card that was used later, and no write is begun.
fn is_early(rt: &impl Abort, card: &mut MemMedium) {
    let clock = card.clock();
    let early = first(card, BEGIN - 1).err();
    let overlap = InsertFault::TimeOverlap {
        stored: BEGIN,
        now: BEGIN - 1,
    };
    assert!(rt; early == Some(overlap));
    assert!(rt; card.clock() == clock);
}

// Its vehicle was used last at 10:00:00.
#[test]
fn a_later_time(rt: HostRuntime) -> Result<(), Fail> {
    let mut card = open_card(&rt, rt.alloc())?;
    is_early(&rt, &mut card);
    assert!(rt; first(&mut card, BEGIN).is_ok());
    Ok(())
}

// It is refused for its file of vehicles, and no write is begun.
fn is_damaged(rt: &impl Abort, card: &mut MemMedium) {
    let clock = card.clock();
    let bad = again(card).err();
    let vehicles = InsertFault::NotValid {
        fid: Fid::VEHICLES,
        place: 0,
    };
    assert!(rt; bad == Some(vehicles));
    assert!(rt; card.clock() == clock);
}

// The pointer of the vehicle entries is no index.
#[test]
fn a_damaged_card(rt: HostRuntime) -> Result<(), Fail> {
    let mut card = open_card(&rt, rt.alloc())?;
    assert!(rt; put(&mut card, VEHICLES, [0, 200]).is_ok());
    is_damaged(&rt, &mut card);
    Ok(())
}

// Five minutes of rest and five of driving, a km each.
fn rest_and_driving(session: &mut CardSession, card: &mut MemMedium) -> bool {
    for minute in 0..5 {
        if !did(session, card, Activity::Rest, minute, 0) {
            return false;
        }
    }
    for minute in 5..10 {
        if !did(session, card, Activity::Driving, minute, minute - 4) {
            return false;
        }
    }
    true
}

// A drive of a new card, and its withdrawal.
fn drives(rt: &impl Abort, card: &mut MemMedium) {
    let mut begun = begin(rt, card, 60 * MIDNIGHT);
    assert!(rt; rest_and_driving(&mut begun.session, card));
    assert!(rt; withdrawn(begun.session, card));
    let words = b"\0\0\0\x12\x4B\x8B\x03\x80\0\x01\0\x05\0\0\x18\x05\x30\x0A";
    shows(rt, card, DAYS + 4, words);
    shows(rt, card, VEHICLES + 12, b"\x4B\x8B\x05\xD8");
    shows(rt, card, CURRENT_USE, b"\0\0\0\0");
}

// It comes back within that minute, which then is not its own.
fn comes_back(rt: &impl Abort, card: &mut MemMedium) {
    let mut back = begin(rt, card, 60 * MIDNIGHT + 600);
    assert!(rt; !kept(&mut back.session, card, 10, 5));
    assert!(rt; kept(&mut back.session, card, 11, 5));
    shows(rt, card, DAYS + 16, b"\0\0\x18\x05\x30\x0A\x10\x0B");
}

#[test]
fn a_drive_and_a_withdrawal(rt: HostRuntime) -> Result<(), Fail> {
    let mut card = new_card(rt.alloc())?;
    drives(&rt, &mut card);
    comes_back(&rt, &mut card);
    Ok(())
}

// The last minute of a day and the first of the next one, of rest.
fn rests(rt: &impl Abort, card: &mut MemMedium) {
    let mut begun = begin(rt, card, 60 * MIDNIGHT + 86340);
    assert!(rt; did(&mut begun.session, card, Activity::Rest, 1439, 0));
    assert!(rt; did(&mut begun.session, card, Activity::Rest, 1440, 0));
}

#[test]
fn minutes_round_midnight(rt: HostRuntime) -> Result<(), Fail> {
    let mut card = new_card(rt.alloc())?;
    rests(&rt, &mut card);
    let words =
        b"\0\0\0\x10\0\0\0\x10\x4B\x8B\x03\x80\0\x01\0\0\x20\0\x05\x9F\0\x10\0\x0E\x4B\x8C\x55\0\0\x02\0\0\0\0";
    shows(&rt, &mut card, DAYS, words);
    // two vehicle entries, one for each day
    shows(&rt, &mut card, VEHICLES, b"\0\x01");
    shows(
        &rt,
        &mut card,
        VEHICLES + 8,
        b"\x4B\x8C\x54\xC4\x4B\x8C\x54\xC4",
    );
    shows(
        &rt,
        &mut card,
        VEHICLES + 39,
        b"\x4B\x8C\x55\0\x4B\x8C\x55\0",
    );
    Ok(())
}

// The image of a card.
fn image_of(alloc: Global, card: &mut MemMedium) -> Result<Vec<u8>, Memory> {
    let mut image = blank_card(alloc, &IDENTITY, &SMALLEST)?;
    if (card.size() as usize) < image.len() {
        return Err(Memory);
    }
    match card.read_at(0, &mut image) {
        Ok(()) => Ok(image),
        Err(Failed) => Err(Memory),
    }
}

// A card with this image, which stops at a call.
fn stopping(alloc: Global, image: Vec<u8>, call: u64, left: Left) -> Result<MemMedium, Memory> {
    let mut stops = Vec::new(alloc);
    stops.push(Stop { call, left }).map_err(|_| Memory)?;
    if image.len() > SIZE {
        return Err(Memory);
    }
    MemMedium::new(alloc, image, 128, 4096, stops)
}

// The image of a new card that was left open.
fn open_image(alloc: Global) -> Result<Vec<u8>, Memory> {
    let mut card = new_card(alloc)?;
    if !left_open(&mut card) {
        return Err(Memory);
    }
    image_of(alloc, &mut card)
}

// Whether a card that failed is inserted once more, with the days, vehicle and current use of an insertion that goes
// well.
fn is_back(card: &mut MemMedium) -> bool {
    card.revive().is_ok()
        && again(card).is_ok()
        && has(
            card,
            DAYS + 4,
            b"\0\0\0\x16\x4B\x8B\x03\x80\0\x01\0\0\x20\0\x12\x58\x22\x5A\x12\x5B\x22\x5C",
        )
        && has(
            card,
            VEHICLES,
            b"\0\0\0\0\x64\0\0\x68\x4B\x8B\x90\x20\x4B\x8B\x91\x10",
        )
        && has(card, CURRENT_USE, b"\x4B\x8B\x91\x4C\x0D\x01DEMO         ")
}

// Inserts a new card that was left open, which stops at a call behind that, and then once more. `None` where no call
// was stopped, else whether the second insertion ends with the same days, vehicle and current use.
fn stopped(alloc: Global, call: u64, left: Left) -> Result<Option<bool>, Memory> {
    let image = open_image(alloc)?;
    let mut card = stopping(alloc, image, call, left)?;
    if again(&mut card).is_ok() {
        return Ok(None);
    }
    Ok(Some(is_back(&mut card)))
}

// The days of a full card: 396 of them, each of one word.
fn full_string(alloc: Global) -> Result<Vec<u8>, Memory> {
    let mut bytes = Vec::new(alloc);
    for day in 1..397u32 {
        let date = day * 86400;
        let before = if day == 1 { 0 } else { 14 };
        let record = [
            0,
            before,
            0,
            14,
            (date / 16777216) as u8,
            (date / 65536 % 256) as u8,
            (date / 256 % 256) as u8,
            (date % 256) as u8,
            (day / 100 % 10) as u8,
            (day / 10 % 10 * 16 + day % 10) as u8,
            0,
            0,
            0x20,
            0,
        ];
        bytes.extend_from_slice(&record).map_err(|_| Memory)?;
    }
    Ok(bytes)
}

// A full card without a session, which was last used in its newest day.
fn full_card(alloc: Global) -> Result<MemMedium, Memory> {
    let string = full_string(alloc)?;
    let mut image = blank_card(alloc, &IDENTITY, &SMALLEST)?;
    if image.len() != SIZE || string.len() != 5544 {
        return Err(Memory);
    }
    let days = DAYS as usize;
    let pointers = &mut image[days..days + 4];
    pointers.copy_from_slice(&[0, 0, 0x15, 0x9A]);
    let place = &mut image[days + 4..days + 5548];
    place.copy_from_slice(&string);
    // from that day's first minute to its sixth
    let vehicle = &mut image[VEHICLES as usize + 8..VEHICLES as usize + 16];
    vehicle.copy_from_slice(b"\x02\x0A\x12\0\x02\x0A\x13\x2C");
    MemMedium::new(alloc, image, 64, 1024, Vec::new(alloc))
}

// The minutes 600, 601, 603 and 604.
fn four_more() -> Owed
    ensures { (now : ℕ) → 21123964 < now / 60 → AreOwed now result.items }
{
    let first = work(600, 0);
    let second = work(601, 0);
    let third = work(603, 0);
    let last = work(604, 0);
    Owed::from([first.entry, second.entry, third.entry, last.entry])
}

// Inserts it at 10:05:00, where these four are owed.
fn once_more(card: &mut MemMedium) -> Result<Inserted, InsertFault> {
    let owed = four_more();
    inserted(card, BEGIN + 300, 104, &owed)
}

// A session, and the image of its card.
#[derive(Drop)]
struct Begun {
    session: CardSession,
    image: Vec<u8>,
}

// The session of a full card.
fn begun_of_full(alloc: Global) -> Result<Begun, Memory> {
    let mut card = full_card(alloc)?;
    match first(&mut card, BEGIN) {
        Ok(begun) => Ok(Begun {
            session: begun.session,
            image: image_of(alloc, &mut card)?,
        }),
        Err(_) => Err(Memory),
    }
}

// Whether a full card that failed is inserted once more, with all owed minutes, and without two of its oldest days.
fn is_full_again(card: &mut MemMedium) -> bool {
    card.revive().is_ok()
        && once_more(card).is_ok()
        && has(
            card,
            DAYS,
            b"\0\x1C\0\0\0\x0E\0\x16\x4B\x8B\x03\x80\x03\x97\0\0\x20\0\x12\x58\x22\x5A\x12\x5B\x22\x5D",
        )
        && has(card, VEHICLES + 39, b"\x4B\x8B\x90\x20\x4B\x8B\x91\x4C")
        && has(card, CURRENT_USE, b"\x4B\x8B\x91\x4C\x0D\x01DEMO         ")
}

// Keeps the first minute of a day on a full card, which stops at a call in it, and inserts the card. `None` where no
// call was stopped, else whether all owed minutes are on it, and of the oldest days two have gone.
fn stopped_keep(alloc: Global, call: u64, left: Left) -> Result<Option<bool>, Memory> {
    let mut begun = begun_of_full(alloc)?;
    let mut card = stopping(alloc, begun.image, call, left)?;
    if kept(&mut begun.session, &mut card, 600, 100) {
        return Ok(None);
    }
    Ok(Some(is_full_again(&mut card)))
}

// The session of a new card that has kept minute 600.
fn begun_and_kept(alloc: Global) -> Result<Begun, Memory> {
    let mut card = new_card(alloc)?;
    let Ok(mut begun) = first(&mut card, BEGIN) else {
        return Err(Memory);
    };
    if !kept(&mut begun.session, &mut card, 600, 100) {
        return Err(Memory);
    }
    Ok(Begun {
        session: begun.session,
        image: image_of(alloc, &mut card)?,
    })
}

// Whether a card that failed is inserted, with its minute closed by the withdrawal or by this.
fn is_closed(card: &mut MemMedium) -> bool {
    if card.revive().is_err() || first(card, BEGIN + 300).is_err() {
        return false;
    }
    let words = bytes(card, DAYS + 16);
    let days = words == Ok(*b"\x20\0\x12\x58\x22\x59") || words == Ok(*b"\x20\0\x12\x58\x32\x59");
    days && has(card, VEHICLES + 12, b"\x4B\x8B\x90\x5C")
        && has(card, CURRENT_USE, b"\x4B\x8B\x91\x4C\x0D\x01DEMO         ")
}

// Withdraws a card, which stops at a call in that, and inserts it. `None` where no call was stopped, else whether its
// minute is closed, by the one or by the other.
fn stopped_close(alloc: Global, call: u64, left: Left) -> Result<Option<bool>, Memory> {
    let begun = begun_and_kept(alloc)?;
    let mut card = stopping(alloc, begun.image, call, left)?;
    if withdrawn(begun.session, &mut card) {
        return Ok(None);
    }
    Ok(Some(is_closed(&mut card)))
}

/// Before a write, behind it, and in the midst of it.
const LEFT: [Left; 4] = [Left::Before, Left::After, Left::Torn(1), Left::Torn(255)];

#[test]
fn a_stop_at_each_call(rt: HostRuntime) -> Result<(), Fail> {
    for left in LEFT {
        let mut stops = 0;
        for call in 0..64 {
            match stopped(rt.alloc(), call, left)? {
                None => break,
                Some(same) => assert!(rt; same),
            }
            stops = call;
        }
        assert!(rt; 20 < stops && stops < 63);
    }
    Ok(())
}

#[test]
fn a_stop_at_each_call_of_a_keep_with_drops(rt: HostRuntime) -> Result<(), Fail> {
    for left in LEFT {
        let mut stops = 0;
        for call in 0..32 {
            match stopped_keep(rt.alloc(), call, left)? {
                None => break,
                Some(same) => assert!(rt; same),
            }
            stops = call;
        }
        assert!(rt; 10 < stops && stops < 31);
    }
    Ok(())
}

#[test]
fn a_stop_at_each_call_of_a_withdrawal(rt: HostRuntime) -> Result<(), Fail> {
    for left in LEFT {
        let mut stops = 0;
        for call in 0..16 {
            match stopped_close(rt.alloc(), call, left)? {
                None => break,
                Some(same) => assert!(rt; same),
            }
            stops = call;
        }
        assert!(rt; 2 < stops && stops < 15);
    }
    Ok(())
}
