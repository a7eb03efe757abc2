//! What a unit tells of itself.
ghost use Rattle.std.specs.Prelude.{◌≡◌, ◌<◌, IfOk, IfSome, is_err, true, length, map};
ghost use Rattle.std.specs.List.{range_with_len};
ghost use Rattle.tach_media.specs.Medium.{Reads};
ghost use Rattle.unit_model.specs.declared.layout.TheConstants.{IMAGE_SIZE, OWED_ROWS};
ghost use Rattle.unit_model.specs.Decoding.{Decodes};
ghost use Rattle.unit_model.specs.Image.{IsUnit, last_kept};
ghost use Rattle.unit_memory.specs.Fault.{has_failed};
ghost use Rattle.unit_minutes.specs.Image.{IsFoundBy};
ghost use Rattle.device_state.specs.Units.{asked, asked_of, owed_by, owed_in, date_at, days_told, unit_told, TellsUnit};

use minute_model::Rule;
use state_text::OwedTo;
use tach_media::{Failed, Medium, read_number};
use tacho_types::{FullCardNumber, read_card_number};
use unit_memory::{Identity, UnitFault, UnitMemory};
use unit_minutes::Journal;
use unit_model::layout::{OWED, OWED_ROW_SIZE, OWED_ROWS, ROW_NUMBER, ROW_SESSION};
use unit_owed::owed;

/// A card that was looked at: its number, when its open session began, 0 where none is open, and its newest minute.
#[derive(Clone, Copy, Debug)]
pub struct CardSeen {
    pub number: [u8; 18],
    pub session: u32,
    pub newest: u32,
}

/// The cards that were looked at.
#[derive(Clone, Copy, Debug)]
pub struct CardsSeen {
    pub a: Option<CardSeen>,
    pub b: Option<CardSeen>,
}

/// In which session, and behind which minute, something is owed to a card.
#[derive(Clone, Copy, Debug)]
pub struct Question {
    pub session: u32,
    pub after: u32,
}

/// How many days a unit has, and the dates of the first and the last, in seconds since 1970-01-01 00:00 GMT.
#[derive(Clone, Copy, Debug)]
pub struct DaysTold {
    pub count: u16,
    pub first: Option<u32>,
    pub last: Option<u32>,
}

/// What a unit tells of itself.
#[derive(Clone, Copy, Debug)]
pub struct UnitTold {
    pub version: u8,
    pub rule: Rule,
    pub identity: Identity,
    pub odometer: u32,
    pub kept: u32,
    pub days: DaysTold,
    /// By the rows in which it keeps what it owes to cards.
    pub owed: [Option<OwedTo>; 8],
}

/// Reads what a unit tells of itself, and what it owes to cards: to one that was looked at what that lacks. It writes
/// nothing, and takes no memory.
///
/// # Errors
///
/// `Failed` where the unit failed, and `BadUnit` with the place of the first field, in order of places, that fails.
pub fn unit_state<M: Medium>(unit: &mut M, seen: &CardsSeen) -> Result<UnitTold, UnitFault>
    requires unit { IsUnit (M.state unit.old) }
    ensures told { IfSome (M.state unit.old).image (TellsUnit seen.now result) }
    ensures reads { Reads (M.state unit.old) (M.state unit.new) (has_failed result) }
{
    match Journal::load(unit) {
        Ok(journal) => told_by(unit, &journal, seen),
        Err(fault) => Err(fault),
    }
}

/// The same of a unit of which the journal is loaded.
fn told_by<M: Medium>(
    unit: &mut M,
    journal: &Journal,
    seen: &CardsSeen,
) -> Result<UnitTold, UnitFault>
    requires unit { IsUnit (M.state unit.old) }
    requires works { (M.state unit.old).works ≡ true }
    requires decodes { IfSome (M.state unit.old).image Decodes }
    requires found { IfSome (M.state unit.old).image (IsFoundBy journal.now) }
    ensures told { IfSome (M.state unit.old).image (TellsUnit seen.now result) }
    ensures reads { Reads (M.state unit.old) (M.state unit.new) (has_failed result) }
{
    match read_told(unit, journal, seen) {
        Ok(told) => Ok(told),
        Err(Failed) => Err(UnitFault::Failed),
    }
}

/// Reads what such a unit tells.
fn read_told<M: Medium>(
    unit: &mut M,
    journal: &Journal,
    seen: &CardsSeen,
) -> Result<UnitTold, Failed>
    requires unit { IsUnit (M.state unit.old) }
    requires works { (M.state unit.old).works ≡ true }
    requires decodes { IfSome (M.state unit.old).image Decodes }
    requires found { IfSome (M.state unit.old).image (IsFoundBy journal.now) }
    ensures told { IfOk result (λ told. IfSome (M.state unit.old).image (λ x. told ≡ unit_told seen.now x)) }
    ensures reads { Reads (M.state unit.old) (M.state unit.new) (is_err result) }
{
    let memory = UnitMemory::read(unit)?;
    let days = read_days(unit, journal)?;
    let owed = read_owed(unit, journal.last_kept(), seen)?;
    Ok(UnitTold {
        version: memory.version(),
        rule: memory.rule(),
        identity: memory.identity(),
        odometer: journal.odometer().0,
        kept: journal.last_kept(),
        days,
        owed,
    })
}

/// Reads how many days a unit has, and which are the first and the last.
fn read_days<M: Medium>(unit: &mut M, journal: &Journal) -> Result<DaysTold, Failed>
    requires unit { (M.state unit.old).size ≡ IMAGE_SIZE }
    requires works { (M.state unit.old).works ≡ true }
    requires found { IfSome (M.state unit.old).image (IsFoundBy journal.now) }
    ensures days { IfOk result (λ days. IfSome (M.state unit.old).image (λ x. days ≡ days_told x)) }
    ensures reads { Reads (M.state unit.old) (M.state unit.new) (is_err result) }
{
    let count = journal.days();
    let first = read_date(unit, journal, 0)?;
    let last = read_date(unit, journal, count.saturating_sub(1))?;
    Ok(DaysTold { count, first, last })
}

/// Reads the date of a day, counted from the oldest, if there are so many.
fn read_date<M: Medium>(unit: &mut M, journal: &Journal, nth: u16) -> Result<Option<u32>, Failed>
    requires unit { (M.state unit.old).size ≡ IMAGE_SIZE }
    requires works { (M.state unit.old).works ≡ true }
    requires found { IfSome (M.state unit.old).image (IsFoundBy journal.now) }
    ensures date { IfOk result (λ date. IfSome (M.state unit.old).image (λ x. date ≡ date_at x nth)) }
    ensures reads { Reads (M.state unit.old) (M.state unit.new) (is_err result) }
{
    let days = journal.days();
    if days <= nth {
        return Ok(None);
    }
    let day = journal.day_at(unit, nth)?;
    Ok(Some(day.date.0))
}

/// Reads what a unit owes, row by row.
fn read_owed<M: Medium>(
    unit: &mut M,
    kept: u32,
    seen: &CardsSeen,
) -> Result<[Option<OwedTo>; 8], Failed>
    requires unit { IsUnit (M.state unit.old) }
    requires works { (M.state unit.old).works ≡ true }
    requires kept { IfSome (M.state unit.old).image (λ x. kept ≡ last_kept x) }
    ensures owed { IfOk result (λ rows. IfSome (M.state unit.old).image (λ x. rows ≡ map (owed_in seen.now x)
        (range_with_len 0 OWED_ROWS))) }
    ensures reads { Reads (M.state unit.old) (M.state unit.new) (is_err result) }
{
    let mut rows = [None; OWED_ROWS as usize];
    for row in 0..OWED_ROWS {
        let told = read_row(unit, kept, seen, row)?;
        rows[row as usize] = told;
    }
    Ok(rows)
}

/// Reads to which card a row is, and how many minutes are owed to it; nothing of an empty row.
fn read_row<M: Medium>(
    unit: &mut M,
    kept: u32,
    seen: &CardsSeen,
    row: u32,
) -> Result<Option<OwedTo>, Failed>
    requires unit { IsUnit (M.state unit.old) }
    requires kept { IfSome (M.state unit.old).image (λ x. kept ≡ last_kept x) }
    requires row { row < OWED_ROWS }
    ensures owed { IfOk result (λ told. IfSome (M.state unit.old).image (λ x. told ≡ owed_in seen.now x row)) }
    ensures reads { Reads (M.state unit.old) (M.state unit.new) (is_err result) }
{
    let place = OWED.place + row * OWED_ROW_SIZE;
    let session = read_number(unit, place, ROW_SESSION.size)?;
    let mut number = [0; FullCardNumber::SIZE];
    unit.read_at(place + ROW_NUMBER.place, &mut number)?;
    let question = asked(seen, &number, session);
    let entries = owed(unit, kept, &number, question.session, question.after)?;
    Ok(owed_by(session, &number, entries.len() as u32))
}

/// How a card of a number is asked whose row has this session time: by what was seen of it, or else for all of that
/// session.
fn asked(seen: &CardsSeen, number: &[u8], session: u32) -> Question
    ensures { result ≡ asked seen.now number.now session }
{
    asked_of(
        &seen.a,
        number,
        asked_of(&seen.b, number, Question { session, after: 0 }),
    )
}

/// By what was seen of a card, where the number is its own.
fn asked_of(card: &Option<CardSeen>, number: &[u8], other: Question) -> Question
    ensures { result ≡ asked_of card.now number.now other }
{
    match card {
        None => other,
        Some(card) => {
            if &card.number[..] == number {
                Question {
                    session: card.session,
                    after: card.newest,
                }
            } else {
                other
            }
        }
    }
}

/// What a row tells: nothing where its session time is 0.
fn owed_by(session: u32, number: &[u8], minutes: u32) -> Option<OwedTo>
    requires { length number.now ≡ 18 }
    ensures { result ≡ owed_by session number.now minutes }
{
    if session == 0 {
        return None;
    }
    Some(OwedTo {
        card: read_card_number(number),
        minutes,
    })
}
