//! A card is put into a slot.
ghost use Rattle.std.specs.Prelude.{◌≡◌, ◌≤◌, ◌+◌, length, true, None, IfOk, IfSome};
ghost use Rattle.std.specs.Prelude.{option_map};
ghost use Rattle.tacho_types.specs.CardNumber.{card_number_bytes};
ghost use Rattle.card_commands.specs.Ports.{IsPort};
ghost use Rattle.unit_rule.specs.card_model.declared.lengths.TheConstants.{DAYS_MOST};
ghost use Rattle.card_validity.specs.Judged.{TellsSizes, IsLook};
ghost use Rattle.device_calls.specs.Entering.{of_card, IsEntering, IsInsertedWith};
ghost use Rattle.device_calls.specs.Calls.{CardStandsPutIn, IsRowTold, MayEnter, RulesEntering, UnitIsReady};
ghost use Rattle.device_calls.specs.Calls.{UnitStandsAsked, CardMayBePutIn, IsPutIn, MayBePutIn};

use activity_codec::Owed;
use card_commands::Port;
use card_layout::{Application, Fid};
use card_session::CardSession;
use card_validity::{CardLook, InsertFault, look};
use tach_media::{Chip, Failed, Medium};
use tacho_types::{FullCardNumber, Odometer, Registration, TimeReal};
use trace_model::Card;
use unit_minutes::Journal;

/// A card that was put in and is accepted: what it told before, the entries that were owed to it, its session, how many
/// of these entries were put on it, which are the last ones, and which row of the unit is to be its.
#[derive(Drop)]
pub struct Entered {
    /// What it told before anything was written.
    pub look: CardLook,
    /// The entries that were owed to it.
    pub owed: Owed,
    /// Its session.
    pub session: CardSession,
    /// How many of the owed entries were put on it: the last ones.
    pub replayed: u8,
    /// The row of the unit that is begun for it, 0 to 7.
    pub row: u32,
}

/// How a card is put in: its sizes, when, into which vehicle and at which odometer, and the number whose row of the
/// unit stays: the other card's, where that has one.
#[derive(Clone, Copy)]
pub struct CardInsertion {
    /// Its sizes.
    pub app: Application,
    /// The second in which it is put in.
    pub time: TimeReal,
    /// The vehicle.
    pub registration: Registration,
    /// The vehicle's odometer then, in km.
    pub odometer: Odometer,
    /// The number of the other card, whose row stays.
    pub spared: Option<FullCardNumber>,
}

/// Why a card that was put in is not accepted.
#[derive(Clone, Copy, Debug, PartialEq, Eq)]
pub enum NotEntered {
    /// A call on the unit failed, which is a cut. The card was only read.
    UnitFailed,
    /// A call on the card failed, which is a tear.
    CardFailed,
    /// The card is not valid: the file that first fails in the order of judging, with the place in it.
    NotValid { fid: Fid, place: u32 },
    /// The card is valid, and its stored time is later than now, both in seconds since 1970-01-01.
    TimeOverlap { stored: u32, now: u32 },
}

/// Why a card is not accepted, as the insertion of a session tells it.
fn refused_by(fault: InsertFault) -> NotEntered
    ensures { result ≡ of_card fault }
{
    match fault {
        InsertFault::Failed => NotEntered::CardFailed,
        InsertFault::NotValid { fid, place } => NotEntered::NotValid { fid, place },
        InsertFault::TimeOverlap { stored, now } => NotEntered::TimeOverlap { stored, now },
    }
}

/// A card that told this gets the entries that it is owed, and a session.
fn insert_by<C: Medium>(
    card: &mut C,
    insertion: CardInsertion,
    look: CardLook,
    owed: Owed,
    row: u32,
) -> Result<Entered, NotEntered>
    requires card { CardMayBePutIn insertion.app (C.state card.old) }
    requires may { MayBePutIn insertion.time.0 insertion.odometer.0 owed.items }
    ensures inserted { IsInsertedWith insertion.app insertion.registration insertion.odometer.0 insertion.time.0
        owed.items look (C.state card.old)
        (C.state card.new) result }
    ensures row { IfOk result (λ e. e.row ≡ row) }
    ensures put { IsPutIn insertion.app insertion.time.0 (C.state card.old) (C.state card.new) }
{
    match CardSession::insert(
        card,
        &insertion.app,
        insertion.time,
        &insertion.registration,
        insertion.odometer,
        &owed,
    ) {
        Ok(inserted) => Ok(Entered {
            look,
            owed,
            session: inserted.session,
            replayed: inserted.replayed,
            row,
        }),
        Err(fault) => Err(refused_by(fault)),
    }
}

/// The same, once the unit tells which entries these are.
fn enter_as<M: Medium, C: Medium>(
    unit: &mut M,
    journal: &Journal,
    card: &mut C,
    insertion: CardInsertion,
    look: CardLook,
) -> Result<Entered, NotEntered>
    requires ready { UnitIsReady journal.now (M.state unit.old) }
    requires card { CardMayBePutIn insertion.app (C.state card.old) }
    requires looked { IfSome (C.state card.old).image (λ x. IsLook insertion.app x look) }
    requires works { (C.state card.old).works ≡ true }
    requires may { MayEnter insertion.time.0 insertion.odometer.0 journal.now }
    ensures enters { IsEntering insertion.app insertion.registration insertion.odometer.0 insertion.time.0
        (M.state unit.old) (M.state unit.new)
        (C.state card.old) (C.state card.new) result }
    ensures row { IsRowTold result (option_map (λ n. card_number_bytes n) insertion.spared) (M.state unit.old) }
    ensures put { IsPutIn insertion.app insertion.time.0 (C.state card.old) (C.state card.new) }
{
    match journal.ask(
        unit,
        &look.number,
        look.session,
        look.newest_minute,
        insertion.spared.as_ref(),
    ) {
        Ok(asked) => insert_by(card, insertion, look, asked.owed, asked.row),
        Err(Failed) => Err(NotEntered::UnitFailed),
    }
}

/// The same, of a card behind a port, once it is judged.
fn enter_by<M: Medium, C: Medium>(
    unit: &mut M,
    journal: &Journal,
    card: &mut C,
    insertion: CardInsertion,
) -> Result<Entered, NotEntered>
    requires ready { UnitIsReady journal.now (M.state unit.old) }
    requires card { CardMayBePutIn insertion.app (C.state card.old) }
    requires may { MayEnter insertion.time.0 insertion.odometer.0 journal.now }
    ensures enters { IsEntering insertion.app insertion.registration insertion.odometer.0 insertion.time.0
        (M.state unit.old) (M.state unit.new)
        (C.state card.old) (C.state card.new) result }
    ensures row { IsRowTold result (option_map (λ n. card_number_bytes n) insertion.spared) (M.state unit.old) }
    ensures put { IsPutIn insertion.app insertion.time.0 (C.state card.old) (C.state card.new) }
{
    match look(card, &insertion.app) {
        Ok(look) => enter_as(unit, journal, card, insertion, look),
        Err(fault) => Err(refused_by(fault)),
    }
}

/// How many bytes a registration has, which is 15: called for the proof alone.
fn length_of(registration: &Registration) -> usize
    ensures { length registration.now.0 ≡ 15 }
{
    let bytes: &[u8] = &registration.0;
    bytes.len()
}

/// Puts in a card of these sizes: it is judged, the entries that the unit owes to it are put on it, and a session is
/// opened. The row of its number is told, while the row of the number that is spared is another's, and not begun yet:
/// that comes behind the note of the insertion (`begin`).
///
/// No line here reads the other card, or which of them this is: `rules` speaks of them.
///
/// # Errors
///
/// 1. `NotValid` exactly where the card is not valid, and `TimeOverlap` exactly where it is valid and its stored time
///    is later than now. Nothing was written then.
/// 2. `UnitFailed` and `CardFailed` where a call on that device failed.
pub fn enter<M: Medium, C: Chip, D: Chip>(
    unit: &mut M,
    journal: &Journal,
    card: &mut C,
    others: &D,
    which: Card,
    insertion: CardInsertion,
) -> Result<Entered, NotEntered>
    requires ready { UnitIsReady journal.now (M.state unit.old) }
    requires port { IsPort insertion.app None (C.card card.old) (C.state card.old) }
    requires told { IfSome (C.state card.old).image (TellsSizes insertion.app) }
    requires may { MayEnter insertion.time.0 insertion.odometer.0 journal.now }
    ensures enters { IsEntering insertion.app insertion.registration insertion.odometer.0 insertion.time.0
        (M.state unit.old) (M.state unit.new)
        (C.state card.old) (C.state card.new) result }
    ensures row { IsRowTold result (option_map (λ n. card_number_bytes n) insertion.spared) (M.state unit.old) }
    ensures rules { RulesEntering which insertion.app insertion.time.0 result (M.state unit.old) (M.state unit.new)
        (C.state card.old)
        (C.state card.new) (D.state others.now) }
    ensures stands { UnitStandsAsked journal.now result (M.state unit.new) }
    ensures card { CardStandsPutIn insertion.app insertion.time.0 (C.state card.old) (C.state card.new)
        (C.card card.new) }
    // Of the argument, not of the call: a caller's proof knows by it that a registration has 15 bytes.
    ensures long { length insertion.registration.0 ≡ 15 }
    ensures most { (C.state card.new).clock ≤ (C.state card.old).clock + (DAYS_MOST + 84) }
{
    let _bytes = length_of(&insertion.registration);
    let mut port = Port::resume(&mut *card, insertion.app);
    enter_by(unit, journal, &mut port, insertion)
}
