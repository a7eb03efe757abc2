//! What an accepted card tells.
ghost use Rattle.std.specs.Prelude.{◌≡◌, ◌≤◌, length, take, ◌∷◌, Some, IfOk, IfErr, IfSome, OnOk, is_err, max, List, ℕ};
ghost use Rattle.card_layout.specs.Application.{IsApplication};
ghost use Rattle.card_layout.specs.Files.{image_size_of};
ghost use Rattle.tacho_types.specs.CardNumber.{card_number_of};
ghost use Rattle.tach_media.specs.Medium.{Reads};
ghost use Rattle.card_image.specs.card_retention.Entries.{newest_word};
ghost use Rattle.card_image.specs.Fields.{end_mark, session_time, card_days};
ghost use Rattle.card_image.specs.View.{counting};
ghost use Rattle.card_image.specs.Judging.{first_bad_file};
ghost use Rattle.card_validity.specs.Faults.{IfNotValid, IfTimeOverlap, has_failed};
ghost use Rattle.card_validity.specs.Judged.{IsCopy, TellsSizes, IsSized, IsKnown, IsJudged, IsLook};

use crate::files::last_use;
use crate::{BadFile, InsertFault, Judged, judge_image};
use activity_codec::{MINUTE_SECONDS, WORD_MINUTES};
use card_files::{Vehicle, file_of};
use card_layout::{Application, Fid, LARGEST_IMAGE};
use tach_media::{Failed, Medium};
use tacho_types::{FullCardNumber, Name36, TimeReal, read_card_number, read_name, read_time};

/// What a valid card tells: its number, its holder, when it expires, when its open session began in seconds since
/// 1970-01-01, 0 where none is open, its newest minute since 1970-01-01, and the vehicle in which it was last.
#[derive(Clone, Copy, Debug, PartialEq, Eq)]
pub struct CardLook {
    pub number: FullCardNumber,
    pub surname: Name36,
    pub first: Name36,
    pub expiry: TimeReal,
    pub session: u32,
    pub newest_minute: u32,
    pub previous: Option<Vehicle>,
}

/// The largest image, as a size.
const ROOM: usize = LARGEST_IMAGE as usize;

/// The size of Identification in bytes. It begins with the issuing state and the card's number.
const IDENTIFICATION: usize = 143;

/// Where the expiry, the surname and the first names begin in it (Appendix 1, CardIdentification and
/// DriverCardHolderIdentification).
const EXPIRY: usize = 61;

const SURNAME: usize = 65;

const FIRST_NAMES: usize = 101;

/// The card type of a driver card.
const DRIVER_CARD: u8 = 1;

/// Reads the files that are judged, one after the other, into their places in room for an image.
fn read_files<M: Medium>(port: &mut M, app: &Application, room: &mut [u8]) -> Result<(), Failed>
    requires sizes { IsApplication app.now }
    requires fits { image_size_of app.now ≤ (M.state port.old).size }
    requires room { length room.old ≡ LARGEST_IMAGE }
    ensures copy { OnOk result (IfSome (M.state port.old).image (λ x. IsCopy app.now x room.new)) }
    ensures reads { Reads (M.state port.old) (M.state port.new) (is_err result) }
{
    let from = file_of(app, Fid::ACTIVITY).base;
    let end = file_of(app, Fid::CONTROL).base;
    port.read_at(from, &mut room[from as usize..end as usize])
}

/// Judges a card of these sizes, which are those that its image tells where it tells one. It writes nothing, and reads
/// the files that it judges once, whole.
///
/// # Errors
///
/// 1. `Failed` where the card failed.
/// 2. `NotValid` exactly where the card is not valid, with the file that first fails and the place in it.
pub fn judge<M: Medium>(port: &mut M, app: &Application) -> Result<Judged, InsertFault>
    requires sizes { IsApplication app.now }
    requires fits { image_size_of app.now ≤ (M.state port.old).size }
    requires told { IfSome (M.state port.old).image (TellsSizes app.now) }
    ensures sized { IfOk result (IsSized app.now) }
    ensures judged { IfOk result (λ j. IfSome (M.state port.old).image (λ x. IsJudged app.now x j)) }
    ensures bad { IfErr result (λ fault. IfNotValid fault (λ fid place. IfSome (M.state port.old).image
        (λ x. first_bad_file app.now x ≡ Some (fid, place)))) }
    ensures in_time { IfErr result (λ fault. IfTimeOverlap fault (λ stored now. ⊥)) }
    ensures reads { Reads (M.state port.old) (M.state port.new) (has_failed result) }
{
    let mut room = [0; ROOM];
    read_files(port, app, &mut room)?;
    match judge_image(&room, app) {
        Ok(judged) => Ok(judged),
        Err(BadFile { fid, place }) => Err(InsertFault::NotValid { fid, place }),
    }
}

/// The newest minute of a card, of the days that count.
fn newest_minute(judged: &Judged) -> u32
    ensures { (app : Application) (x : List ℕ) → IsKnown app x judged.now
        → result ≡ max (end_mark app x) (newest_word
        (counting (session_time app x) (end_mark app x) (card_days app x))) }
{
    let mark = last_use(&judged.vehicle).0 / MINUTE_SECONDS;
    let session = judged.current.session.0;
    if session != 0 {
        return mark;
    }
    match judged.days.tail() {
        None => mark,
        Some(tail) => {
            mark.max(tail.head.date.0 / MINUTE_SECONDS + u32::from(tail.latest % WORD_MINUTES))
        }
    }
}

/// The card's number, of a driver card with these bytes of Identification.
fn number_of(identification: &[u8]) -> FullCardNumber
    requires { length identification.now ≡ IDENTIFICATION }
    ensures { result ≡ card_number_of (1 ∷ take 17 identification.now) }
{
    let mut bytes = [DRIVER_CARD; FullCardNumber::SIZE];
    bytes[1..].copy_from_slice(&identification[..FullCardNumber::SIZE - 1]);
    read_card_number(&bytes)
}

/// Reads and judges a card of these sizes without a write, and tells what it says. It never answers `TimeOverlap`.
///
/// # Errors
///
/// 1. `Failed` where the card failed.
/// 2. `NotValid` exactly where the card is not valid, with the file that first fails and the place in it.
pub fn look<M: Medium>(port: &mut M, app: &Application) -> Result<CardLook, InsertFault>
    requires sizes { IsApplication app.now }
    requires fits { image_size_of app.now ≤ (M.state port.old).size }
    requires told { IfSome (M.state port.old).image (TellsSizes app.now) }
    ensures look { IfOk result (λ l. IfSome (M.state port.old).image (λ x. IsLook app.now x l)) }
    ensures bad { IfErr result (λ fault. IfNotValid fault (λ fid place. IfSome (M.state port.old).image
        (λ x. first_bad_file app.now x ≡ Some (fid, place)))) }
    ensures in_time { IfErr result (λ fault. IfTimeOverlap fault (λ stored now. ⊥)) }
    ensures reads { Reads (M.state port.old) (M.state port.new) (has_failed result) }
{
    let judged = judge(port, app)?;
    let mut bytes = [0; IDENTIFICATION];
    port.read_at(file_of(app, Fid::IDENTIFICATION).base, &mut bytes)?;
    Ok(CardLook {
        number: number_of(&bytes),
        surname: read_name(&bytes[SURNAME..SURNAME + Name36::SIZE]),
        first: read_name(&bytes[FIRST_NAMES..FIRST_NAMES + Name36::SIZE]),
        expiry: read_time(&bytes[EXPIRY..EXPIRY + TimeReal::SIZE]),
        session: judged.current.session.0,
        newest_minute: newest_minute(&judged),
        previous: judged.vehicle,
    })
}
