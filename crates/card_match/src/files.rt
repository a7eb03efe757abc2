//! A card file against a unit file.
ghost use Rattle.std.specs.Prelude.{◌≡◌, ◌<◌, ◌≤◌, ◌^◌, Some, List, length, IfOk, IfErr};
ghost use Rattle.message_model.specs.Messages.{Message, IsUnitFile};
ghost use Rattle.file_view.specs.Fronts.{registration_in};
ghost use Rattle.card_match.specs.Files.{is_of, use_of, uses_of, MatchesFiles, ComparesFiles, IsBadUnit, IsMatchFault};
ghost use Rattle.card_match.specs.Files.{MatchesSource, ComparesSource, IsBadSource};
ghost use Rattle.card_match.specs.Faults.{IfBadSource};
ghost use Rattle.card_match.specs.Text.{IsDated, AreDatedRuns};

use crate::cases::Use;
use crate::entries::compare_entries;
use crate::verdict::{Differences, Matched};
use card_files::Vehicle;
use file_view::{ViewFault, read_card, read_download, read_front};
use std::alloc::{AllocError, Global};
use tacho_types::Registration;

/// Why two files were not compared.
#[derive(Clone, Copy, Debug, PartialEq, Eq)]
pub enum MatchFault {
    /// The first bytes are no unit file, first at this place, or one without an overview, and this is its length.
    BadUnitFile(u32),
    /// The others are no card file, first at this place, or their length where a needed entry is missing.
    BadCardFile(u32),
    /// Out of memory.
    Memory,
}

impl From<AllocError> for MatchFault {
    ghost use Rattle.std.specs.Prelude.{◌≡◌};
    ghost use Rattle.card_match.specs.declared.files.MatchFault.TheVariants.{Memory};

    ghost from_gives = { λ _ fault. fault ≡ Memory };

    fn from(_error: AllocError) -> MatchFault {
        MatchFault::Memory
    }
}

/// Matches the entries of a card file against the minutes of a unit file: the first that differs, or the counts.
///
/// # Errors
///
/// As `compare_files`.
pub fn match_files(alloc: Global, unit: &[u8], card: &[u8]) -> Result<Matched, MatchFault>
    requires unit { length unit.now < 2 ^ 32 }
    requires card { length card.now < 2 ^ 32 }
    ensures matched { IfOk result (λ matched. MatchesFiles unit.now card.now matched) }
    ensures dated { IfOk result IsDated }
    ensures bad { IfErr result (IsMatchFault unit.now card.now) }
{
    let all = compare_files(alloc, unit, card)?;
    Ok(all.first())
}

/// Compares the entries of a card file with the minutes of a unit file: all that differ, and the counts.
///
/// # Errors
///
/// 1. `BadUnitFile` where the first bytes are no unit file, with the place of the first message that is not in its
///    grammar, or one without an overview, with its length.
/// 2. `BadCardFile` where the others are no card file, with the place of the first entry that is not in its grammar, or
///    their length where a needed entry is missing.
/// 3. `Memory`.
pub fn compare_files(alloc: Global, unit: &[u8], card: &[u8]) -> Result<Differences, MatchFault>
    requires unit { length unit.now < 2 ^ 32 }
    requires card { length card.now < 2 ^ 32 }
    ensures compared { IfOk result (λ all. ComparesFiles unit.now card.now all) }
    ensures dated { IfOk result (λ all. AreDatedRuns all.runs.items) }
    ensures bad { IfErr result (IsMatchFault unit.now card.now) }
{
    let registration = match registration_of(unit) {
        Ok(registration) => registration,
        Err(place) => return Err(MatchFault::BadUnitFile(place)),
    };
    let minutes = match read_download(alloc, unit) {
        Ok(minutes) => minutes,
        Err(ViewFault::BadFile(place)) => return Err(MatchFault::BadUnitFile(place)),
        Err(ViewFault::Memory) => return Err(MatchFault::Memory),
    };
    let read = match read_card(alloc, card) {
        Ok(read) => read,
        Err(ViewFault::BadFile(place)) => return Err(MatchFault::BadCardFile(place)),
        Err(ViewFault::Memory) => return Err(MatchFault::Memory),
    };
    let uses = uses_of(alloc, read.vehicles.as_slice(), registration)?;
    let all = compare_entries(
        alloc,
        uses.as_slice(),
        minutes.lines(),
        read.history.lines(),
    )?;
    Ok(all)
}

/// The registration that the first overview of a unit file tells.
fn registration_of(unit: &[u8]) -> Result<Registration, u32>
    requires { length unit.now < 2 ^ 32 }
    ensures told { IfOk result (λ r. (messages : List Message) × IsUnitFile messages unit.now
        × (registration_in messages ≡ Some r.0)) }
    ensures bad { IfErr result (λ place. IsBadUnit place unit.now) }
{
    let front = read_front(unit)?;
    if front.end < unit.len() {
        return Err(front.end as u32);
    }
    match front.registration {
        Some(registration) => Ok(registration),
        None => Err(unit.len() as u32),
    }
}

/// The uses of the vehicle of this registration.
fn uses_of(
    alloc: Global,
    vehicles: &[Vehicle],
    registration: Registration,
) -> Result<Vec<Use>, AllocError>
    ensures { IfOk result (λ uses. uses.items ≡ uses_of registration.0 vehicles.now) }
{
    let mut uses = Vec::new(alloc);
    for v in vehicles {
        if is_of(v, registration) {
            uses.push(use_of(v))?;
        }
    }
    Ok(uses)
}

/// Whether a vehicle entry is one of this registration.
fn is_of(v: &Vehicle, registration: Registration) -> bool
    ensures { result ≡ is_of registration.0 v.now }
{
    v.registration.0 == registration.0
}

/// The minutes of a vehicle entry's use.
fn use_of(v: &Vehicle) -> Use
    ensures { result ≡ use_of v.now }
{
    Use {
        first: v.first_use.0 / 60,
        last: v.last_use.0 / 60,
    }
}

/// Why a source was not compared.
#[derive(Clone, Copy, Debug, PartialEq, Eq)]
pub enum SourceFault {
    /// The source is no unit file followed at once by a card file, first at this place.
    BadFile(u32),
    /// Out of memory.
    Memory,
}

/// Matches a source: a unit file, whose messages go on as long as the next byte is 76, and behind it a card file.
///
/// # Errors
///
/// As `compare_source`.
pub fn match_source(alloc: Global, b: &[u8]) -> Result<Matched, SourceFault>
    requires { length b.now < 2 ^ 32 }
    ensures matched { IfOk result (MatchesSource b.now) }
    ensures dated { IfOk result IsDated }
    ensures bad { IfErr result (λ fault. IfBadSource fault (λ place. IsBadSource place b.now)) }
{
    let all = compare_source(alloc, b)?;
    Ok(all.first())
}

/// Compares the two files of such a source.
///
/// # Errors
///
/// 1. `BadFile` where the source is no unit file with an overview, followed at once by a card file: with the place, in
///    the source, of the first message or entry that is not in its grammar, or of the end of the file that lacks
///    something.
/// 2. `Memory`.
pub fn compare_source(alloc: Global, b: &[u8]) -> Result<Differences, SourceFault>
    requires { length b.now < 2 ^ 32 }
    ensures compared { IfOk result (ComparesSource b.now) }
    ensures dated { IfOk result (λ all. AreDatedRuns all.runs.items) }
    ensures bad { IfErr result (λ fault. IfBadSource fault (λ place. IsBadSource place b.now)) }
{
    let front = match read_front(b) {
        Ok(front) => front,
        Err(place) => return Err(SourceFault::BadFile(place)),
    };
    let (unit, card) = b.split_at(front.end);
    match compare_files(alloc, unit, card) {
        Ok(all) => Ok(all),
        Err(MatchFault::BadUnitFile(place)) => Err(SourceFault::BadFile(place)),
        Err(MatchFault::BadCardFile(place)) => {
            Err(SourceFault::BadFile(front.end as u32 + place))
        }
        Err(MatchFault::Memory) => Err(SourceFault::Memory),
    }
}
