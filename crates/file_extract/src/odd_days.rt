//! The two pointers of a card's string of days set anew, where some of its days are odd.
ghost use Rattle.std.specs.Prelude.{◌≡◌, ℕ, ◌+◌, ◌≤◌, ◌<◌, ◌^◌, ◌++◌, ◌∷◌, [], length};
ghost use Rattle.std.specs.Prelude.{IfOk, IfSome, IfNone, IsSome, OnOk};
ghost use Rattle.std.specs.Bool.{OnTrue, OnFalse};
ghost use Rattle.file_extract.specs.Judged.{IsWhole};
ghost use Rattle.file_extract.specs.OddDays.{is_memory, pointed, from_to, IsNewestWhole, IsOldestWhole};
ghost use Rattle.file_extract.specs.OddDays.{places_back, places_in, IsPointed, IsPointedAnew};
ghost use Rattle.card_layout.specs.Images.{number_at};
ghost use Rattle.card_model.specs.declared.lengths.TheConstants.{DAYS_MOST};

use byteorder::{BigEndian, ByteOrder};
use card_model::lengths::DAYS_MOST;
use file_view::{ViewFault, day_heads, part};
use std::alloc::{AllocError, Global};

/// A card file whose pointers were set anew.
#[derive(Drop)]
pub struct Pointed {
    pub bytes: Vec<u8>,
    /// How many days newer than the newest one are left out.
    pub newest: usize,
    /// The number of the oldest day, counted from the newest that there was.
    pub oldest: usize,
}

/// The file with its pointers set anew, which stand at a place, and behind them the string of days; `None` where no day
/// that is reached is whole.
///
/// # Errors
///
/// `AllocError` where memory runs out.
pub fn point_anew(
    alloc: Global,
    b: &[u8],
    at: usize,
    size: usize,
) -> Result<Option<Pointed>, AllocError>
    requires inside { at + 4 + size ≤ length b.now }
    requires small { size < 2 ^ 16 }
    requires short { length b.now < 2 ^ 32 }
    ensures some { IfOk result (λ made. IfSome made (IsPointedAnew at size b.now)) }
    ensures none { IfOk result (λ made. IfNone made ((k : ℕ) → k < length (places_in DAYS_MOST at size b.now)
        → IsWhole (from_to at (places_in DAYS_MOST at size b.now) k k b.now) → ⊥)) }
{
    let string = part(b, at + 4, size);
    let place = two_in(b, at + 2);
    let places = places_back(alloc, string, place, DAYS_MOST as usize)?;
    match newest_whole(alloc, b, at, places.as_slice())? {
        Some(newest) => point_to(alloc, b, at, places.as_slice(), newest),
        None => Ok(None),
    }
}

/// The file with its pointers set to a whole day and to the oldest one to which the days before it go on.
fn point_to(
    alloc: Global,
    b: &[u8],
    at: usize,
    places: &[u16],
    newest: usize,
) -> Result<Option<Pointed>, AllocError>
    requires inside { at + 4 ≤ length b.now }
    requires short { length b.now < 2 ^ 32 }
    requires whole { IsNewestWhole at places.now b.now newest }
    ensures some { IfOk result (λ made. IfSome made (IsPointed at places.now b.now)) }
    ensures is { IfOk result (λ made. IsSome made) }
{
    let oldest = oldest_whole(alloc, b, at, places, newest)?;
    let bytes = with_pointers(alloc, b, at, places[oldest], places[newest])?;
    Ok(Some(Pointed {
        bytes,
        newest,
        oldest,
    }))
}

/// The places of days in a string, from the newest one back by the lengths that the days tell of those before them; at
/// most so many.
fn places_back(
    alloc: Global,
    string: &[u8],
    newest: u16,
    most: usize,
) -> Result<Vec<u16>, AllocError>
    requires { length string.now < 2 ^ 16 }
    ensures { IfOk result (λ places. places.items ≡ places_back most (length string.now) newest string.now) }
{
    let size = string.len();
    let mut places = Vec::new(alloc);
    let mut place = newest;
    let mut day = 0;
    while day < most {
        if size < place as usize + 2 {
            return Ok(places);
        }
        add_place(&mut places, place)?;
        let previous = two_in(string, place as usize) as usize;
        if previous == 0 {
            return Ok(places);
        }
        if size < previous {
            return Ok(places);
        }
        place = ((place as usize + size - previous) % size) as u16;
        day += 1;
    }
    Ok(places)
}

/// Adds a place.
fn add_place(places: &mut Vec<u16>, place: u16) -> Result<(), AllocError>
    ensures { OnOk result (places.new.items ≡ places.old.items ++ place ∷ []) }
{
    places.push(place)?;
    Ok(())
}

/// The number in two bytes, the highest first.
fn two_in(b: &[u8], place: usize) -> u16
    requires { place + 2 ≤ length b.now }
    ensures { result ≡ number_at b.now place 2 }
{
    BigEndian::read_u16(part(b, place, 2))
}

/// Whether the bytes are a card file.
fn is_whole(alloc: Global, b: &[u8]) -> Result<bool, AllocError>
    requires { length b.now < 2 ^ 32 }
    ensures yes { IfOk result (λ whole. OnTrue whole (IsWhole b.now)) }
    ensures no { IfOk result (λ whole. OnFalse whole (IsWhole b.now → ⊥)) }
{
    let Err(fault) = day_heads(alloc, b) else {
        return Ok(true);
    };
    if is_memory(fault) {
        return Err(AllocError);
    }
    Ok(false)
}

/// Whether memory ran out.
fn is_memory(fault: ViewFault) -> bool
    ensures { result ≡ is_memory fault }
{
    match fault {
        ViewFault::BadFile(_) => false,
        ViewFault::Memory => true,
    }
}

/// A file with these pointers to the oldest day and to the newest, which stand at a place.
fn with_pointers(
    alloc: Global,
    b: &[u8],
    at: usize,
    oldest: u16,
    newest: u16,
) -> Result<Vec<u8>, AllocError>
    requires { at + 4 ≤ length b.now }
    ensures { IfOk result (λ out. out.items ≡ pointed at oldest newest b.now) }
{
    let pointers = [
        (oldest / 256) as u8,
        (oldest % 256) as u8,
        (newest / 256) as u8,
        (newest % 256) as u8,
    ];
    let mut out = Vec::new(alloc);
    out.extend_from_slice(&b[..at])?;
    out.extend_from_slice(&pointers)?;
    out.extend_from_slice(&b[at + 4..])?;
    Ok(out)
}

/// Whether the file is a card file with these pointers.
fn is_whole_with(
    alloc: Global,
    b: &[u8],
    at: usize,
    oldest: u16,
    newest: u16,
) -> Result<bool, AllocError>
    requires inside { at + 4 ≤ length b.now }
    requires short { length b.now < 2 ^ 32 }
    ensures yes { IfOk result (λ whole. OnTrue whole (IsWhole (pointed at oldest newest b.now))) }
    ensures no { IfOk result (λ whole. OnFalse whole (IsWhole (pointed at oldest newest b.now) → ⊥)) }
{
    let out = with_pointers(alloc, b, at, oldest, newest)?;
    is_whole(alloc, out.as_slice())
}

/// The number of the newest of these places whose day is whole by itself.
pub fn newest_whole(
    alloc: Global,
    b: &[u8],
    at: usize,
    places: &[u16],
) -> Result<Option<usize>, AllocError>
    requires inside { at + 4 ≤ length b.now }
    requires short { length b.now < 2 ^ 32 }
    ensures some { IfOk result (λ found. IfSome found (IsNewestWhole at places.now b.now)) }
    ensures none { IfOk result (λ found. IfNone found ((k : ℕ) → k < length places.now
        → IsWhole (from_to at places.now k k b.now) → ⊥)) }
{
    for i in 0..places.len() {
        let place = places[i];
        if is_whole_with(alloc, b, at, place, place)? {
            return Ok(Some(i));
        }
    }
    Ok(None)
}

/// The number of the oldest place to which the days from a whole one back are whole together.
pub fn oldest_whole(
    alloc: Global,
    b: &[u8],
    at: usize,
    places: &[u16],
    newest: usize,
) -> Result<usize, AllocError>
    requires inside { at + 4 ≤ length b.now }
    requires short { length b.now < 2 ^ 32 }
    requires whole { IsNewestWhole at places.now b.now newest }
    ensures { IfOk result (IsOldestWhole at places.now b.now newest) }
{
    let last = places[newest];
    let mut oldest = newest;
    while oldest + 1 < places.len() {
        if !is_whole_with(alloc, b, at, places[oldest + 1], last)? {
            return Ok(oldest);
        }
        oldest += 1;
    }
    Ok(oldest)
}
