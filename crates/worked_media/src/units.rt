//! Units and cards in memory: their images, and new ones.
ghost use Rattle.std.specs.Prelude.{IfOk, ◌≤◌};
ghost use Rattle.tach_media.specs.MemMedium.{memory_state};
ghost use Rattle.card_layout.specs.declared.files.TheConstants.{LARGEST_IMAGE};
ghost use Rattle.unit_model.specs.Image.{IsUnit};

use crate::fault::Untold;
use crate::image::{empty, put};
use crate::media::{Room, card_with, unit_with};
use card_commands::SimCard;
use card_files::{CardIdentity, blank_card};
use card_layout::{Application, LARGEST, LARGEST_IMAGE};
use std::alloc::{AllocError, Global};
use tach_media::{Left, Medium, MemMedium, Memory, Stop};
use tacho_types::{FullCardNumber, Name36, Nation};
use unit_model::layout::{IMAGE_SIZE, RULE_BYTE, VERSION};

/// 2010-03-01 00:00, in seconds since 1970-01-01 00:00 GMT.
pub const T0: u32 = 1267401600;

/// Its minute.
pub const M0: u32 = 21123360;

/// The number of the first card.
pub const NUMBER_A: &[u8; 16] = b"DEMO000000000000";

/// And that of the second one.
pub const NUMBER_B: &[u8; 16] = b"DEMO000000000100";

/// The first card's identity.
pub const IDENTITY: CardIdentity = CardIdentity {
    state: Nation(13),
    number: *b"DEMO000000000000",
    surname: Name36(*b"\x01MUSTERMANN                         "),
    first: Name36(*b"\x01HEIKE                              "),
};

/// The sizes of the smallest card.
pub const SMALLEST: Application = Application {
    structure: 0,
    events: 6,
    faults: 12,
    activity: 5544,
    vehicles: 84,
    places: 84,
};

/// The room of a device that is only read.
pub const NO_ROOM: Room = Room {
    writes: 0,
    bytes: 0,
};

/// Where the speed limit of a unit's vehicle stands.
const LIMIT: usize = 36;

/// The image of a new unit, of a vehicle with this limit in km/h.
pub fn new_image(alloc: Global, limit: u8) -> Result<Vec<u8>, AllocError> {
    let mut image = empty(alloc, 0, 0, 0)?;
    put(image.as_mut_slice(), LIMIT, &[limit]);
    Ok(image)
}

/// The image of such a unit that was upgraded: version 2, with the amended rule of minutes.
pub fn upgraded_image(alloc: Global, limit: u8) -> Result<Vec<u8>, AllocError> {
    let mut image = new_image(alloc, limit)?;
    put(image.as_mut_slice(), RULE_BYTE.place as usize, &[1]);
    put(image.as_mut_slice(), VERSION.place as usize, &[0, 0, 0, 2]);
    Ok(image)
}

/// A new unit of a vehicle with this limit, whose calls stop so.
pub fn new_unit(alloc: Global, limit: u8, room: Room, stops: Vec<Stop>) -> Result<MemMedium, Memory>
    ensures { IfOk result (λ unit. IsUnit (memory_state unit.log unit.counts)) }
{
    unit_with(alloc, new_image(alloc, limit)?, room, stops)
}

/// The image of a unit that works again.
pub fn image_of<U: Medium>(alloc: Global, unit: &mut U) -> Result<Vec<u8>, Untold> {
    let mut image = vec![in alloc; 0u8; IMAGE_SIZE as usize]?;
    unit.revive()?;
    if unit.size() < IMAGE_SIZE || image.len() != IMAGE_SIZE as usize {
        return Err(Untold::Size);
    }
    unit.read_at(0, image.as_mut_slice())?;
    Ok(image)
}

/// A card's number, of these characters.
pub fn card_number(characters: &[u8; 16]) -> FullCardNumber {
    FullCardNumber {
        kind: 1,
        state: IDENTITY.state,
        number: *characters,
    }
}

/// The image of a new card of these sizes, with this number; behind its files are zeros, up to the size of the largest.
pub fn card_image(
    alloc: Global,
    number: &[u8; 16],
    sizes: &Application,
) -> Result<Vec<u8>, Memory> {
    let identity = CardIdentity {
        number: *number,
        ..IDENTITY
    };
    let blank = blank_card(alloc, &identity, sizes)?;
    let mut image = vec![in alloc; 0u8; LARGEST_IMAGE as usize]?;
    put(image.as_mut_slice(), 0, &blank);
    Ok(image)
}

/// A new card of the largest sizes with this number, whose calls stop so.
pub fn new_card(
    alloc: Global,
    number: &[u8; 16],
    room: Room,
    stops: Vec<Stop>,
) -> Result<SimCard<MemMedium>, Memory>
    ensures { IfOk result (λ card. LARGEST_IMAGE ≤ (memory_state card.medium.log card.medium.counts).size) }
{
    card_with(alloc, card_image(alloc, number, &LARGEST)?, room, stops)
}

/// A card of zeros, which is not valid.
pub fn card_of_zeros(alloc: Global, room: Room) -> Result<SimCard<MemMedium>, Memory>
    ensures { IfOk result (λ card. LARGEST_IMAGE ≤ (memory_state card.medium.log card.medium.counts).size) }
{
    let zeros = vec![in alloc; 0u8; LARGEST_IMAGE as usize]?;
    card_with(alloc, zeros, room, Vec::new(alloc))
}

/// One stop, of this call.
pub fn one_stop(alloc: Global, call: u64, left: Left) -> Result<Vec<Stop>, AllocError> {
    let mut stops = Vec::new(alloc);
    stops.push(Stop { call, left })?;
    Ok(stops)
}

/// So many stops, the first of this call, and each next one of a call so many later, and by so many more each time.
pub fn stops(
    alloc: Global,
    count: u32,
    first: u64,
    mut step: u64,
    more: u64,
    left: Left,
) -> Result<Vec<Stop>, AllocError> {
    let mut stops = Vec::new(alloc);
    let mut call = first;
    for _ in 0..count {
        stops.push(Stop { call, left })?;
        call = call.saturating_add(step);
        step = step.saturating_add(more);
    }
    Ok(stops)
}
