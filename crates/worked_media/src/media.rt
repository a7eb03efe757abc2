//! A unit and a card in memory, whose calls stop.
ghost use Rattle.std.specs.Prelude.{IfOk, ◌≤◌};
ghost use Rattle.tach_media.specs.MemMedium.{memory_state};
ghost use Rattle.card_layout.specs.declared.files.TheConstants.{LARGEST_IMAGE};
ghost use Rattle.unit_model.specs.Image.{IsUnit};

use card_commands::SimCard;
use card_layout::LARGEST_IMAGE;
use std::alloc::Global;
use tach_media::{MemMedium, Memory, Stop};
use unit_model::layout::IMAGE_SIZE;

/// The room of a device's log: so many writes, with so many bytes.
#[derive(Clone, Copy)]
pub struct Room {
    pub writes: u32,
    pub bytes: u32,
}

/// A unit with this image, whose calls stop so.
pub fn unit_with(
    alloc: Global,
    image: Vec<u8>,
    room: Room,
    stops: Vec<Stop>,
) -> Result<MemMedium, Memory>
    ensures { IfOk result (λ unit. IsUnit (memory_state unit.log unit.counts)) }
{
    if image.len() != IMAGE_SIZE as usize {
        return Err(Memory);
    }
    MemMedium::new(alloc, image, room.writes, room.bytes, stops)
}

/// A card with this image, whose calls stop so.
pub fn card_with(
    alloc: Global,
    image: Vec<u8>,
    room: Room,
    stops: Vec<Stop>,
) -> Result<SimCard<MemMedium>, Memory>
    ensures { IfOk result (λ card. LARGEST_IMAGE ≤ (memory_state card.medium.log card.medium.counts).size) }
{
    if image.len() != LARGEST_IMAGE as usize {
        return Err(Memory);
    }
    let medium = MemMedium::new(alloc, image, room.writes, room.bytes, stops)?;
    Ok(SimCard::new(medium))
}
