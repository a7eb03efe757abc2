//! The record behind an image, as it is read.
ghost use Rattle.std.specs.Prelude.{◌≡◌, ◌≤◌, ◌<◌, ◌+◌, ◌^◌, IfOk, IfSome, is_err, true};
ghost use Rattle.card_layout.specs.Images.{number_at};
ghost use Rattle.tach_media.specs.Medium.{Reads};
ghost use Rattle.sector_medium.specs.Redo.{record_place, gate_of, is_either, is_gate, is_matched};
ghost use Rattle.sector_medium.specs.declared.found.Found.TheVariants.{Unknown};
ghost use Rattle.sector_medium.specs.Recovered.{on_disk, HasRoom, IsKnown};

use crate::{Disk, Found, Redo};
use tach_media::Failed;

/// How many bytes the record has.
pub const RECORD_SIZE: u32 = 16;

/// The place of the record behind an image of so many bytes.
#[tactic(auto, unfolding(crate::specs::Redo::record_place))]
pub fn place_behind(size: u32) -> u32
    requires { record_place size < 2 ^ 32 }
    ensures { result ≡ record_place size }
{
    (size / 512 + 1) * 512
}

/// Whether a gate names a border inside the image.
#[tactic(auto, unfolding(crate::specs::Redo::is_gate))]
pub fn names_border(size: u32, gate: u32) -> bool
    ensures { result ≡ is_gate size gate }
{
    0 < gate && gate <= size / 512
}

/// The number in `len` bytes of a disk, at most four, the highest first.
fn read_number<D: Disk>(disk: &mut D, place: u32, len: u32) -> Result<u32, Failed>
    requires short { len ≤ 4 }
    requires inside { place + len ≤ (D.state disk.old).size }
    ensures value { IfOk result (λ n. IfSome (D.state disk.old).image (λ x. n ≡ number_at x place len)) }
    ensures reads { Reads (D.state disk.old) (D.state disk.new) (is_err result) }
{
    let mut bytes = [0; 4];
    let from = 4 - len as usize;
    disk.read_at(place, &mut bytes[from..])?;
    Ok(u32::from_be_bytes(bytes))
}

/// Whether three bytes of a disk are those of one of two other places.
#[tactic(auto, unfolding(crate::specs::Redo::is_either))]
fn either<D: Disk>(disk: &mut D, now: u32, old: u32, new: u32) -> Result<bool, Failed>
    requires now { now + 3 ≤ (D.state disk.old).size }
    requires old { old + 3 ≤ (D.state disk.old).size }
    requires new { new + 3 ≤ (D.state disk.old).size }
    ensures value { IfOk result (λ b. IfSome (D.state disk.old).image (λ x. b ≡ is_either x now old new)) }
    ensures reads { Reads (D.state disk.old) (D.state disk.new) (is_err result) }
{
    let now = read_number(disk, now, 3)?;
    let old = read_number(disk, old, 3)?;
    let new = read_number(disk, new, 3)?;
    Ok(now == old || now == new)
}

/// Whether what stands on both sides of a border is old or new by the record.
#[tactic(auto, unfolding(crate::specs::Redo::is_matched))]
fn matched<D: Disk>(disk: &mut D, size: u32, place: u32) -> Result<bool, Failed>
    requires room { record_place size + 16 ≤ (D.state disk.old).size }
    requires fits { record_place size + 16 < 2 ^ 32 }
    requires place { place + 6 ≤ record_place size }
    ensures value { IfOk result (λ b. IfSome (D.state disk.old).image (λ x. b ≡ is_matched size x place)) }
    ensures reads { Reads (D.state disk.old) (D.state disk.new) (is_err result) }
{
    let record = place_behind(size);
    let before = either(disk, place, record + 4, record + 10)?;
    let behind = either(disk, place + 3, record + 7, record + 13)?;
    Ok(before && behind)
}

/// Looks at the record of a gate that names a border.
fn look_around<D: Disk>(disk: &mut D, size: u32, gate: u32) -> Result<Found, Failed>
    requires room { record_place size + 16 ≤ (D.state disk.old).size }
    requires fits { record_place size + 16 < 2 ^ 32 }
    requires names { is_gate size gate ≡ true }
    requires gate { IfSome (D.state disk.old).image (λ x. gate ≡ gate_of size x) }
    ensures known { IfOk result (λ found. IsKnown size found (D.state disk.new)) }
    ensures seen { IfOk result (λ found. found ≡ Unknown → ⊥) }
    ensures reads { Reads (D.state disk.old) (D.state disk.new) (is_err result) }
{
    let place = gate * 512 - 3;
    let same = matched(disk, size, place)?;
    if !same {
        return Ok(Found::Stale);
    }
    let mut bytes = [0; 6];
    disk.read_at(place_behind(size) + 10, &mut bytes)?;
    Ok(Found::Open(Redo { place, bytes }))
}

/// Looks at what stands behind an image.
pub fn look<D: Disk>(disk: &mut D, size: u32) -> Result<Found, Failed>
    requires room { record_place size + 16 ≤ (D.state disk.old).size }
    requires fits { record_place size + 16 < 2 ^ 32 }
    ensures known { IfOk result (λ found. IsKnown size found (D.state disk.new)) }
    ensures seen { IfOk result (λ found. found ≡ Unknown → ⊥) }
    ensures reads { Reads (D.state disk.old) (D.state disk.new) (is_err result) }
{
    let gate = read_number(disk, place_behind(size), 4)?;
    if names_border(size, gate) {
        look_around(disk, size, gate)
    } else {
        Ok(Found::Closed)
    }
}

/// What stands behind an image: what was seen since the last call that failed, or what a look finds.
pub fn seen<D: Disk>(disk: &mut D, size: u32, found: Found) -> Result<Found, Failed>
    requires room { HasRoom size (D.state disk.old) }
    requires known { IsKnown size found (D.state disk.old) }
    ensures known { IfOk result (λ found. IsKnown size found (D.state disk.new)) }
    ensures seen { IfOk result (λ found. found ≡ Unknown → ⊥) }
    ensures reads { Reads (on_disk size (D.state disk.old)) (on_disk size (D.state disk.new)) (is_err result) }
    ensures room { HasRoom size (D.state disk.new) }
{
    match found {
        Found::Unknown => look(disk, size),
        known => Ok(known),
    }
}
