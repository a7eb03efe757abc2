//! The writes of the adapter, each of which leaves an old or a new memory at each moment.
ghost use Rattle.std.specs.Prelude.{◌≡◌, ◌≤◌, ◌<◌, ◌+◌, ◌-◌, ◌^◌, ◌*◌, ◌%◌, length, take, IfOk, IfSome, OnOk, is_err};
ghost use Rattle.std.specs.Prelude.{true, ◌++◌};
ghost use Rattle.tach_media.specs.Medium.{Reads, put};
ghost use Rattle.sector_medium.specs.Redo.{record_place, recovered, is_gate, window, IsOpen, IsShut, IsReady};
ghost use Rattle.sector_medium.specs.Redo.{IsAround, IsHalfDone};
ghost use Rattle.sector_medium.specs.declared.found.Found.TheVariants.{Unknown};
ghost use Rattle.sector_medium.specs.Recovered.{on_disk, HasRoom, Changes, IsKnown};

use crate::record::place_behind;
use crate::{Disk, Found, Redo};
use tach_media::Failed;

/// Shuts the gate of a record of which nothing is to be done.
fn shut<D: Disk>(disk: &mut D, size: u32) -> Result<(), Failed>
    requires room { HasRoom size (D.state disk.old) }
    requires done { IfSome (D.state disk.old).image (λ d. recovered size d ≡ take size d) }
    ensures reads { Reads (on_disk size (D.state disk.old)) (on_disk size (D.state disk.new)) (is_err result) }
    ensures shut { OnOk result (IfSome (D.state disk.new).image (IsShut size)) }
    ensures room { HasRoom size (D.state disk.new) }
{
    disk.write_at(place_behind(size), &[0; 4])
}

/// Writes what a record says of the bytes before its border.
fn before<D: Disk>(disk: &mut D, size: u32, place: u32, bytes: &[u8; 6]) -> Result<(), Failed>
    requires room { HasRoom size (D.state disk.old) }
    requires open { IfSome (D.state disk.old).image (IsOpen size place bytes.now) }
    requires around { IsAround size place }
    ensures reads { Reads (on_disk size (D.state disk.old)) (on_disk size (D.state disk.new)) (is_err result) }
    ensures half { OnOk result (IfSome (D.state disk.new).image (IsHalfDone size place bytes.now)) }
    ensures room { HasRoom size (D.state disk.new) }
{
    disk.write_at(place, &bytes[..3])
}

/// Writes what a record says of the bytes behind its border. What is recovered stands in place then.
fn behind<D: Disk>(disk: &mut D, size: u32, place: u32, bytes: &[u8; 6]) -> Result<(), Failed>
    requires room { HasRoom size (D.state disk.old) }
    requires half { IfSome (D.state disk.old).image (IsHalfDone size place bytes.now) }
    requires around { IsAround size place }
    ensures reads { Reads (on_disk size (D.state disk.old)) (on_disk size (D.state disk.new)) (is_err result) }
    ensures done { OnOk result (IfSome (D.state disk.new).image (λ d. recovered size d ≡ take size d)) }
    ensures room { HasRoom size (D.state disk.new) }
{
    disk.write_at(place + 3, &bytes[3..])
}

/// Does a record again, one side after the other, and shuts its gate.
fn finish<D: Disk>(disk: &mut D, size: u32, redo: &Redo) -> Result<(), Failed>
    requires room { HasRoom size (D.state disk.old) }
    requires open { IfSome (D.state disk.old).image (IsOpen size redo.now.place redo.now.bytes) }
    requires around { IsAround size redo.now.place }
    ensures reads { Reads (on_disk size (D.state disk.old)) (on_disk size (D.state disk.new)) (is_err result) }
    ensures shut { OnOk result (IfSome (D.state disk.new).image (IsShut size)) }
    ensures room { HasRoom size (D.state disk.new) }
{
    before(disk, size, redo.place, &redo.bytes)?;
    behind(disk, size, redo.place, &redo.bytes)?;
    shut(disk, size)
}

/// Does what was found behind an image, so that the gate is shut.
pub fn settle<D: Disk>(disk: &mut D, size: u32, found: &Found) -> Result<(), Failed>
    requires room { HasRoom size (D.state disk.old) }
    requires known { IsKnown size found.now (D.state disk.old) }
    requires seen { found.now ≡ Unknown → ⊥ }
    ensures reads { Reads (on_disk size (D.state disk.old)) (on_disk size (D.state disk.new)) (is_err result) }
    ensures shut { OnOk result (IfSome (D.state disk.new).image (IsShut size)) }
    ensures room { HasRoom size (D.state disk.new) }
{
    match found {
        Found::Unknown | Found::Closed => Ok(()),
        Found::Stale => shut(disk, size),
        Found::Open(redo) => finish(disk, size, redo),
    }
}

/// Six bytes with others at a place.
fn changed(old: &[u8; 6], from: usize, bytes: &[u8]) -> [u8; 6]
    requires { from + length bytes.now ≤ 6 }
    ensures { result ≡ put from bytes.now old.now }
{
    let mut new = *old;
    new[from..from + bytes.len()].copy_from_slice(bytes);
    new
}

/// The bytes of a record behind its gate.
fn record_of(old: &[u8; 6], new: &[u8; 6]) -> [u8; 12]
    ensures { result ≡ old.now ++ new.now }
{
    let mut record = [0; 12];
    record[..6].copy_from_slice(old);
    record[6..].copy_from_slice(new);
    record
}

/// Writes the record of a write around a border, behind a gate that is shut. Gives the bytes that are to stand there.
fn prepare<D: Disk>(
    disk: &mut D,
    size: u32,
    at: u32,
    place: u32,
    bytes: &[u8],
) -> Result<[u8; 6], Failed>
    requires room { HasRoom size (D.state disk.old) }
    requires shut { IfSome (D.state disk.old).image (IsShut size) }
    requires inside { at + 6 ≤ record_place size }
    requires behind { at ≤ place }
    requires short { place + length bytes.now ≤ at + 6 }
    ensures reads { Reads (on_disk size (D.state disk.old)) (on_disk size (D.state disk.new)) (is_err result) }
    ensures ready { IfOk result (λ new. IfSome (D.state disk.new).image (IsReady size at place bytes.now new)) }
    ensures room { HasRoom size (D.state disk.new) }
{
    let mut old = [0; 6];
    disk.read_at(at, &mut old)?;
    let new = changed(&old, (place - at) as usize, bytes);
    disk.write_at(place_behind(size) + 4, &record_of(&old, &new))?;
    Ok(new)
}

/// Opens the gate of a record that is ready: from this write on it is done.
fn commit<D: Disk>(
    disk: &mut D,
    size: u32,
    border: u32,
    place: u32,
    bytes: &[u8],
    redo: &Redo,
) -> Result<(), Failed>
    requires room { HasRoom size (D.state disk.old) }
    requires border { is_gate size border ≡ true }
    requires at { redo.now.place ≡ window border }
    requires ready { IfSome (D.state disk.old).image (IsReady size redo.now.place place bytes.now redo.now.bytes) }
    requires behind { redo.now.place ≤ place }
    requires short { place + length bytes.now ≤ redo.now.place + 6 }
    requires inside { place + length bytes.now ≤ size }
    ensures changes { Changes (on_disk size (D.state disk.old)) (on_disk size (D.state disk.new)) (is_err result) place
        bytes.now }
    ensures open { OnOk result (IfSome (D.state disk.new).image (IsOpen size redo.now.place redo.now.bytes)) }
    ensures room { HasRoom size (D.state disk.new) }
{
    // for the contract alone
    let _ = place;
    let _ = bytes;
    let _ = redo;
    disk.write_at(place_behind(size), &border.to_be_bytes())
}

/// Writes at most four bytes across a border of two sectors.
fn cross<D: Disk>(disk: &mut D, size: u32, place: u32, bytes: &[u8]) -> Result<(), Failed>
    requires room { HasRoom size (D.state disk.old) }
    requires shut { IfSome (D.state disk.old).image (IsShut size) }
    requires short { length bytes.now ≤ 4 }
    requires crosses { 512 < place % 512 + length bytes.now }
    requires inside { place + length bytes.now ≤ size }
    ensures changes { Changes (on_disk size (D.state disk.old)) (on_disk size (D.state disk.new)) (is_err result) place
        bytes.now }
    ensures shut { OnOk result (IfSome (D.state disk.new).image (IsShut size)) }
    ensures room { HasRoom size (D.state disk.new) }
{
    let border = place / 512 + 1;
    let at = border * 512 - 3;
    let new = prepare(disk, size, at, place, bytes)?;
    let redo = Redo {
        place: at,
        bytes: new,
    };
    commit(disk, size, border, place, bytes, &redo)?;
    finish(disk, size, &redo)
}

/// Writes bytes where they are to stand.
fn write_there<D: Disk>(disk: &mut D, size: u32, place: u32, bytes: &[u8]) -> Result<(), Failed>
    requires room { HasRoom size (D.state disk.old) }
    requires shut { IfSome (D.state disk.old).image (IsShut size) }
    requires whole { length bytes.now ≤ 4 → place % 512 + length bytes.now ≤ 512 }
    requires inside { place + length bytes.now ≤ size }
    ensures changes { Changes (on_disk size (D.state disk.old)) (on_disk size (D.state disk.new)) (is_err result) place
        bytes.now }
    ensures shut { OnOk result (IfSome (D.state disk.new).image (IsShut size)) }
    ensures room { HasRoom size (D.state disk.new) }
{
    disk.write_at(place, bytes)
}

/// Writes bytes behind a gate that is shut.
pub fn store<D: Disk>(disk: &mut D, size: u32, place: u32, bytes: &[u8]) -> Result<(), Failed>
    requires room { HasRoom size (D.state disk.old) }
    requires shut { IfSome (D.state disk.old).image (IsShut size) }
    requires inside { place + length bytes.now ≤ size }
    ensures changes { Changes (on_disk size (D.state disk.old)) (on_disk size (D.state disk.new)) (is_err result) place
        bytes.now }
    ensures shut { OnOk result (IfSome (D.state disk.new).image (IsShut size)) }
    ensures room { HasRoom size (D.state disk.new) }
{
    if bytes.len() <= 4 && 512 < place as usize % 512 + bytes.len() {
        cross(disk, size, place, bytes)
    } else {
        write_there(disk, size, place, bytes)
    }
}
