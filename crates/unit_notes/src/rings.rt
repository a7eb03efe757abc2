//! The rings of insertions and places, and what is written in them.
ghost use Rattle.std.specs.Prelude.{◌≡◌, ◌≤◌, ◌<◌, ◌+◌, ◌^◌, length, IfSome, OnOk, is_err};
ghost use Rattle.card_layout.specs.Images.{number_at};
ghost use Rattle.tach_media.specs.Medium.{LeavesOnly, HasCause, IsSettled, Rose, last_count};
ghost use Rattle.gated_ring.specs.Change.{IsSet, OrUnwritten};
ghost use Rattle.unit_model.specs.Image.{IsUnit};
ghost use Rattle.message_model.specs.Records.{insertion_ring, unit_place_ring};
ghost use Rattle.unit_notes.specs.Entries.{unit_place_bytes};

use crate::Insertion;
use gated_ring::Ring;
use tach_media::{Failed, Medium};
use tacho_types::{FullCardNumber, PlaceEntry, write_card_number, write_place};
use unit_model::layout::{INSERTION_SLOTS, INSERTIONS, PLACE_SLOTS, PLACES};

/// The width of the pointers before the insertions and the places.
const POINTER: u8 = 4;

/// Where an insertion has its time.
const TIME: u32 = 94;

/// Where it has the time of its withdrawal.
pub const OUT_TIME: u32 = 102;

/// Where it has the odometer then.
pub const OUT_ODOMETER: u32 = 106;

/// The size of a place of a card's holder, which begins with the card's number.
pub const PLACE_SIZE: usize = FullCardNumber::SIZE + PlaceEntry::SIZE;

/// The ring of insertions, whose pointer is below its count in each unit that decodes.
pub fn insertions() -> Ring
    ensures { result ≡ insertion_ring }
{
    Ring::at(
        INSERTIONS.place,
        Insertion::SIZE as u32,
        INSERTION_SLOTS,
        POINTER,
        TIME,
    )
}

/// The ring of places, of which the same holds.
pub fn places() -> Ring
    ensures { result ≡ unit_place_ring }
{
    Ring::at(
        PLACES.place,
        PLACE_SIZE as u32,
        PLACE_SLOTS,
        POINTER,
        FullCardNumber::SIZE as u32,
    )
}

/// Writes a few bytes of an insertion behind its time.
///
/// # Errors
///
/// `Failed` where the unit failed; then they may be there or not.
pub fn set_part<M: Medium>(
    unit: &mut M,
    index: u32,
    offset: u32,
    bytes: &[u8],
) -> Result<(), Failed>
    requires unit { IsUnit (M.state unit.old) }
    requires index { index < insertion_ring.count }
    requires behind { TIME + 4 ≤ offset }
    requires inside { offset + length bytes.now ≤ Insertion.SIZE }
    requires some { 0 < length bytes.now }
    requires few { length bytes.now ≤ 4 }
    ensures set { OnOk result (IfSome (M.state unit.old).image
        (λ x. IfSome (M.state unit.new).image (IsSet insertion_ring index offset bytes.now x))) }
    ensures moments { LeavesOnly (M.state unit.old) (M.state unit.new)
        (OrUnwritten (IsSet insertion_ring index offset bytes.now)) }
    ensures settled { OnOk result ((M.state unit.new).clock < last_count → IsSettled (M.state unit.new)) }
    ensures clock { OnOk result (Rose (M.state unit.old).clock (M.state unit.new).clock) }
    ensures cause { HasCause (M.state unit.old) (M.state unit.new) (is_err result) }
    ensures most { (M.state unit.new).clock ≤ (M.state unit.old).clock + 1 }
{
    insertions().set_small(unit, index, offset, bytes)
}

/// Writes a place of a card's holder.
pub fn write_unit_place(number: &FullCardNumber, entry: &PlaceEntry, out: &mut [u8])
    requires size { length out.old ≡ PLACE_SIZE }
    requires odometer { entry.now.odometer.0 < 2 ^ 24 }
    ensures bytes { out.new ≡ unit_place_bytes number.now entry.now }
    ensures time { number_at out.new FullCardNumber.SIZE 4 ≡ entry.now.time.0 }
{
    let (front, place) = out.split_at_mut(FullCardNumber::SIZE);
    write_card_number(number, front);
    write_place(entry, place);
}
