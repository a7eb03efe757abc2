//! Insertions of cards.
ghost use Rattle.std.specs.Prelude.{◌≡◌, ◌+◌, ◌^◌, ◌<◌, length};
ghost use Rattle.card_layout.specs.Fields.{joined};
ghost use Rattle.card_layout.specs.Images.{number_at};
ghost use Rattle.unit_notes.specs.Entries.{holder_fields, use_fields, insertion_bytes};

use tacho_types::{
    FullCardNumber, Name36, Odometer, Registration, TimeReal, write_card_number, write_name,
    write_odometer, write_registration, write_time,
};

/// An insertion of a card, and its withdrawal (Appendix 1, VuCardIWRecord).
#[derive(Clone, Copy, Debug, PartialEq, Eq)]
pub struct Insertion {
    /// The surname of the card's holder.
    pub surname: Name36,
    /// The first names of the holder.
    pub first: Name36,
    /// The number of the card.
    pub number: FullCardNumber,
    /// When the card expires.
    pub expiry: TimeReal,
    /// When it was inserted.
    pub time: TimeReal,
    /// The odometer then, in km.
    pub odometer: Odometer,
    /// 0 the driver slot, 1 the co-driver slot.
    pub slot: u8,
    /// When it was withdrawn; 0 where it was not yet.
    pub out_time: TimeReal,
    /// The odometer then, in km; 0 where it was not yet.
    pub out_odometer: Odometer,
    /// The vehicle that the card was used in before; zeros where there is none.
    pub previous: Registration,
    /// When it was withdrawn there; 0 where there is none.
    pub previous_time: TimeReal,
    /// 1 where the driver entered something by hand, else 0.
    pub manual: u8,
}

impl Insertion {
    /// Its size in bytes.
    pub const SIZE: usize = 129;
}

/// What is known of the card's holder: names, card number and expiry.
const HOLDER: usize = 94;

/// Writes an insertion.
#[tactic(auto, unfolding(crate::specs::Entries::insertion_bytes))]
pub fn write_insertion(v: &Insertion, out: &mut [u8])
    requires size { length out.old ≡ Insertion.SIZE }
    requires odometer { v.now.odometer.0 < 2 ^ 24 }
    requires out_odometer { v.now.out_odometer.0 < 2 ^ 24 }
    ensures bytes { out.new ≡ insertion_bytes v.now }
    ensures time { number_at out.new HOLDER 4 ≡ v.now.time.0 }
{
    let (holder, behind) = out.split_at_mut(HOLDER);
    write_holder(v, holder);
    write_use(v, behind);
}

/// Writes what an insertion tells of the card's holder.
fn write_holder(v: &Insertion, out: &mut [u8])
    requires size { length out.old ≡ HOLDER }
    ensures bytes { out.new ≡ joined (holder_fields v.now) }
{
    let (surname, out) = out.split_at_mut(Name36::SIZE);
    write_name(&v.surname, surname);
    let (first, out) = out.split_at_mut(Name36::SIZE);
    write_name(&v.first, first);
    let (number, expiry) = out.split_at_mut(FullCardNumber::SIZE);
    write_card_number(&v.number, number);
    write_time(v.expiry, expiry);
}

/// Writes what an insertion tells behind its holder: times, odometer values, the slot and the previous vehicle.
fn write_use(v: &Insertion, out: &mut [u8])
    requires size { HOLDER + length out.old ≡ Insertion.SIZE }
    requires odometer { v.now.odometer.0 < 2 ^ 24 }
    requires out_odometer { v.now.out_odometer.0 < 2 ^ 24 }
    ensures bytes { out.new ≡ joined (use_fields v.now) }
    ensures time { number_at out.new 0 4 ≡ v.now.time.0 }
{
    let (time, out) = out.split_at_mut(TimeReal::SIZE);
    write_time(v.time, time);
    let (odometer, out) = out.split_at_mut(Odometer::SIZE);
    write_odometer(v.odometer, odometer);
    let (slot, out) = out.split_at_mut(1);
    slot.copy_from_slice(&[v.slot]);
    let (out_time, out) = out.split_at_mut(TimeReal::SIZE);
    write_time(v.out_time, out_time);
    let (out_odometer, out) = out.split_at_mut(Odometer::SIZE);
    write_odometer(v.out_odometer, out_odometer);
    let (previous, out) = out.split_at_mut(Registration::SIZE);
    write_registration(&v.previous, previous);
    let (previous_time, manual) = out.split_at_mut(TimeReal::SIZE);
    write_time(v.previous_time, previous_time);
    manual.copy_from_slice(&[v.manual]);
}
