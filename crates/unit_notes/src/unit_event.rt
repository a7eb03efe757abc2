//! Events and faults.
ghost use Rattle.std.specs.Prelude.{◌≡◌, [], ◌∷◌, length};
ghost use Rattle.card_layout.specs.Fields.{joined};
ghost use Rattle.card_layout.specs.Images.{number_at};
ghost use Rattle.tacho_types.specs.CardNumber.{card_number_bytes};
ghost use Rattle.unit_notes.specs.Entries.{fault_bytes};

use tacho_types::{FullCardNumber, TimeReal, write_card_number, write_time};

/// An event or a fault of a unit (Appendix 1, VuEventRecord and VuFaultRecord).
#[derive(Clone, Copy, Debug, Default, PartialEq, Eq)]
pub struct UnitEvent {
    /// Its type, as EventFaultType numbers it.
    pub kind: u8,
    /// Why it is recorded, as EventFaultRecordPurpose numbers it.
    pub purpose: u8,
    /// Its first second.
    pub begin: TimeReal,
    /// Its last second.
    pub end: TimeReal,
    /// The card in the driver slot at its begin; zeros where there was none.
    pub driver_begin: FullCardNumber,
    /// The card in the co-driver slot at its begin; zeros where there was none.
    pub codriver_begin: FullCardNumber,
    /// The card in the driver slot at its end; zeros where there was none.
    pub driver_end: FullCardNumber,
    /// The card in the co-driver slot at its end; zeros where there was none.
    pub codriver_end: FullCardNumber,
    /// The number of similar events of its day. A call that notes an event counts them itself, and looks at no number
    /// that is handed in.
    pub similar: u8,
}

impl UnitEvent {
    /// Its size in bytes; a fault has no number of similar events, and so one byte less.
    pub const SIZE: usize = 83;
}

/// Writes an event but its number of similar events into 82 bytes.
#[tactic(auto, unfolding(crate::specs::Entries::fault_bytes))]
pub fn write_fault(v: &UnitEvent, out: &mut [u8])
    requires size { length out.old ≡ 82 }
    ensures bytes { out.new ≡ fault_bytes v.now }
    ensures begin { number_at out.new 2 4 ≡ v.now.begin.0 }
{
    let (kinds, out) = out.split_at_mut(2);
    kinds.copy_from_slice(&[v.kind, v.purpose]);
    let (begin, out) = out.split_at_mut(TimeReal::SIZE);
    write_time(v.begin, begin);
    let (end, cards) = out.split_at_mut(TimeReal::SIZE);
    write_time(v.end, end);
    write_cards(v, cards);
}

/// Writes the card numbers of an event.
fn write_cards(v: &UnitEvent, out: &mut [u8])
    requires size { length out.old ≡ 72 }
    ensures bytes { out.new ≡ joined (card_number_bytes v.now.driver_begin ∷ card_number_bytes v.now.codriver_begin
        ∷ card_number_bytes v.now.driver_end ∷ card_number_bytes v.now.codriver_end ∷ []) }
{
    let (driver_begin, out) = out.split_at_mut(FullCardNumber::SIZE);
    write_card_number(&v.driver_begin, driver_begin);
    let (codriver_begin, out) = out.split_at_mut(FullCardNumber::SIZE);
    write_card_number(&v.codriver_begin, codriver_begin);
    let (driver_end, codriver_end) = out.split_at_mut(FullCardNumber::SIZE);
    write_card_number(&v.driver_end, driver_end);
    write_card_number(&v.codriver_end, codriver_end);
}
