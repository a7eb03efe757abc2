//! A minute as it is kept.
use tacho_types::Odometer;
use unit_model::State;

/// A minute that is kept: its number, what the unit holds of both slots, and the odometer at its end, in kilometres. It
/// is CREW where both slots have a present card, else SINGLE (Annex IB, section III).
#[derive(Clone, Copy, Debug, PartialEq, Eq)]
pub struct KeptMinute {
    /// Seconds since 1970-01-01 00:00 GMT, divided by 60.
    pub minute: u32,
    /// The activity of the driver slot, and whether it has a card.
    pub driver: State,
    /// The same of the co-driver slot.
    pub codriver: State,
    /// The odometer at its end, in km, at most 9999999.
    pub odometer: Odometer,
}
