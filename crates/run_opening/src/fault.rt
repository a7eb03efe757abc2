//! Why the opening refuses a run.
use run_model::Device;
use tacho_types::FullCardNumber;

/// Why a run is not recorded.
#[derive(Clone, Copy, Debug, PartialEq, Eq)]
pub enum RunFault {
    /// The device failed in the opening.
    MediumFault(Device),
    /// The unit's image does not decode: the place of the first field, in order of places, that fails, in bytes from 0.
    BadUnit(u32),
    /// The unit's last-kept minute, and a second whose minute is not later, both counted from 1970-01-01 00:00 GMT.
    ClockBack(u32, u32),
    /// Both cards are valid and have this number.
    SameCard(FullCardNumber),
}
