//! What minutes are kept with.

use run_crew::Cabin;
use unit_memory::UnitMemory;
use unit_minutes::Journal;

/// What a run keeps its minutes with, while the unit has power.
#[derive(Drop)]
pub struct Keeper {
    /// What the unit was told of the vehicle.
    pub memory: UnitMemory,
    /// The unit's journal.
    pub journal: Journal,
    /// The odometer at the last power-on, in kilometres.
    pub odometer: u32,
    /// Which card is in which slot, with which session.
    pub cabin: Cabin,
}

/// A moment of a run, as a tear tells it.
#[derive(Clone, Copy, Debug, PartialEq, Eq)]
pub struct Moment {
    /// The number of the second.
    pub second: u32,
    /// How many actions of the second have begun.
    pub begun: u32,
    /// Whether it is in the keeping of minutes, behind all actions.
    pub late: bool,
}
