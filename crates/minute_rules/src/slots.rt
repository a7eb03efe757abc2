//! What is selected for each slot.
ghost use Rattle.std.specs.Prelude.{◌≡◌, Some, None};
ghost use Rattle.std.specs.Bool.{OnFalse};
ghost use Rattle.minute_rules.specs.Kept.{early_with, driver_heard, codriver_heard};

use crate::tally::acts_differ;
use activity_codec::Pick;

/// What is selected for the driver.
#[derive(Clone, Copy, Debug, Default, PartialEq, Eq)]
pub struct DriverSlot {
    /// The selection that holds at speed 0, by those made so far.
    pub current: Pick,
    /// The seconds since the stop, as long as rest or availability may still be selected for it.
    pub waiting: Option<u32>,
    /// The first rest or availability that is selected for the next second.
    pub early: Option<Pick>,
    /// The last selection for the next second.
    pub picked: Option<Pick>,
}

/// What is selected for the co-driver.
#[derive(Clone, Copy, Debug, Default, PartialEq, Eq)]
pub struct CodriverSlot {
    /// The selection that holds at speed 0.
    pub current: Pick,
    /// The last selection for the next second.
    pub picked: Option<Pick>,
}

impl DriverSlot {
    /// Selects an activity for the next second.
    pub fn select(&mut self, pick: Pick)
        ensures { self.new ≡ record {
          current = self.old.current;
          waiting = self.old.waiting;
          early = early_with self.old.early pick;
          picked = Some pick;
        } }
    {
        if self.early.is_none() {
            match pick {
                Pick::Work => {}
                Pick::Rest | Pick::Available => self.early = Some(pick),
            }
        }
        self.picked = Some(pick);
    }

    /// The last selection for the next second holds from now on.
    pub fn hear(&mut self)
        ensures { self.new ≡ driver_heard self.old }
    {
        if let Some(pick) = self.picked {
            self.current = pick;
        }
        self.early = None;
        self.picked = None;
    }
}

impl CodriverSlot {
    /// The last selection for the next second holds from now on.
    pub fn hear(&mut self)
        ensures { self.new ≡ codriver_heard self.old }
    {
        if let Some(pick) = self.picked {
            self.current = pick;
        }
        self.picked = None;
    }
}

/// Whether they are two selections.
fn picks_differ(one: Pick, other: Pick) -> bool
    ensures { OnFalse result (one ≡ other) }
{
    let first = one.activity();
    let second = other.activity();
    if acts_differ(first, second) {
        return true;
    }
    false
}

/// Whether something else is selected.
fn selections_differ(one: Option<Pick>, other: Option<Pick>) -> bool
    ensures { OnFalse result (one ≡ other) }
{
    match (one, other) {
        (None, None) => false,
        (Some(first), Some(second)) => {
            if picks_differ(first, second) {
                return true;
            }
            false
        }
        (None, Some(_)) | (Some(_), None) => true,
    }
}

/// Whether the waits are two.
fn waits_differ(one: Option<u32>, other: Option<u32>) -> bool
    ensures { OnFalse result (one ≡ other) }
{
    match (one, other) {
        (None, None) => false,
        (Some(first), Some(second)) => {
            if first != second {
                return true;
            }
            false
        }
        (None, Some(_)) | (Some(_), None) => true,
    }
}

/// Whether something else is selected for the driver.
pub fn drivers_differ(one: DriverSlot, other: DriverSlot) -> bool
    ensures { OnFalse result (one ≡ other) }
{
    let current = picks_differ(one.current, other.current);
    let waiting = waits_differ(one.waiting, other.waiting);
    let early = selections_differ(one.early, other.early);
    let picked = selections_differ(one.picked, other.picked);
    if current || waiting || early || picked {
        return true;
    }
    false
}

/// Whether something else is selected for the co-driver.
pub fn codrivers_differ(one: CodriverSlot, other: CodriverSlot) -> bool
    ensures { OnFalse result (one ≡ other) }
{
    let current = picks_differ(one.current, other.current);
    let picked = selections_differ(one.picked, other.picked);
    if current || picked {
        return true;
    }
    false
}
