//! The unit at an opening, and at a power-on.
ghost use Rattle.std.specs.Prelude.{◌≡◌, ◌<◌, ◌/◌, IfOk, OnOk, IfErr, IfSome, false};
ghost use Rattle.tach_media.specs.Medium.{LeavesOnly, Unchanged, HasCause, revivable};
ghost use Rattle.unit_model.specs.declared.layout.TheConstants.{IMAGE_SIZE};
ghost use Rattle.unit_model.specs.Image.{IsUnit};
ghost use Rattle.unit_memory.specs.Fault.{has_failed};
ghost use Rattle.unit_memory.specs.Identified.{AreFacts};
ghost use Rattle.run_opening.specs.Opening.{IsAsItWas};
ghost use Rattle.run_opening.specs.Units.{IsLoaded, IsNotLoaded, HasBrokenDown, IsClockBack, IsUnitRefused};
ghost use Rattle.run_opening.specs.Units.{opening_fault};
ghost use Rattle.run_opening.specs.Calls.{UnitIsFound};
ghost use Rattle.device_calls.specs.Calls.{WasRevived};

use crate::fault::RunFault;
use run_model::Device;
use tach_media::Medium;
use unit_memory::UnitMemory;
use unit_minutes::{Journal, UnitFault};

/// What the opening finds of a unit: its journal, and what it was told of the vehicle.
#[derive(Drop)]
pub struct OpenedUnit {
    pub journal: Journal,
    pub memory: UnitMemory,
}

// Revives the unit and judges it; it writes nothing.
fn load<M: Medium>(unit: &mut M) -> Result<Journal, UnitFault>
    requires unit { (M.state unit.old).size ≡ IMAGE_SIZE }
    ensures loaded { IfOk result (IsLoaded (M.state unit.new)) }
    ensures bad { IfErr result (IsNotLoaded (M.state unit.old) (M.state unit.new)) }
    ensures broke { IfErr result (HasBrokenDown (M.state unit.old) (M.state unit.new)) }
    ensures unit { IsUnit (M.state unit.old) → IsUnit (M.state unit.new) }
    ensures revived { WasRevived (has_failed result) (M.state unit.old) (M.state unit.new) }
{
    unit.revive()?;
    let journal = Journal::load(unit)?;
    Ok(journal)
}

/// Revives the unit, judges it, and reads what it was told of the vehicle, and its rule; it writes nothing. No line
/// tells a failure here but the caller's.
///
/// # Errors
///
/// 1. `Failed` where the unit failed.
/// 2. `BadUnit` exactly where its image does not decode, with the place of the first field, in order of places, that
///    fails: in bytes, from 0.
pub fn open_unit<M: Medium>(unit: &mut M) -> Result<OpenedUnit, UnitFault>
    requires unit { (M.state unit.old).size ≡ IMAGE_SIZE }
    ensures loaded { IfOk result (λ opened. IsLoaded (M.state unit.new) opened.journal) }
    ensures facts { IfOk result (λ opened. IfSome (M.state unit.new).image (AreFacts opened.memory)) }
    ensures bad { IfErr result (IsNotLoaded (M.state unit.old) (M.state unit.new)) }
    ensures broke { IfErr result (HasBrokenDown (M.state unit.old) (M.state unit.new)) }
    ensures unit { IsUnit (M.state unit.old) → IsUnit (M.state unit.new) }
    ensures revived { WasRevived (has_failed result) (M.state unit.old) (M.state unit.new) }
{
    let journal = load(unit)?;
    let memory = UnitMemory::read(unit)?;
    Ok(OpenedUnit { journal, memory })
}

/// That the minute of a second is later than the last-kept one.
///
/// # Errors
///
/// `ClockBack` with both exactly where it is not.
pub fn judge_clock(kept: u32, second: u32) -> Result<(), RunFault>
    ensures later { OnOk result (kept < second / 60) }
    ensures back { IfErr result (IsClockBack kept second) }
{
    if second / 60 <= kept {
        return Err(RunFault::ClockBack(kept, second));
    }
    Ok(())
}

/// Judges the unit, and the clock of a run that begins at this second; it writes nothing.
///
/// # Errors
///
/// `MediumFault` where the unit failed; `BadUnit` exactly where its image does not decode; `ClockBack` exactly where it
/// does and the minute of the second is not later than its last-kept one.
pub fn judge_unit<M: Medium>(unit: &mut M, start: u32) -> Result<OpenedUnit, RunFault>
    requires unit { (M.state unit.old).size ≡ IMAGE_SIZE }
    ensures found { IfOk result (UnitIsFound start (M.state unit.new)) }
    ensures refused { IfErr result (IsUnitRefused start (M.state unit.old) (M.state unit.new)) }
    ensures unit { IsUnit (M.state unit.old) → IsUnit (M.state unit.new) }
    ensures leaves { LeavesOnly (M.state unit.old) (M.state unit.new) Unchanged }
    ensures clock { (M.state unit.new).clock ≡ (M.state unit.old).clock }
    ensures same { IsAsItWas (M.state unit.old) (M.state unit.new) }
    ensures cause { OnOk result (HasCause (revivable (M.state unit.old)) (M.state unit.new) false) }
{
    match open_unit(unit) {
        Ok(opened) => {
            judge_clock(opened.journal.last_kept(), start)?;
            Ok(opened)
        }
        Err(fault) => Err(opening_fault(fault)),
    }
}

// A unit that is not loaded, as the opening tells it.
fn opening_fault(fault: UnitFault) -> RunFault
    ensures { result ≡ opening_fault fault }
{
    match fault {
        UnitFault::Failed => RunFault::MediumFault(Device::Unit),
        UnitFault::BadUnit(place) => RunFault::BadUnit(place),
    }
}
