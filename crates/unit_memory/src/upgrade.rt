//! A unit of version 1 is made one of version 2.
ghost use Rattle.std.specs.Prelude.{◌≡◌, ◌≤◌, ◌<◌, ◌+◌, Ok, IfOk, OnOk, IfSome, IfErr, Some, is_err, option_map, true};
ghost use Rattle.std.specs.Prelude.{false};
ghost use Rattle.tach_media.specs.Medium.{LeavesOnly, HasCause, IsSettled, last_count};
ghost use Rattle.unit_model.specs.declared.layout.TheConstants.{PLAIN_VERSION};
ghost use Rattle.unit_model.specs.Image.{IsUnit};
ghost use Rattle.unit_model.specs.Decoding.{Decodes, first_bad_place};
ghost use Rattle.unit_model.specs.Versions.{version_of, upgraded};
ghost use Rattle.unit_memory.specs.Upgrades.{IsUpgrading, HasVersionTwo};
ghost use Rattle.unit_memory.specs.Fault.{IfBadUnit, has_failed};

use crate::fault::UnitFault;
use crate::memory::UnitMemory;
use tach_media::{Failed, Medium};
use unit_model::layout::{RULE_BYTE, VERSION};

impl UnitMemory {
    /// Gives an image of version 1 the version 2 with the amended rule (profile), and tells that it did; of version 2
    /// it writes nothing. A stop leaves an image of the old version, or of version 2 with the amended rule, and nothing
    /// else is another.
    ///
    /// # Errors
    ///
    /// `Failed` where the medium failed, and `BadUnit` as a load has it; then nothing was written.
    pub fn upgrade<M: Medium>(unit: &mut M) -> Result<bool, UnitFault>
        requires unit { IsUnit (M.state unit.old) }
        ensures upgraded { IfOk result (HasVersionTwo (M.state unit.old) (M.state unit.new)) }
        ensures bad { IfErr result (λ fault. IfBadUnit fault (λ p. IfSome (M.state unit.old).image
            (λ x. first_bad_place x ≡ Some p))) }
        ensures moments { LeavesOnly (M.state unit.old) (M.state unit.new) IsUpgrading }
        ensures settled { result ≡ Ok true → (M.state unit.new).clock < last_count → IsSettled (M.state unit.new) }
        ensures nothing { result ≡ Ok false → (M.state unit.new).clock ≡ (M.state unit.old).clock }
        ensures refused { IfErr result (λ fault. IfBadUnit fault
            (λ _. (M.state unit.new).clock ≡ (M.state unit.old).clock)) }
        ensures cause { HasCause (M.state unit.old) (M.state unit.new) (has_failed result) }
        ensures most { (M.state unit.new).clock ≤ (M.state unit.old).clock + 2 }
    {
        let memory = UnitMemory::load(unit)?;
        if memory.version() != 1 {
            return Ok(false);
        }
        write_amended(unit)?;
        Ok(true)
    }
}

/// The amended rule in an image of version 1, and then the version 2.
fn write_amended<M: Medium>(unit: &mut M) -> Result<(), Failed>
    requires works { (M.state unit.old).works ≡ true }
    requires unit { IsUnit (M.state unit.old) }
    requires decodes { IfSome (M.state unit.old).image Decodes }
    requires version { IfSome (M.state unit.old).image (λ x. version_of x ≡ PLAIN_VERSION) }
    ensures upgraded { OnOk result ((M.state unit.new).image ≡ option_map upgraded (M.state unit.old).image) }
    ensures moments { LeavesOnly (M.state unit.old) (M.state unit.new) IsUpgrading }
    ensures settled { OnOk result ((M.state unit.new).clock < last_count → IsSettled (M.state unit.new)) }
    ensures cause { HasCause (M.state unit.old) (M.state unit.new) (is_err result) }
    ensures most { (M.state unit.new).clock ≤ (M.state unit.old).clock + 2 }
{
    unit.write_at(RULE_BYTE.place, &[1])?;
    unit.write_at(VERSION.place, &[0, 0, 0, 2])?;
    Ok(())
}
