//! The command `upgrade`: a unit of version 1 gets version 2 with the amended rule of minutes.
ghost use Rattle.std.specs.Prelude.{◌≡◌, ◌≢◌, ◌≤◌, IfErr};
ghost use Rattle.unit_model.specs.Image.{IsUnit};
ghost use Rattle.tacho.specs.End.{end_of};
ghost use Rattle.tacho.specs.Printing.{PutsText};
ghost use Rattle.tacho.specs.Upgrading.{EndsUpgrade, upgrade_line};

use crate::end::Fault;
use crate::printing::print_text;
use run_model::Device;
use tach_media::{Medium, Sink};
use unit_memory::{UnitFault, UnitMemory};

/// The command `upgrade`: a unit of version 1 gets version 2 with the amended rule, and a line tells so. Of version 2
/// nothing is written, and the line tells that it has it already.
///
/// # Errors
///
/// `MediumFault` of the unit where it failed; `BadUnit` with the place of the first field of its image that fails, and
/// nothing is written; `WriteFault` where the sink failed, and the unit is of version 2.
pub fn upgrade_unit<K: Sink, U: Medium>(unit: &mut U, sink: &mut K) -> Result<(), Fault>
    requires { IsUnit (U.state unit.old) }
    ensures ends { EndsUpgrade (U.state unit.old) (U.state unit.new)
        (record { held = K.held sink.old; faults = K.faults sink.old })
        (record { held = K.held sink.new; faults = K.faults sink.new }) (end_of result) }
    ensures nothing { IfErr result (λ fault. fault ≢ Fault.WriteFault → sink.new ≡ sink.old) }
    ensures counts { K.faults sink.old ≤ K.faults sink.new }
{
    match UnitMemory::upgrade(unit) {
        Ok(newly) => print_upgrade(newly, sink),
        Err(UnitFault::Failed) => Err(Fault::MediumFault(Device::Unit)),
        Err(UnitFault::BadUnit(place)) => Err(Fault::BadUnit(place)),
    }
}

/// Prints that a unit is upgraded, and whether it was so before.
fn print_upgrade<K: Sink>(newly: bool, sink: &mut K) -> Result<(), Fault>
    ensures { PutsText (upgrade_line newly) (record { held = K.held sink.old; faults = K.faults sink.old })
        (record { held = K.held sink.new; faults = K.faults sink.new }) result }
{
    print_text(upgrade_line(newly), sink)
}

/// The line that tells of an upgrade.
fn upgrade_line(newly: bool) -> &'static [u8]
    ensures { result.now ≡ upgrade_line newly }
{
    if newly { b"upgraded\n" } else { b"already 2\n" }
}
