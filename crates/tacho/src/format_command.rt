//! The commands `format a`, `format b` and `format unit`: a device is made new.
ghost use Rattle.std.specs.Prelude.{◌≡◌, ◌≢◌, ◌≤◌, ◌+◌, Err, IfErr};
ghost use Rattle.card_layout.specs.Outcomes.{just_issued};
ghost use Rattle.run_model.specs.declared.Device.TheVariants.{Unit as OfUnit};
ghost use Rattle.unit_model.specs.Image.{IsUnit};
ghost use Rattle.unit_memory.specs.Formats.{IsFormatting, format_most};
ghost use Rattle.tacho.specs.End.{end_of};
ghost use Rattle.tacho.specs.Formatting.{EndsFormat, IsCard, IsIssuing, formatted_line, card_image, unit_image};
ghost use Rattle.tacho.specs.Formatting.{issue_most};
ghost use Rattle.tacho.specs.Printing.{PutsText};

use crate::end::Fault;
use crate::printing::print_text;
use card_files::{CardIdentity, blank_card};
use card_layout::LARGEST;
use run_model::Device;
use std::alloc::Global;
use tach_media::{Chip, Medium, Sink};
use unit_memory::{Identity, format_unit};

/// The commands `format a` and `format b`: a card of the largest sizes is issued to an identity.
///
/// # Errors
///
/// `Memory` before the card is used; `MediumFault` of this device where it failed, and nothing is printed; `WriteFault`
/// where the sink failed, and the card is new.
pub fn format_card<K: Sink, C: Chip>(
    alloc: Global,
    identity: &CardIdentity,
    device: Device,
    card: &mut C,
    sink: &mut K,
) -> Result<(), Fault>
    requires { IsCard (C.state card.old) }
    ensures ends { EndsFormat device (card_image identity.now) (IsIssuing (card_image identity.now)) (C.state card.old)
        (C.state card.new)
        (record { held = K.held sink.old; faults = K.faults sink.old })
        (record { held = K.held sink.new; faults = K.faults sink.new }) (end_of result) }
    ensures state { result ≢ Err Fault.Memory → C.card card.new ≡ just_issued }
    ensures memory { result ≡ Err Fault.Memory → card.new ≡ card.old }
    ensures writes { (C.state card.new).clock ≤ (C.state card.old).clock + issue_most }
    ensures nothing { IfErr result (λ fault. fault ≢ Fault.WriteFault → sink.new ≡ sink.old) }
    ensures counts { K.faults sink.old ≤ K.faults sink.new }
{
    let image = blank_card(alloc, identity, &LARGEST)?;
    if card.issue(image.as_slice()).is_err() {
        return Err(Fault::MediumFault(device));
    }
    print_formatted(sink)
}

/// The command `format unit`: a new unit is made of an identity.
///
/// # Errors
///
/// `MediumFault` of the unit where it failed, and nothing is printed; `WriteFault` where the sink failed, and the unit
/// is new.
pub fn make_unit<K: Sink, U: Medium>(
    identity: &Identity,
    unit: &mut U,
    sink: &mut K,
) -> Result<(), Fault>
    requires { IsUnit (U.state unit.old) }
    ensures ends { EndsFormat OfUnit (unit_image identity.now) (IsFormatting (unit_image identity.now))
        (U.state unit.old) (U.state unit.new)
        (record { held = K.held sink.old; faults = K.faults sink.old })
        (record { held = K.held sink.new; faults = K.faults sink.new }) (end_of result) }
    ensures some { end_of result ≢ Fault.Memory }
    ensures writes { (U.state unit.new).clock ≤ (U.state unit.old).clock + format_most }
    ensures nothing { IfErr result (λ fault. fault ≢ Fault.WriteFault → sink.new ≡ sink.old) }
    ensures counts { K.faults sink.old ≤ K.faults sink.new }
{
    if format_unit(unit, identity).is_err() {
        return Err(Fault::MediumFault(Device::Unit));
    }
    print_formatted(sink)
}

/// Prints that a device was made new.
fn print_formatted<K: Sink>(sink: &mut K) -> Result<(), Fault>
    ensures { PutsText formatted_line (record { held = K.held sink.old; faults = K.faults sink.old })
        (record { held = K.held sink.new; faults = K.faults sink.new }) result }
{
    print_text(b"formatted\n", sink)
}
