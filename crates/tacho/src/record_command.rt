//! The command `record`: a trace is recorded on the unit and the cards, and what was recorded is counted.
ghost use Rattle.std.specs.Prelude.{◌≡◌, ◌≢◌, IfErr};
ghost use Rattle.unit_model.specs.Image.{IsUnit};
ghost use Rattle.tacho.specs.End.{end_of, IsBeforeDevices};
ghost use Rattle.tacho.specs.Outside.{outside};
ghost use Rattle.tacho.specs.Program.{HasCauses};
ghost use Rattle.tacho.specs.Formatting.{IsCard};
ghost use Rattle.tacho.specs.Outcomes.{IsEmpty, outcome_text as text_of_outcome, IsToldForUnit, refusal_of_run};
ghost use Rattle.tacho.specs.Printing.{PutsText};
ghost use Rattle.tacho.specs.Recorded.{EndsRecord};

use crate::alone::{is_for_unit, record_alone};
use crate::end::Fault;
use crate::outcome_text::outcome_text;
use crate::printing::print_text;
use recorder_with_cards::{RunFault, run_trace};
use run_outcome::Outcome;
use std::alloc::Global;
use tach_media::{Chip, Medium, Sink, Source};
use trace_text::{Form, read_trace};

/// The command `record`. A trace without a card's line is recorded on the unit alone, and any other on the unit and
/// both cards. The outcome is what was recorded; it stays as it was where the trace is not recorded.
///
/// # Errors
///
/// Before a device is used: `ReadFault`, `BadTrace` and `TooLong` as `read_trace` tells of the source, and `Memory`.
/// From the opening of the run: `MediumFault`, `BadUnit`, `ClockBack` and `SameCard` as `run_trace` tells; `BadUnit` and
/// `ClockBack` also of a unit that is read anew at a power-on. `WriteFault` where the sink failed, and the trace is
/// recorded.
pub fn record<S: Source, K: Sink, U: Medium, C: Chip>(
    alloc: Global,
    source: &mut S,
    sink: &mut K,
    unit: &mut U,
    card_a: &mut C,
    card_b: &mut C,
    outcome: &mut Outcome,
) -> Result<(), Fault>
    requires unit { IsUnit (U.state unit.old) }
    requires card_a { IsCard (C.state card_a.old) }
    requires card_b { IsCard (C.state card_b.old) }
    requires empty { IsEmpty outcome.old }
    ensures ends { EndsRecord
        (outside S.left S.faults K.held K.faults U.state C.state C.card source.old sink.old unit.old card_a.old
        card_b.old)
        (outside S.left S.faults K.held K.faults U.state C.state C.card source.new sink.new unit.new card_a.new
        card_b.new) outcome.new (end_of result) }
    ensures before { IfErr result (λ fault. IsBeforeDevices fault
        → (unit.new ≡ unit.old) × (card_a.new ≡ card_a.old) × (card_b.new ≡ card_b.old)) }
    ensures nothing { IfErr result (λ fault. fault ≢ Fault.WriteFault → sink.new ≡ sink.old) }
    ensures for_unit { IsToldForUnit (S.left source.old) → (card_a.new ≡ card_a.old) × (card_b.new ≡ card_b.old) }
    ensures causes { HasCauses
        (outside S.left S.faults K.held K.faults U.state C.state C.card source.old sink.old unit.old card_a.old
        card_b.old)
        (outside S.left S.faults K.held K.faults U.state C.state C.card source.new sink.new unit.new card_a.new
        card_b.new) (end_of result) }
{
    let trace = read_trace(alloc, source, Form::Whole)?;
    let reserved = Outcome::reserve(alloc, &trace)?;
    *outcome = reserved;
    if is_for_unit(&trace.items) {
        if let Err(fault) = record_alone(&trace, unit, outcome) {
            return Err(refusal_of_run(fault));
        }
        return print_outcome(outcome, sink);
    }
    if let Err(fault) = run_trace(&trace, unit, card_a, card_b, outcome) {
        return Err(refusal_of_run(fault));
    }
    print_outcome(outcome, sink)
}

/// The end where a device, the unit's image or the cards keep a trace from being recorded.
pub fn refusal_of_run(fault: RunFault) -> Fault
    ensures { result ≡ refusal_of_run fault }
{
    match fault {
        RunFault::MediumFault(device) => Fault::MediumFault(device),
        RunFault::BadUnit(place) => Fault::BadUnit(place),
        RunFault::ClockBack(kept, second) => Fault::ClockBack(kept, second),
        RunFault::SameCard(number) => Fault::SameCard(number),
    }
}

/// Prints the five lines of an outcome.
fn print_outcome<K: Sink>(outcome: &Outcome, sink: &mut K) -> Result<(), Fault>
    ensures { PutsText (text_of_outcome outcome.now) (record { held = K.held sink.old; faults = K.faults sink.old })
        (record { held = K.held sink.new; faults = K.faults sink.new }) result }
{
    print_text(outcome_text(outcome).as_slice(), sink)
}
