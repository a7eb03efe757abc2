//! The command `demo`: a unit and a card are made new, a demonstration is recorded on them, and the unit is downloaded.
ghost use Rattle.std.specs.Prelude.{◌≡◌};
ghost use Rattle.unit_model.specs.Image.{IsUnit};
ghost use Rattle.tacho.specs.End.{end_of};
ghost use Rattle.tacho.specs.Outside.{outside};
ghost use Rattle.tacho.specs.Program.{HasCauses};
ghost use Rattle.tacho.specs.Formatting.{IsCard};
ghost use Rattle.tacho.specs.Outcomes.{IsEmpty};
ghost use Rattle.tacho.specs.Printing.{PutsText};
ghost use Rattle.tacho.specs.Demo.{demo_text as text_of_demo, refusal_anew, refusal_of_file, EndsDemo};

use crate::anew::{AnewFault, NewDevices, run_anew};
use crate::end::Fault;
use crate::outcome_text::demo_text;
use crate::printing::print_text;
use crate::record_command::refusal_of_run;
use card_files::{CardIdentity, blank_card};
use card_layout::LARGEST;
use link_loader::Downloader;
use run_model::Device;
use run_outcome::Outcome;
use std::alloc::Global;
use tach_media::{Chip, Medium, MemSink, Sink, Source};
use tacho_types::{Name36, Nation, Registration};
use trace_text::demo_trace;
use unit_download::{DownloadFault, FileSize, measure};
use unit_memory::Identity;

/// The vehicle: `13 DEMO TACHODEMO00000001 90`.
pub const VEHICLE: Identity = Identity {
    vin: *b"TACHODEMO00000001",
    registration: Registration([13, 1, 68, 69, 77, 79, 32, 32, 32, 32, 32, 32, 32, 32, 32]),
    limit: 90,
};

/// The card: `13 DEMOA00000000001 DEMO A`.
pub const CARD: CardIdentity = CardIdentity {
    state: Nation(13),
    number: *b"DEMOA00000000001",
    surname: Name36([
        1, 68, 69, 77, 79, 32, 32, 32, 32, 32, 32, 32, 32, 32, 32, 32, 32, 32, 32, 32, 32, 32, 32,
        32, 32, 32, 32, 32, 32, 32, 32, 32, 32, 32, 32, 32,
    ]),
    first: Name36([
        1, 65, 32, 32, 32, 32, 32, 32, 32, 32, 32, 32, 32, 32, 32, 32, 32, 32, 32, 32, 32, 32, 32,
        32, 32, 32, 32, 32, 32, 32, 32, 32, 32, 32, 32, 32,
    ]),
};

/// For so many bytes of the unit's file there is room.
pub const ROOM: usize = 300000;

/// The command `demo`, by the number that the demonstration is drawn from. The outcome is what was recorded; it stays
/// as it was where nothing is. All memory is taken before the first write.
///
/// # Errors
///
/// `Memory` before a device is used, or where the room for the unit's file is too small. `MediumFault` where a device
/// failed as it was made new, in the opening of the run or in the download; `BadUnit`, `ClockBack` and `SameCard` as
/// `run_trace` tells; `Changed` where the download refuses the unit's answer. `WriteFault` where the sink failed, and
/// all else is done.
pub fn demo<S: Source, K: Sink, U: Medium, C: Chip>(
    alloc: Global,
    seed: u32,
    source: &mut S,
    sink: &mut K,
    unit: &mut U,
    card_a: &mut C,
    card_b: &mut C,
    outcome: &mut Outcome,
) -> Result<(), Fault>
    requires unit { IsUnit (U.state unit.old) }
    requires card_a { IsCard (C.state card_a.old) }
    requires card_b { IsCard (C.state card_b.old) }
    requires empty { IsEmpty outcome.old }
    ensures ends { EndsDemo seed
        (outside S.left S.faults K.held K.faults U.state C.state C.card source.old sink.old unit.old card_a.old
        card_b.old)
        (outside S.left S.faults K.held K.faults U.state C.state C.card source.new sink.new unit.new card_a.new
        card_b.new) outcome.new (end_of result) }
    ensures source { source.new ≡ source.old }
    ensures causes { HasCauses
        (outside S.left S.faults K.held K.faults U.state C.state C.card source.old sink.old unit.old card_a.old
        card_b.old)
        (outside S.left S.faults K.held K.faults U.state C.state C.card source.new sink.new unit.new card_a.new
        card_b.new) (end_of result) }
{
    let trace = demo_trace(alloc, seed)?;
    let reserved = Outcome::reserve(alloc, &trace)?;
    let image = blank_card(alloc, &CARD, &LARGEST)?;
    let mut loader = Downloader::new(alloc);
    loader.reserve()?;
    let room = Vec::with_capacity(alloc, ROOM)?;
    let mut file = MemSink::new(room, Vec::new(alloc));
    *outcome = reserved;
    let made = NewDevices {
        vehicle: VEHICLE,
        image: image.as_slice(),
    };
    if let Err(fault) = run_anew(&trace, made, unit, card_a, card_b, outcome) {
        return Err(refusal_anew(fault));
    }
    let size = match measure(&mut loader, &mut file, unit) {
        Ok(size) => size,
        Err(fault) => return Err(refusal_of_file(fault)),
    };
    print_demo(outcome, size, sink)
}

/// The end where a device failed as it was made new, or the trace was kept from being recorded.
fn refusal_anew(fault: AnewFault) -> Fault
    ensures { result ≡ refusal_anew fault }
{
    match fault {
        AnewFault::Unmade(device) => Fault::MediumFault(device),
        AnewFault::Kept(fault) => refusal_of_run(fault),
    }
}

/// The end where the unit was not downloaded into memory.
fn refusal_of_file(fault: DownloadFault) -> Fault
    ensures { result ≡ refusal_of_file fault }
{
    match fault {
        DownloadFault::Failed => Fault::MediumFault(Device::Unit),
        DownloadFault::BadUnit(place) => Fault::BadUnit(place),
        DownloadFault::Changed => Fault::Changed,
        DownloadFault::WriteFault => Fault::Memory,
        DownloadFault::Memory => Fault::Memory,
    }
}

/// Prints the seven lines.
fn print_demo<K: Sink>(outcome: &Outcome, size: FileSize, sink: &mut K) -> Result<(), Fault>
    ensures { PutsText (text_of_demo outcome.now size) (record { held = K.held sink.old; faults = K.faults sink.old })
        (record { held = K.held sink.new; faults = K.faults sink.new }) result }
{
    print_text(demo_text(outcome, size).as_slice(), sink)
}
