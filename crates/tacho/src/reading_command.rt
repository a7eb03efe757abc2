//! The forms that read a file to its end and print what it tells.
ghost use Rattle.std.specs.Prelude.{◌≡◌, ◌≢◌, ◌≤◌, ◌<◌, ◌^◌, ◌⊎◌, ℕ, List, Some, Err, OnOk, IfOk, IfErr};
ghost use Rattle.std.specs.Prelude.{length};
ghost use Rattle.std.specs.Io.KnownBytes.{IsAtEnd};
ghost use Rattle.tach_media.specs.Medium.{Rose};
ghost use Rattle.tach_media.specs.Streams.{AppendsFront};
ghost use Rattle.tacho.specs.Read.{EndsPut, IsBad, IsReadingEnd, IsUnshown, IsWhole, MayStopWithin, Prints};
ghost use Rattle.tacho.specs.Printing.{JudgesFile, PrintsFrom, TellsFaults};

use crate::end::Fault;
use crate::forms::Reading;
use crate::match_command::{match_all_answer, match_answer};
use crate::printing::print_text;
use crate::report_command::{file_chart, file_speeds, file_totals};
use crate::show_command::put_json;
use crate::view_command::{file_view, hand_view};
use std::alloc::Global;
use tach_media::{Sink, Source, TakeFault, take_all};
use trace_text::MOST_BYTES;

/// Reads a file to its end, and prints what it tells.
///
/// # Errors
///
/// `ReadFault` where the source failed; `TooLong(0)` where it has more than 16777216 bytes; `BadFile` with the place
/// where it is no file that the reading reads; `Memory`. Then nothing is printed, but by `show` where memory ran out as
/// it printed. `WriteFault` where the sink failed: a front of the text went to it.
pub fn print_reading<S: Source, K: Sink>(
    alloc: Global,
    reading: Reading,
    source: &mut S,
    sink: &mut K,
) -> Result<(), Fault>
    ensures prints { PrintsFrom (Prints reading) (S.left source.old) (K.held sink.old) (K.held sink.new) result }
    ensures read { OnOk result (IsAtEnd (S.left source.new)) }
    ensures judges { JudgesFile reading (S.left source.old) result }
    ensures faults { TellsFaults (S.faults source.old) (S.faults source.new) (K.faults sink.old) (K.faults sink.new)
        result }
    ensures short { (bytes : List ℕ) → S.left source.old ≡ Some bytes → result ≡ Err Fault.Memory
        → (sink.new ≡ sink.old)
        ⊎ ((out : List ℕ) × Prints reading bytes out × AppendsFront (K.held sink.old) (K.held sink.new) out) }
    ensures nothing { IfErr result (λ fault. (MayStopWithin reading fault → ⊥) → sink.new ≡ sink.old) }
    ensures other { IfErr result (λ fault. (fault ≢ Fault.Done) × IsReadingEnd fault) }
{
    let bytes = match take_all(alloc, source, MOST_BYTES) {
        Ok(bytes) => bytes,
        Err(TakeFault::ReadFault) => return Err(Fault::ReadFault),
        Err(TakeFault::TooLong) => return Err(Fault::TooLong(0)),
        Err(TakeFault::Memory) => return Err(Fault::Memory),
    };
    put_reading(alloc, reading, bytes.as_slice(), sink)
}

/// Prints what a file tells.
fn put_reading<K: Sink>(
    alloc: Global,
    reading: Reading,
    b: &[u8],
    sink: &mut K,
) -> Result<(), Fault>
    requires { length b.now < 2 ^ 32 }
    ensures ends { EndsPut reading b.now result (K.held sink.old) (K.held sink.new) (sink.new ≡ sink.old) }
    ensures cause { result ≡ Err Fault.WriteFault → Rose (K.faults sink.old) (K.faults sink.new) }
    ensures counts { K.faults sink.old ≤ K.faults sink.new }
{
    match reading {
        Reading::Show { last } => put_json(alloc, last, b, sink),
        _ => put_text(alloc, reading, b, sink),
    }
}

/// Makes all that is printed of a file, and prints it.
fn put_text<K: Sink>(alloc: Global, reading: Reading, b: &[u8], sink: &mut K) -> Result<(), Fault>
    requires whole { IsWhole reading }
    requires short { length b.now < 2 ^ 32 }
    ensures ends { EndsPut reading b.now result (K.held sink.old) (K.held sink.new) (sink.new ≡ sink.old) }
    ensures cause { result ≡ Err Fault.WriteFault → Rose (K.faults sink.old) (K.faults sink.new) }
    ensures counts { K.faults sink.old ≤ K.faults sink.new }
{
    let text = reading_text(alloc, reading, b)?;
    print_text(text.as_slice(), sink)
}

/// What is printed of a file, made whole.
fn reading_text(alloc: Global, reading: Reading, b: &[u8]) -> Result<Vec<u8>, Fault>
    requires whole { IsWhole reading }
    requires short { length b.now < 2 ^ 32 }
    ensures text { IfOk result (λ text. Prints reading b.now text.items) }
    ensures err { IfErr result (IsUnshown (λ place. IsBad reading place b.now)) }
{
    match reading {
        Reading::View { last } => file_view(alloc, last, b),
        Reading::ByHand => hand_view(alloc, b),
        Reading::Match => match_answer(alloc, b),
        Reading::MatchAll => match_all_answer(alloc, b),
        Reading::Totals { last } => file_totals(alloc, last, b),
        Reading::Chart { last } => file_chart(alloc, last, b),
        Reading::Speeds { last } => file_speeds(alloc, last, b),
        Reading::Show { last: _last } => unreachable!(),
    }
}
