//! The commands `minutes` and `minutes 2009`: the view text of a trace's decided minutes, by the original and by the
//! amended rule.
ghost use Rattle.std.specs.Prelude.{◌≡◌, ◌≢◌, OnOk, IfOk, IfErr};
ghost use Rattle.std.specs.Io.KnownBytes.{IsAtEnd};
ghost use Rattle.view_text.specs.Text.{IsUnitView};
ghost use Rattle.trace_text.specs.declared.lines_trace.Form.TheVariants.{Minutes as FormOfMinutes};
ghost use Rattle.trace_text.specs.Line.{IsKnown};
ghost use Rattle.trace_text.specs.Trace.{IsWellFormed};
ghost use Rattle.std.specs.List.{AllByRecursion};
ghost use Rattle.tacho.specs.Minutes.{PrintsMinutes, minutes_printed, IsMinutesEnd};
ghost use Rattle.tacho.specs.Printing.{JudgesText, PrintsFrom, TellsFaults};

use crate::end::Fault;
use crate::minutes::lines_of;
use crate::printing::print_text;
use minute_rules::Rule;
use std::alloc::{AllocError, Global};
use tach_media::{Sink, Source};
use trace_text::{Form, Trace, TraceFault, read_trace};
use view_text::lines_text;

/// The commands `minutes` and `minutes 2009`.
///
/// # Errors
///
/// `ReadFault`, `BadTrace` and `TooLong` as `read_trace` tells of the source, and `Memory`; then nothing is printed.
/// `WriteFault` where the sink failed: a front of the text went to it.
pub fn print_minutes<S: Source, K: Sink>(
    alloc: Global,
    rule: Rule,
    source: &mut S,
    sink: &mut K,
) -> Result<(), Fault>
    ensures prints { PrintsFrom (PrintsMinutes rule) (S.left source.old) (K.held sink.old) (K.held sink.new) result }
    ensures read { OnOk result (IsAtEnd (S.left source.new)) }
    ensures judges { JudgesText FormOfMinutes (S.left source.old) result }
    ensures faults { TellsFaults (S.faults source.old) (S.faults source.new) (K.faults sink.old) (K.faults sink.new)
        result }
    ensures nothing { IfErr result (λ fault. fault ≢ Fault.WriteFault → sink.new ≡ sink.old) }
    ensures other { IfErr result (λ fault. (fault ≢ Fault.Done) × IsMinutesEnd fault) }
{
    let trace = read_trace(alloc, source, Form::Minutes)?;
    let text = text_of(alloc, rule, &trace)?;
    print_text(text.as_slice(), sink)
}

/// The end where no trace was read.
impl From<TraceFault> for Fault {
    ghost use Rattle.std.specs.Prelude.{◌≡◌};
    ghost use Rattle.tacho.specs.End.{refusal_of};

    ghost from_gives = { λ fault end. end ≡ refusal_of fault };

    fn from(fault: TraceFault) -> Fault {
        match fault {
            TraceFault::ReadFault => Fault::ReadFault,
            TraceFault::BadLine(n) => Fault::BadTrace(n),
            TraceFault::TooLong(n) => Fault::TooLong(n),
            TraceFault::Memory => Fault::Memory,
        }
    }
}

/// The view text of the decided minutes of a trace by a rule, no card present.
fn text_of(alloc: Global, rule: Rule, trace: &Trace) -> Result<Vec<u8>, AllocError>
    requires well { IsWellFormed trace.now.start trace.now.items }
    requires known { AllByRecursion (IsKnown FormOfMinutes) trace.now.items }
    ensures { IfOk result (λ text. IsUnitView (minutes_printed rule trace.now.start trace.now.items) text.items) }
{
    let lines = lines_of(alloc, rule, trace)?;
    lines_text(alloc, lines.as_slice())
}
