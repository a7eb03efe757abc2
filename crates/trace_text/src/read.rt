//! Reading a trace from a source.
ghost use Rattle.std.specs.Prelude.{◌≡◌, ℕ, ◌<◌, ◌≤◌, ◌^◌, ◌∷◌, ◌++◌, ◌+◌, ◌-◌, [], List, length};
ghost use Rattle.std.specs.Prelude.{IfOk, IfErr, OnOk, MatchResult};
ghost use Rattle.trace_text.specs.declared.read.TheConstants.{MOST_BYTES};
ghost use Rattle.std.specs.Io.KnownBytes.{IsAtEnd};
ghost use Rattle.trace_text.specs.Text.{text_lines};
ghost use Rattle.trace_text.specs.Trace.{IsTraceOf};
ghost use Rattle.trace_text.specs.Judged.{TraceIsJudged, TraceIsRead, TraceIsRefused};
ghost use Rattle.trace_text.specs.Reading.{HasRead, IsFaultOf};

use crate::lines_trace::{Form, Trace, TraceFault};
use crate::reading::Reading;
use crate::run_line::first_run;
use std::alloc::Global;
use tach_media::{Source, TakeFault, take_all};
use text_fields::first_piece;

/// The most bytes that the program reads of a source which it reads to its end.
pub const MOST_BYTES: u32 = 16777216;

/// Reads a trace of this form to the source's end.
///
/// # Errors
///
/// `ReadFault` where the source failed; `BadLine` with the first line outside the grammar, the line behind the last one
/// where none counts; `TooLong` with the line at which a limit is passed first, 0 where the source has more than
/// 16777216 bytes; `Memory`. Of a bad line and a passed limit the earlier one is told.
#[tactic(auto, unfolding(crate::specs::Judged::IsTraceText, crate::specs::Judged::IsBadText, crate::specs::Judged::IsLongText))]
pub fn read_trace<S: Source>(alloc: Global, source: &mut S, form: Form) -> Result<Trace, TraceFault>
    // What is read is the trace that the source told, and nothing of the source is left.
    ensures read { IfOk result (TraceIsRead form (S.left source.old)) }
    ensures end { OnOk result (IsAtEnd (S.left source.new)) }
    ensures refused { TraceIsRefused form (S.left source.old) (S.faults source.old) (S.faults source.new) result }
    ensures later { S.faults source.old ≤ S.faults source.new }
    ensures judged { TraceIsJudged form (S.left source.old) result }
{
    let text = match take_all(alloc, source, MOST_BYTES) {
        Ok(text) => text,
        Err(TakeFault::ReadFault) => return Err(TraceFault::ReadFault),
        Err(TakeFault::TooLong) => return Err(TraceFault::TooLong(0)),
        Err(TakeFault::Memory) => return Err(TraceFault::Memory),
    };
    trace_of(alloc, text.as_slice(), form)
}

/// The trace of a text.
fn trace_of(alloc: Global, text: &[u8], form: Form) -> Result<Trace, TraceFault>
    requires { length text.now ≤ MOST_BYTES }
    ensures { MatchResult result (λ t. IsTraceOf form (text_lines text.now) t.start t.items)
        (IsFaultOf form (text_lines text.now)) }
{
    let mut reading = Reading::new(alloc, form);
    let mut rest = text;
    while !rest.is_empty() {
        rest = take_line(&mut reading, rest)?;
    }
    reading.finish()
}

/// Takes the first line of a text: what is behind it.
fn take_line<'a>(reading: &mut Reading, text: &'a [u8]) -> Result<&'a [u8], TraceFault>
    requires some { 0 < length text.now }
    requires few { reading.old.coming.lines < 2 ^ 32 - 1 }
    ensures ok { IfOk result (λ rest. (line : List ℕ) × (text_lines text.now ≡ line ∷ text_lines rest.now)
        × ((lines : List (List ℕ)) → HasRead lines reading.old → HasRead (lines ++ line ∷ []) reading.new)) }
    ensures fault { (lines : List (List ℕ)) → HasRead lines reading.old
        → IfErr result (IsFaultOf reading.old.coming.form (lines ++ text_lines text.now)) }
    ensures shorter { IfOk result (λ rest. length rest.now < length text.now) }
    ensures form { reading.new.coming.form ≡ reading.old.coming.form }
    ensures lines { OnOk result (reading.new.coming.lines ≡ reading.old.coming.lines + 1) }
{
    if let Some(start) = reading.coming.start {
        if let Some((seconds, speed, rest)) = first_run(text) {
            reading.take_run(start, seconds, speed)?;
            return Ok(rest);
        }
    }
    let (line, rest) = next_line(text);
    reading.take(line)?;
    Ok(rest)
}

/// The first line, and the lines behind it.
fn next_line(text: &[u8]) -> (&[u8], &[u8])
    requires { 0 < length text.now }
    ensures lines { text_lines text.now ≡ result.0.now ∷ text_lines result.1.now }
    ensures shorter { length result.1.now < length text.now }
{
    let (line, behind) = first_piece(text, b'\n');
    match behind {
        Some(rest) => (line, rest),
        None => (line, b""),
    }
}
