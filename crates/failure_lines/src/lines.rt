//! The lines of all breaks of a run.
ghost use Rattle.std.specs.Prelude.{◌≡◌, ℕ, List, count_by, IfOk, OnOk};
ghost use Rattle.std.specs.Io.KnownBytes.{Appends};
ghost use Rattle.tach_media.specs.Streams.{CountsFaults};
ghost use Rattle.failure_lines.specs.Failures.{AreTold, IsFailuresText, is_failed};

use crate::line::{failure_line, is_failed, last_line};
use log_model::Break;
use run_outcome::Lines;
use tach_media::{Failed, Sink, put_all};

/// Writes a line for each break that a failed call made, in their order, and behind them how many there are; nothing
/// where there is none.
///
/// # Errors
///
/// `Failed` where the sink failed.
pub fn put_failures<K: Sink>(sink: &mut K, breaks: &Lines<Break>) -> Result<(), Failed>
    ensures told { OnOk result ((text : List ℕ) × IsFailuresText breaks.now.items text
        × Appends (K.held sink.old) (K.held sink.new) text) }
    ensures cause { CountsFaults (K.faults sink.old) (K.faults sink.new) result }
{
    let failed = put_lines(sink, breaks)?;
    put_all(sink, last_line(failed).as_slice())?;
    Ok(())
}

/// Writes these lines, and answers how many there are.
fn put_lines<K: Sink>(sink: &mut K, breaks: &Lines<Break>) -> Result<usize, Failed>
    ensures told { IfOk result (λ failed. (failed ≡ count_by is_failed breaks.now.items)
        × ((text : List ℕ) × AreTold breaks.now.items text × Appends (K.held sink.old) (K.held sink.new) text)) }
    ensures cause { CountsFaults (K.faults sink.old) (K.faults sink.new) result }
{
    let mut failed = 0;
    for i in 0..breaks.len() {
        let line = breaks.get(i);
        put_all(sink, failure_line(line).as_slice())?;
        if is_failed(line) {
            failed += 1;
        }
    }
    Ok(failed)
}
