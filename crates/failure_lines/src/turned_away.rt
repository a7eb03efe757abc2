//! The lines of the cards that a run turned away.
ghost use Rattle.std.specs.Prelude.{◌≡◌, ◌≤◌, ℕ, List, length, OnOk};
ghost use Rattle.std.specs.Io.KnownBytes.{Appends};
ghost use Rattle.tach_media.specs.Streams.{CountsFaults};
ghost use Rattle.failure_lines.specs.Turned.{AreTurnedLines, IsTurnedText, IsVerdictLine};

use crate::line::card_of;
use crate::timed::{MOST, timed_text};
use activity_codec::Slot;
use arrayvec::ArrayVec;
use log_model::{Find, Verdict};
use run_outcome::Lines;
use tach_media::{Failed, Sink, put_all};

/// Writes a line for each card that was turned away, in their order.
///
/// # Errors
///
/// `Failed` where the sink failed.
pub fn put_turned_away<K: Sink>(sink: &mut K, finds: &Lines<Find>) -> Result<(), Failed>
    ensures told { OnOk result ((text : List ℕ) × AreTurnedLines finds.now.items text
        × Appends (K.held sink.old) (K.held sink.new) text) }
    ensures cause { CountsFaults (K.faults sink.old) (K.faults sink.new) result }
{
    for i in 0..finds.len() {
        let find = finds.get(i);
        put_all(
            sink,
            verdict_line(find.verdict, find.slot, find.second).as_slice(),
        )?;
    }
    Ok(())
}

/// The line of a verdict on the card of a slot; nothing where the card is accepted.
fn verdict_line(verdict: Verdict, slot: Slot, second: u32) -> ArrayVec<u8, MOST>
    ensures { IsVerdictLine verdict slot second result.items }
{
    match verdict {
        Verdict::Accepted { .. } => ArrayVec::new(),
        Verdict::NotValid { .. } => turned_text(slot, second, b"it is not valid"),
        Verdict::TimeOverlap { .. } => turned_text(slot, second, b"it tells of a later time"),
    }
}

/// That the card of a slot was turned away in a second, and why.
fn turned_text(slot: Slot, second: u32, what: &[u8]) -> ArrayVec<u8, MOST>
    requires { length what.now ≤ 28 }
    ensures { IsTurnedText slot second what.now result.items }
{
    timed_text(card_of(slot), b" turned away at ", second, what)
}
