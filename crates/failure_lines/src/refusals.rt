//! The lines of what a run refused.
ghost use Rattle.std.specs.Prelude.{◌≡◌, ◌≤◌, ℕ, List, length, OnOk};
ghost use Rattle.std.specs.Io.KnownBytes.{Appends};
ghost use Rattle.tach_media.specs.Streams.{CountsFaults};
ghost use Rattle.failure_lines.specs.Refusals.{AreRefusalLines, IsRefusalLine, refusal_reason};

use crate::timed::{MOST, timed_text};
use arrayvec::ArrayVec;
use log_model::{Refused, SlotFault};
use run_outcome::Lines;
use tach_media::{Failed, Sink, put_all};

/// Writes a line for each line of a trace that was refused, in their order.
///
/// # Errors
///
/// `Failed` where the sink failed.
pub fn put_refusals<K: Sink>(sink: &mut K, refused: &Lines<Refused>) -> Result<(), Failed>
    ensures told { OnOk result ((text : List ℕ) × AreRefusalLines refused.now.items text
        × Appends (K.held sink.old) (K.held sink.new) text) }
    ensures cause { CountsFaults (K.faults sink.old) (K.faults sink.new) result }
{
    for i in 0..refused.len() {
        let line = refused.get(i);
        put_all(sink, refusal_line(line).as_slice())?;
    }
    Ok(())
}

/// The line of a line of a trace that was refused.
fn refusal_line(refused: &Refused) -> ArrayVec<u8, MOST>
    ensures { IsRefusalLine refused.now result.items }
{
    timed_text(
        b"line",
        b" refused at ",
        refused.second,
        refusal_reason(refused.fault),
    )
}

/// Why a line was refused.
pub fn refusal_reason(fault: SlotFault) -> &'static [u8]
    ensures reason { result.now ≡ refusal_reason fault }
    ensures few { length result.now ≤ 28 }
{
    match fault {
        SlotFault::Moving(_) => b"the vehicle moves",
        SlotFault::Empty(_) => b"the slot is empty",
        SlotFault::Occupied(_) => b"the slot is taken",
        SlotFault::NoCard(_) => b"no accepted card in the slot",
        SlotFault::Elsewhere(_) => b"the other slot has the card",
        SlotFault::NoPower => b"there is no power",
        SlotFault::Begun(_) => b"it comes too late",
        SlotFault::NotFree(_, _) => b"the minute is not free",
        SlotFault::Full(_) => b"eight are entered already",
    }
}
