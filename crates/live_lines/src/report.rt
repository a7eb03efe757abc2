//! What one line tells of a run.
ghost use Rattle.std.specs.Prelude.{◌≡◌, ◌≤◌, ◌++◌, length, codes};
ghost use Rattle.activity_codec.specs.Names.{slot_name};
ghost use Rattle.run_model.specs.Names.{device_name};
ghost use Rattle.failure_lines.specs.Refusals.{refusal_reason};
ghost use Rattle.live_lines.specs.Texts.{IsReportText, IsBreakText, failed_words, verdict_words};

use crate::minute_line::minute_line;
use crate::timed_line::{MOST, timed_line};
use activity_codec::Slot;
use arrayvec::ArrayVec;
use log_model::{Break, Find, Mark, Refused, SlotFault, Verdict};
use run_model::Device;

/// What one line tells.
#[derive(Clone, Copy, Debug)]
pub enum Report {
    /// The devices were judged, and a run begins in this second.
    Began(u32),
    /// An action was refused.
    Refused(Refused),
    /// A card was judged.
    Found(Find),
    /// A device has acknowledged a minute.
    Acknowledged(Mark),
    /// Power was lost, or a card was torn out.
    Broken(Break),
}

/// The line of a report.
pub fn report_line(report: Report) -> ArrayVec<u8, MOST>
    ensures { IsReportText report result.items }
{
    match report {
        Report::Began(second) => timed_line(b"began", second, b""),
        Report::Refused(refused) => timed_line(
            b"refused",
            refused.second,
            refusal_words(refused.fault),
        ),
        Report::Found(find) => timed_line(
            found_in(find.slot),
            find.second,
            verdict_words(find.verdict),
        ),
        Report::Acknowledged(mark) => minute_line(device_name(mark.device), mark.minute),
        Report::Broken(line) => break_line(line),
    }
}

/// The line of a break. What was found kept behind a cut is known only later, and not told.
fn break_line(line: Break) -> ArrayVec<u8, MOST>
    ensures { IsBreakText line result.items }
{
    match line {
        Break::Cut { second, failed, .. } => timed_line(b"cut", second, failed_words(failed)),
        Break::Tear {
            second,
            slot,
            failed,
            ..
        } => timed_line(torn_from(slot), second, failed_words(failed)),
    }
}

/// A card was judged in this slot.
fn found_in(slot: Slot) -> &'static [u8]
    ensures name { result.now ≡ codes "found " ++ slot_name slot }
    ensures few { length result.now ≤ 14 }
{
    match slot {
        Slot::Driver => b"found driver",
        Slot::CoDriver => b"found codriver",
    }
}

/// A card was torn out of this slot.
fn torn_from(slot: Slot) -> &'static [u8]
    ensures name { result.now ≡ codes "torn " ++ slot_name slot }
    ensures few { length result.now ≤ 14 }
{
    match slot {
        Slot::Driver => b"torn driver",
        Slot::CoDriver => b"torn codriver",
    }
}

/// Why an action was refused: the words of standard error.
fn refusal_words(fault: SlotFault) -> &'static [u8]
    ensures words { result.now ≡ refusal_reason fault }
    ensures few { length result.now ≤ 28 }
{
    match fault {
        SlotFault::Moving(_) => b"the vehicle moves",
        SlotFault::Empty(_) => b"the slot is empty",
        SlotFault::Occupied(_) => b"the slot is taken",
        SlotFault::NoCard(_) => b"no accepted card in the slot",
        SlotFault::Elsewhere(_) => b"the other slot has the card",
        SlotFault::NoPower => b"there is no power",
        SlotFault::Begun(_) => b"it comes too late",
        SlotFault::NotFree(_, _) => b"the minute is not free",
        SlotFault::Full(_) => b"eight are entered already",
    }
}

/// What a card was found to be.
fn verdict_words(verdict: Verdict) -> &'static [u8]
    ensures words { result.now ≡ verdict_words verdict }
    ensures few { length result.now ≤ 28 }
{
    match verdict {
        Verdict::Accepted { .. } => b"accepted",
        Verdict::NotValid { .. } => b"not valid",
        Verdict::TimeOverlap { .. } => b"of a later time",
    }
}

/// That a call has failed, if one has.
fn failed_words(failed: bool) -> &'static [u8]
    ensures words { result.now ≡ failed_words failed }
    ensures few { length result.now ≤ 28 }
{
    if failed { b"failed" } else { b"" }
}

/// What a device is called.
fn device_name(device: Device) -> &'static [u8]
    ensures name { result.now ≡ device_name device }
    ensures few { length result.now ≤ 14 }
{
    match device {
        Device::Unit => b"unit",
        Device::CardA => b"card-a",
        Device::CardB => b"card-b",
    }
}
