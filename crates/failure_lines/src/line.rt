//! The line of one break.
ghost use Rattle.std.specs.Prelude.{◌≡◌, ◌≤◌, ◌++◌, length, codes};
ghost use Rattle.activity_codec.specs.Names.{slot_name};
ghost use Rattle.failure_lines.specs.Failures.{IsBreakLine, IsFailureText, is_failed, last_line};

use crate::timed::{MOST, add, timed_text};
use activity_codec::Slot;
use arrayvec::ArrayVec;
use itoa::Buffer;
use log_model::Break;

/// The line of a break that a failed call made; nothing of any other.
pub fn failure_line(line: &Break) -> ArrayVec<u8, MOST>
    ensures { IsBreakLine line.now result.items }
{
    match *line {
        Break::Cut { second, failed, .. } => {
            if !failed {
                return ArrayVec::new();
            }
            failure_text(b"unit", second, b"power is cut")
        }
        Break::Tear {
            second,
            slot,
            failed,
            ..
        } => {
            if !failed {
                return ArrayVec::new();
            }
            failure_text(card_of(slot), second, b"it is torn out")
        }
    }
}

/// Whether a failed call made a break.
pub fn is_failed(line: &Break) -> bool
    ensures { result ≡ is_failed line.now }
{
    match *line {
        Break::Cut { failed, .. } => failed,
        Break::Tear { failed, .. } => failed,
    }
}

/// The last line: how many such breaks there are; nothing where there is none.
pub fn last_line(failed: usize) -> ArrayVec<u8, MOST>
    ensures { result.items ≡ last_line failed }
{
    let mut text = ArrayVec::new();
    if failed == 0 {
        return text;
    }
    let mut digits = Buffer::new();
    let number = digits.format(failed);
    add(&mut text, b"breaks by failed calls ");
    add(&mut text, number.as_bytes());
    add(&mut text, b"\n");
    text
}

/// The card of a slot, as a line names it.
pub fn card_of(slot: Slot) -> &'static [u8]
    ensures name { result.now ≡ slot_name slot ++ codes " card" }
    ensures few { length result.now ≤ 13 }
{
    match slot {
        Slot::Driver => b"driver card",
        Slot::CoDriver => b"codriver card",
    }
}

/// What failed in a second, and what became of it.
fn failure_text(who: &[u8], second: u32, what: &[u8]) -> ArrayVec<u8, MOST>
    requires who { length who.now ≤ 13 }
    requires what { length what.now ≤ 14 }
    ensures { IsFailureText who.now second what.now result.items }
{
    timed_text(who, b" failed at ", second, what)
}
