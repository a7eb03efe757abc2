//! A trace recorded on a unit, and what the run tells.
ghost use Rattle.unit_model.specs.Image.{IsUnit};

use crate::recording::{Recorded, line_at, line_at_end, record};
use recorder_with_cards::{Break, Lines, Mark, Outcome, Refused, RunFault};
use std::alloc::Global;
use std::test::Fail;
use tach_media::Medium;
use worked_media::{NO_ROOM, Room, card_of_zeros};

/// The room of a unit's log.
pub const ROOM: Room = Room {
    writes: 400000,
    bytes: 40000000,
};

/// What a run tells: how it ended, how many lines of each kind there are, the minutes of the first mark and of the last
/// one, the last break and the last refusal, and whether each break is a cut that is right.
#[derive(Clone, Copy)]
pub struct Ran {
    pub ended: Result<(), RunFault>,
    pub marks: usize,
    pub breaks: usize,
    pub refused: usize,
    pub first: Option<u32>,
    pub last: Option<u32>,
    pub cut: Option<Break>,
    pub refusal: Option<Refused>,
    pub is_right: bool,
}

impl Ran {
    /// What a run tells.
    fn of(recorded: &Recorded) -> Ran {
        let outcome = &recorded.outcome;
        Ran {
            ended: recorded.ended,
            marks: outcome.marks.len(),
            breaks: outcome.breaks.len(),
            refused: outcome.refused.len(),
            first: minute_of(line_at(&outcome.marks, 0)),
            last: minute_of(line_at_end(&outcome.marks)),
            cut: line_at_end(&outcome.breaks),
            refusal: line_at_end(&outcome.refused),
            is_right: are_right(outcome),
        }
    }
    /// Whether the trace was recorded, with so many marks, breaks and refusals.
    pub fn has(&self, marks: usize, breaks: usize, refused: usize) -> bool {
        self.ended.is_ok()
            && self.marks == marks
            && self.breaks == breaks
            && self.refused == refused
    }
}

/// The minute of a mark.
fn minute_of(mark: Option<Mark>) -> Option<u32> {
    match mark {
        Some(mark) => Some(mark.minute),
        None => None,
    }
}

/// Whether a cut tells the marks before it, and none behind it: of those in an earlier minute it found the last, or a
/// later one.
fn is_right(marks: &Lines<Mark>, cut: &Break) -> bool {
    let Break::Cut {
        second,
        kept,
        failed,
        ..
    } = *cut
    else {
        return false;
    };
    for i in 0..marks.len() {
        let minute = marks.get(i).minute;
        if (minute <= kept) != (minute < second / 60) {
            return false;
        }
    }
    failed
}

fn are_right(outcome: &Outcome) -> bool {
    for i in 0..outcome.breaks.len() {
        if !is_right(&outcome.marks, outcome.breaks.get(i)) {
            return false;
        }
    }
    true
}

/// Records a trace, which has no line for a card, on a unit.
pub fn run_alone<U: Medium>(alloc: Global, text: &[u8], unit: &mut U) -> Result<Ran, Fail>
    requires { IsUnit (U.state unit.old) }
    ensures { IsUnit (U.state unit.new) }
{
    let mut card_a = card_of_zeros(alloc, NO_ROOM)?;
    let mut card_b = card_of_zeros(alloc, NO_ROOM)?;
    let recorded = record(alloc, text, unit, &mut card_a, &mut card_b)?;
    Ok(Ran::of(&recorded))
}
