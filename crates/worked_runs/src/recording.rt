//! A trace recorded on a unit and two cards.
ghost use Rattle.unit_model.specs.Image.{IsUnit};

use card_layout::LARGEST_IMAGE;
use recorder_with_cards::{Lines, Outcome, RunFault, run_trace};
use std::alloc::Global;
use std::test::Fail;
use tach_media::{Chip, Medium};
use worked_media::trace_of;

/// How a run ended, and what it has told.
#[derive(Drop)]
pub struct Recorded {
    pub ended: Result<(), RunFault>,
    pub outcome: Outcome,
}

/// Records the trace that a text spells.
pub fn record<U: Medium, C: Chip>(
    alloc: Global,
    text: &[u8],
    unit: &mut U,
    card_a: &mut C,
    card_b: &mut C,
) -> Result<Recorded, Fail>
    requires { IsUnit (U.state unit.old) }
    ensures { IsUnit (U.state unit.new) }
{
    let trace = trace_of(alloc, text)?;
    let mut outcome = Outcome::reserve(alloc, &trace)?;
    if card_a.size() < LARGEST_IMAGE || card_b.size() < LARGEST_IMAGE {
        return Err(Fail::from("a card is too small"));
    }
    let ended = run_trace(&trace, unit, card_a, card_b, &mut outcome);
    Ok(Recorded { ended, outcome })
}

/// The line with a number.
pub fn line_at<T: Copy>(lines: &Lines<T>, number: usize) -> Option<T> {
    if number < lines.len() {
        return Some(*lines.get(number));
    }
    None
}

/// The last line.
pub fn line_at_end<T: Copy>(lines: &Lines<T>) -> Option<T> {
    line_at(lines, lines.len().saturating_sub(1))
}
