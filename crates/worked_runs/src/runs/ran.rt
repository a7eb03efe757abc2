//! What a run with cards tells, as numbers.
use crate::recording::{Recorded, line_at, line_at_end};
use recorder_with_cards::{Break, Find, Lines, Mark, Refused, Verdict};
use run_model::Device;

/// Whether a trace was recorded, how many minutes each device has acknowledged, how many other lines there are, and how
/// many breaks a failed call made; the first refusal, and the last break, find and refusal.
#[derive(Clone, Copy)]
pub struct Ran {
    pub is_recorded: bool,
    pub unit: usize,
    pub card_a: usize,
    pub card_b: usize,
    pub breaks: usize,
    pub failed: usize,
    pub refused: usize,
    pub finds: usize,
    pub first_refusal: Option<Refused>,
    pub last_refusal: Option<Refused>,
    pub last_break: Option<Break>,
    pub last_find: Option<Find>,
}

impl Ran {
    /// What a run tells.
    pub fn of(recorded: &Recorded) -> Ran {
        let outcome = &recorded.outcome;
        Ran {
            is_recorded: recorded.ended.is_ok(),
            unit: marks_of(&outcome.marks, Device::Unit),
            card_a: marks_of(&outcome.marks, Device::CardA),
            card_b: marks_of(&outcome.marks, Device::CardB),
            breaks: outcome.breaks.len(),
            failed: failed_breaks(&outcome.breaks),
            refused: outcome.refused.len(),
            finds: outcome.finds.len(),
            first_refusal: line_at(&outcome.refused, 0),
            last_refusal: line_at_end(&outcome.refused),
            last_break: line_at_end(&outcome.breaks),
            last_find: line_at_end(&outcome.finds),
        }
    }

    /// Whether the trace was recorded with so many acknowledged minutes of the unit and of the first card, and none of
    /// the second one.
    pub fn has(&self, unit: usize, card_a: usize) -> bool {
        self.is_recorded && self.unit == unit && self.card_a == card_a && self.card_b == 0
    }

    /// How many entries the last find has put on its card.
    pub fn replayed(&self) -> Option<u8> {
        match self.last_find {
            Some(
                Find {
                    verdict: Verdict::Accepted { replayed },
                    ..
                },
            ) => Some(replayed),
            _ => None,
        }
    }
}

/// How many minutes a device has acknowledged.
fn marks_of(marks: &Lines<Mark>, device: Device) -> usize {
    let mut count = 0;
    for i in 0..marks.len() {
        if marks.get(i).device == device {
            count = usize::saturating_add(count, 1);
        }
    }
    count
}

/// How many breaks a failed call made.
fn failed_breaks(breaks: &Lines<Break>) -> usize {
    let mut count = 0;
    for i in 0..breaks.len() {
        let failed = match *breaks.get(i) {
            Break::Cut { failed, .. } => failed,
            Break::Tear { failed, .. } => failed,
        };
        if failed {
            count = usize::saturating_add(count, 1);
        }
    }
    count
}
