//! Seconds of a run that bring no event: laws.
ghost use Rattle.run_devices.specs.run_promise.Between.{devices};
ghost use Rattle.run_note_record.specs.Going.{DarkSecondsBringNothing, AnOffLineBringsNothing};
ghost use Rattle.run_note_record.specs.Going.{AnOffLineCutsAndBringsNothing, QuietSecondsBringNothing};
ghost use Rattle.run_note_record.specs.Going.{SecondsAlikeEndNothing};

use tach_media::{Chip, Medium};

/// Seconds after a failed call, up to the minute's end, bring no event.
pub fn dark_seconds_bring_nothing<M: Medium, C: Chip, D: Chip>(unit: &M, card_a: &C, card_b: &D)
    ensures { DarkSecondsBringNothing (devices (M.state unit.now) (C.state card_a.now) (D.state card_b.now)) }
{}

/// Nor does an `off` line where there is no power,
pub fn an_off_line_brings_nothing<M: Medium, C: Chip, D: Chip>(unit: &M, card_a: &C, card_b: &D)
    ensures { AnOffLineBringsNothing (devices (M.state unit.now) (C.state card_a.now) (D.state card_b.now)) }
{}

/// nor one that takes it.
pub fn an_off_line_cuts_and_brings_nothing<M: Medium, C: Chip, D: Chip>(
    unit: &M,
    card_a: &C,
    card_b: &D,
)
    ensures { AnOffLineCutsAndBringsNothing (devices (M.state unit.now) (C.state card_a.now) (D.state card_b.now)) }
{}

/// Seconds with power in which nothing happens bring none where nothing ends with them;
pub fn quiet_seconds_bring_nothing<M: Medium, C: Chip, D: Chip>(unit: &M, card_a: &C, card_b: &D)
    ensures { QuietSecondsBringNothing (devices (M.state unit.now) (C.state card_a.now) (D.state card_b.now)) }
{}

/// and nothing does where they are alike, and so is the second before them.
pub fn seconds_alike_end_nothing()
    ensures { SecondsAlikeEndNothing }
{}
