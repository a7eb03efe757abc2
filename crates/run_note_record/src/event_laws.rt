//! The events that a run has noted, from second to second: laws.
ghost use Rattle.run_devices.specs.run_promise.Between.{devices};
ghost use Rattle.run_note_record.specs.Evented.{EventsStay, EventsAreFound, ASecondIsNoted, ASecondIsBroken};
ghost use Rattle.run_note_record.specs.Evented.{APowerOnIsBroken, ADarkSecondBringsNothing, AnOffCutBringsNothing};
ghost use Rattle.run_note_record.specs.Evented.{NothingIsNoted, EventsAreShown};
ghost use Rattle.run_note_record.specs.Noting.{AStepIsNoted, AStageIsDone, TheSecondBegins, TheSecondIsNoted};
ghost use Rattle.run_note_record.specs.Noting.{TheSecondIsCut};
ghost use Rattle.run_note_record.specs.Bringing.{ATearIsBrought, ARefusalBringsNothing};

use tach_media::{Chip, Medium};

/// Calls of which no event is told leave the events as they are.
pub fn events_stay<M: Medium, C: Chip, D: Chip, N: Medium, E: Chip, F: Chip>(
    old_unit: &M,
    old_a: &C,
    old_b: &D,
    unit: &N,
    card_a: &E,
    card_b: &F,
)
    ensures { EventsStay (devices (M.state old_unit.now) (C.state old_a.now) (D.state old_b.now))
        (devices (N.state unit.now) (E.state card_a.now) (F.state card_b.now)) }
{}

/// The unit is read as power is back, and it is found what was kept.
pub fn events_are_found<M: Medium, C: Chip, D: Chip, N: Medium, E: Chip, F: Chip>(
    old_unit: &M,
    old_a: &C,
    old_b: &D,
    unit: &N,
    card_a: &E,
    card_b: &F,
)
    ensures { EventsAreFound (devices (M.state old_unit.now) (C.state old_a.now) (D.state old_b.now))
        (devices (N.state unit.now) (E.state card_a.now) (F.state card_b.now)) }
{}

/// A second with power, to its end: all that it brings was noted.
pub fn a_second_is_noted<M: Medium, C: Chip, D: Chip, N: Medium, E: Chip, F: Chip>(
    old_unit: &M,
    old_a: &C,
    old_b: &D,
    unit: &N,
    card_a: &E,
    card_b: &F,
)
    ensures { ASecondIsNoted (devices (M.state old_unit.now) (C.state old_a.now) (D.state old_b.now))
        (devices (N.state unit.now) (E.state card_a.now) (F.state card_b.now)) }
{}

/// A second in which the unit failed.
pub fn a_second_is_broken<M: Medium, C: Chip, D: Chip, N: Medium, E: Chip, F: Chip>(
    old_unit: &M,
    old_a: &C,
    old_b: &D,
    unit: &N,
    card_a: &E,
    card_b: &F,
)
    ensures { ASecondIsBroken (devices (M.state old_unit.now) (C.state old_a.now) (D.state old_b.now))
        (devices (N.state unit.now) (E.state card_a.now) (F.state card_b.now)) }
{}

/// A power-on that failed at once.
pub fn a_power_on_is_broken<M: Medium, C: Chip, D: Chip, N: Medium, E: Chip, F: Chip>(
    old_unit: &M,
    old_a: &C,
    old_b: &D,
    unit: &N,
    card_a: &E,
    card_b: &F,
)
    ensures { APowerOnIsBroken (devices (M.state old_unit.now) (C.state old_a.now) (D.state old_b.now))
        (devices (N.state unit.now) (E.state card_a.now) (F.state card_b.now)) }
{}

/// A second without power.
pub fn a_dark_second_brings_nothing<M: Medium, C: Chip, D: Chip>(unit: &M, card_a: &C, card_b: &D)
    ensures { ADarkSecondBringsNothing (devices (M.state unit.now) (C.state card_a.now) (D.state card_b.now)) }
{}

/// A cut behind all of the last second, as an `off` line tells.
pub fn an_off_cut_brings_nothing<M: Medium, C: Chip, D: Chip>(unit: &M, card_a: &C, card_b: &D)
    ensures { AnOffCutBringsNothing (devices (M.state unit.now) (C.state card_a.now) (D.state card_b.now)) }
{}

/// A run begins with nothing noted.
pub fn nothing_is_noted<M: Medium, C: Chip, D: Chip>(unit: &M, card_a: &C, card_b: &D)
    ensures { NothingIsNoted (devices (M.state unit.now) (C.state card_a.now) (D.state card_b.now)) }
{}

/// At its end every image of the unit shows its events.
pub fn events_are_shown<M: Medium, C: Chip, D: Chip, N: Medium, E: Chip, F: Chip>(
    old_unit: &M,
    old_a: &C,
    old_b: &D,
    unit: &N,
    card_a: &E,
    card_b: &F,
)
    ensures { EventsAreShown (devices (M.state old_unit.now) (C.state old_a.now) (D.state old_b.now))
        (devices (N.state unit.now) (E.state card_a.now) (F.state card_b.now)) }
{}

/// A step of a second is noted.
pub fn a_step_is_noted<M: Medium, C: Chip, D: Chip, N: Medium, E: Chip, F: Chip>(
    old_unit: &M,
    old_a: &C,
    old_b: &D,
    unit: &N,
    card_a: &E,
    card_b: &F,
)
    ensures { AStepIsNoted (devices (M.state old_unit.now) (C.state old_a.now) (D.state old_b.now))
        (devices (N.state unit.now) (E.state card_a.now) (F.state card_b.now)) }
{}

/// A stage of a second is done, and what was put off is noted.
pub fn a_stage_is_done<M: Medium, C: Chip, D: Chip, N: Medium, E: Chip, F: Chip>(
    old_unit: &M,
    old_a: &C,
    old_b: &D,
    unit: &N,
    card_a: &E,
    card_b: &F,
)
    ensures { AStageIsDone (devices (M.state old_unit.now) (C.state old_a.now) (D.state old_b.now))
        (devices (N.state unit.now) (E.state card_a.now) (F.state card_b.now)) }
{}

/// The unit fails in a second, at any stage.
pub fn the_second_is_cut<M: Medium, C: Chip, D: Chip, N: Medium, E: Chip, F: Chip>(
    old_unit: &M,
    old_a: &C,
    old_b: &D,
    unit: &N,
    card_a: &E,
    card_b: &F,
)
    ensures { TheSecondIsCut (devices (M.state old_unit.now) (C.state old_a.now) (D.state old_b.now))
        (devices (N.state unit.now) (E.state card_a.now) (F.state card_b.now)) }
{}

/// A second begins, and nothing is noted in it.
pub fn the_second_begins<M: Medium, C: Chip, D: Chip>(unit: &M, card_a: &C, card_b: &D)
    ensures { TheSecondBegins (devices (M.state unit.now) (C.state card_a.now) (D.state card_b.now)) }
{}

/// A second ends, and all that it brings is noted.
pub fn the_second_is_noted<M: Medium, C: Chip, D: Chip>(unit: &M, card_a: &C, card_b: &D)
    ensures { TheSecondIsNoted (devices (M.state unit.now) (C.state card_a.now) (D.state card_b.now)) }
{}

/// A card is torn out in an action or in the keeping, and its fault alone is brought.
pub fn a_tear_is_brought()
    ensures { ATearIsBrought }
{}

/// An action is refused, and nothing is brought.
pub fn a_refusal_brings_nothing()
    ensures { ARefusalBringsNothing }
{}
