//! What a run carries within a second, from moment to moment: laws.
ghost use Rattle.run_devices.specs.run_promise.Between.{devices};
ghost use Rattle.run_record.specs.Within.{ACutIsRecorded, TheSecondIsOver, ASecondBegins, AMinuteIsOver, ASecondIsFed};
ghost use Rattle.run_record.specs.Within.{ARefusalIsRecorded, ASelectionIsRecorded, AnEntryByHandIsRecorded};
ghost use Rattle.run_record.specs.Within.{APlaceIsRecorded, ACallIsRecorded, AFailureIsRecorded};
ghost use Rattle.run_record.specs.Judging.{ACardIsJudged, AJudgingFails, AWaitingCardIsTorn, ATearingFails};
ghost use Rattle.run_record.specs.Losing.{ACardIsLost, ALosingFails};
ghost use Rattle.run_record.specs.Powering.{PowerIsBack, AMendingFails, AReadingFails};
ghost use Rattle.run_record.specs.Waking.{PowerWakes};
ghost use Rattle.run_record.specs.Turning.{ATurnIsFed};
ghost use Rattle.run_record.specs.Going.{DarkSecondsStayRecorded, AnOffLineStaysRecorded, AnOffCutStaysRecorded};
ghost use Rattle.run_record.specs.Going.{QuietSecondsStayRecorded, ARunBegins};

use tach_media::{Chip, Medium};

/// A call on the unit has failed, and power is cut: behind the second all is recorded.
pub fn a_cut_is_recorded<M: Medium, C: Chip, D: Chip>(unit: &M, card_a: &C, card_b: &D)
    ensures { ACutIsRecorded (devices (M.state unit.now) (C.state card_a.now) (D.state card_b.now)) }
{}

/// A second ends with its keeping: behind it all is recorded.
pub fn the_second_is_over<M: Medium, C: Chip, D: Chip>(unit: &M, card_a: &C, card_b: &D)
    ensures { TheSecondIsOver (devices (M.state unit.now) (C.state card_a.now) (D.state card_b.now)) }
{}

/// A second begins in the same minute.
pub fn a_second_begins<M: Medium, C: Chip, D: Chip>(unit: &M, card_a: &C, card_b: &D)
    ensures { ASecondBegins (devices (M.state unit.now) (C.state card_a.now) (D.state card_b.now)) }
{}

/// A second begins with which a minute is over.
pub fn a_minute_is_over<M: Medium, C: Chip, D: Chip>(unit: &M, card_a: &C, card_b: &D)
    ensures { AMinuteIsOver (devices (M.state unit.now) (C.state card_a.now) (D.state card_b.now)) }
{}

/// A second is fed behind all of its actions.
pub fn a_second_is_fed<M: Medium, C: Chip, D: Chip>(unit: &M, card_a: &C, card_b: &D)
    ensures { ASecondIsFed (devices (M.state unit.now) (C.state card_a.now) (D.state card_b.now)) }
{}

/// An action is refused, and that is told.
pub fn a_refusal_is_recorded<M: Medium, C: Chip, D: Chip>(unit: &M, card_a: &C, card_b: &D)
    ensures { ARefusalIsRecorded (devices (M.state unit.now) (C.state card_a.now) (D.state card_b.now)) }
{}

/// An activity is selected.
pub fn a_selection_is_recorded<M: Medium, C: Chip, D: Chip>(unit: &M, card_a: &C, card_b: &D)
    ensures { ASelectionIsRecorded (devices (M.state unit.now) (C.state card_a.now) (D.state card_b.now)) }
{}

/// An entry by hand is let pass by slots and speed.
pub fn an_entry_by_hand_is_recorded<M: Medium, C: Chip, D: Chip>(unit: &M, card_a: &C, card_b: &D)
    ensures { AnEntryByHandIsRecorded (devices (M.state unit.now) (C.state card_a.now) (D.state card_b.now)) }
{}

/// A call on the devices of which nothing is told goes well.
pub fn a_call_is_recorded<M: Medium, C: Chip, D: Chip, N: Medium, E: Chip, F: Chip>(
    old_unit: &M,
    old_a: &C,
    old_b: &D,
    unit: &N,
    card_a: &E,
    card_b: &F,
)
    ensures { ACallIsRecorded (devices (M.state old_unit.now) (C.state old_a.now) (D.state old_b.now))
        (devices (N.state unit.now) (E.state card_a.now) (F.state card_b.now)) }
{}

/// A call fails on the unit.
pub fn a_failure_is_recorded<M: Medium, C: Chip, D: Chip, N: Medium, E: Chip, F: Chip>(
    old_unit: &M,
    old_a: &C,
    old_b: &D,
    unit: &N,
    card_a: &E,
    card_b: &F,
)
    ensures { AFailureIsRecorded (devices (M.state old_unit.now) (C.state old_a.now) (D.state old_b.now))
        (devices (N.state unit.now) (E.state card_a.now) (F.state card_b.now)) }
{}

/// A place is told of.
pub fn a_place_is_recorded<M: Medium, C: Chip, D: Chip>(unit: &M, card_a: &C, card_b: &D)
    ensures { APlaceIsRecorded (devices (M.state unit.now) (C.state card_a.now) (D.state card_b.now)) }
{}

/// A card that waits is judged, and accepted or not.
pub fn a_card_is_judged<M: Medium, C: Chip, D: Chip, N: Medium, E: Chip, F: Chip>(
    old_unit: &M,
    old_a: &C,
    old_b: &D,
    unit: &N,
    card_a: &E,
    card_b: &F,
)
    ensures { ACardIsJudged (devices (M.state old_unit.now) (C.state old_a.now) (D.state old_b.now))
        (devices (N.state unit.now) (E.state card_a.now) (F.state card_b.now)) }
{}

/// The unit failed behind that: power is about to be cut.
pub fn a_judging_fails<M: Medium, C: Chip, D: Chip, N: Medium, E: Chip, F: Chip>(
    old_unit: &M,
    old_a: &C,
    old_b: &D,
    unit: &N,
    card_a: &E,
    card_b: &F,
)
    ensures { AJudgingFails (devices (M.state old_unit.now) (C.state old_a.now) (D.state old_b.now))
        (devices (N.state unit.now) (E.state card_a.now) (F.state card_b.now)) }
{}

/// A card that waits is torn out before it is judged.
pub fn a_waiting_card_is_torn<M: Medium, C: Chip, D: Chip, N: Medium, E: Chip, F: Chip>(
    old_unit: &M,
    old_a: &C,
    old_b: &D,
    unit: &N,
    card_a: &E,
    card_b: &F,
)
    ensures { AWaitingCardIsTorn (devices (M.state old_unit.now) (C.state old_a.now) (D.state old_b.now))
        (devices (N.state unit.now) (E.state card_a.now) (F.state card_b.now)) }
{}

/// The unit failed behind that: power is about to be cut.
pub fn a_tearing_fails<M: Medium, C: Chip, D: Chip, N: Medium, E: Chip, F: Chip>(
    old_unit: &M,
    old_a: &C,
    old_b: &D,
    unit: &N,
    card_a: &E,
    card_b: &F,
)
    ensures { ATearingFails (devices (M.state old_unit.now) (C.state old_a.now) (D.state old_b.now))
        (devices (N.state unit.now) (E.state card_a.now) (F.state card_b.now)) }
{}

/// A card that waits is accepted and torn out in one call.
pub fn a_card_is_lost<M: Medium, C: Chip, D: Chip, N: Medium, E: Chip, F: Chip>(
    old_unit: &M,
    old_a: &C,
    old_b: &D,
    unit: &N,
    card_a: &E,
    card_b: &F,
)
    ensures { ACardIsLost (devices (M.state old_unit.now) (C.state old_a.now) (D.state old_b.now))
        (devices (N.state unit.now) (E.state card_a.now) (F.state card_b.now)) }
{}

/// The unit failed behind that: power is about to be cut.
pub fn a_losing_fails<M: Medium, C: Chip, D: Chip, N: Medium, E: Chip, F: Chip>(
    old_unit: &M,
    old_a: &C,
    old_b: &D,
    unit: &N,
    card_a: &E,
    card_b: &F,
)
    ensures { ALosingFails (devices (M.state old_unit.now) (C.state old_a.now) (D.state old_b.now))
        (devices (N.state unit.now) (E.state card_a.now) (F.state card_b.now)) }
{}

/// The unit was read and mended: the second begins with power.
pub fn power_is_back<M: Medium, C: Chip, D: Chip, N: Medium, E: Chip, F: Chip>(
    old_unit: &M,
    old_a: &C,
    old_b: &D,
    unit: &N,
    card_a: &E,
    card_b: &F,
)
    ensures { PowerIsBack (devices (M.state old_unit.now) (C.state old_a.now) (D.state old_b.now))
        (devices (N.state unit.now) (E.state card_a.now) (F.state card_b.now)) }
{}

/// The unit was read, and its mending failed: power is about to be cut.
pub fn a_mending_fails<M: Medium, C: Chip, D: Chip, N: Medium, E: Chip, F: Chip>(
    old_unit: &M,
    old_a: &C,
    old_b: &D,
    unit: &N,
    card_a: &E,
    card_b: &F,
)
    ensures { AMendingFails (devices (M.state old_unit.now) (C.state old_a.now) (D.state old_b.now))
        (devices (N.state unit.now) (E.state card_a.now) (F.state card_b.now)) }
{}

/// The unit was not read, since a call failed: behind the second all is recorded.
pub fn a_reading_fails<M: Medium, C: Chip, D: Chip, N: Medium, E: Chip, F: Chip>(
    old_unit: &M,
    old_a: &C,
    old_b: &D,
    unit: &N,
    card_a: &E,
    card_b: &F,
)
    ensures { AReadingFails (devices (M.state old_unit.now) (C.state old_a.now) (D.state old_b.now))
        (devices (N.state unit.now) (E.state card_a.now) (F.state card_b.now)) }
{}

/// At the power-on that the second begins with, each card in a slot may be judged.
pub fn power_wakes<M: Medium, C: Chip, D: Chip, N: Medium, E: Chip, F: Chip>(
    old_unit: &M,
    old_a: &C,
    old_b: &D,
    unit: &N,
    card_a: &E,
    card_b: &F,
)
    ensures { PowerWakes (devices (M.state old_unit.now) (C.state old_a.now) (D.state old_b.now))
        (devices (N.state unit.now) (E.state card_a.now) (F.state card_b.now)) }
{}

/// Seconds after a failed call, up to the minute's end: the record goes on.
pub fn dark_seconds_stay_recorded<M: Medium, C: Chip, D: Chip>(unit: &M, card_a: &C, card_b: &D)
    ensures { DarkSecondsStayRecorded (devices (M.state unit.now) (C.state card_a.now) (D.state card_b.now)) }
{}

/// So it does over an `off` line where there is no power,
pub fn an_off_line_stays_recorded<M: Medium, C: Chip, D: Chip>(unit: &M, card_a: &C, card_b: &D)
    ensures { AnOffLineStaysRecorded (devices (M.state unit.now) (C.state card_a.now) (D.state card_b.now)) }
{}

/// and where the line takes it.
pub fn an_off_cut_stays_recorded<M: Medium, C: Chip, D: Chip>(unit: &M, card_a: &C, card_b: &D)
    ensures { AnOffCutStaysRecorded (devices (M.state unit.now) (C.state card_a.now) (D.state card_b.now)) }
{}

/// Seconds of a minute with power in which nothing happens.
pub fn quiet_seconds_stay_recorded<M: Medium, C: Chip, D: Chip>(unit: &M, card_a: &C, card_b: &D)
    ensures { QuietSecondsStayRecorded (devices (M.state unit.now) (C.state card_a.now) (D.state card_b.now)) }
{}

/// A run begins with nothing recorded.
pub fn a_run_begins<M: Medium, C: Chip, D: Chip>(unit: &M, card_a: &C, card_b: &D)
    ensures { ARunBegins (devices (M.state unit.now) (C.state card_a.now) (D.state card_b.now)) }
{}

/// So many seconds of a minute are fed at once.
pub fn a_turn_is_fed<M: Medium, C: Chip, D: Chip>(unit: &M, card_a: &C, card_b: &D)
    ensures { ATurnIsFed (devices (M.state unit.now) (C.state card_a.now) (D.state card_b.now)) }
{}
