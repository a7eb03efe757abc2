//! What each step within a second adds to its events: laws.
ghost use Rattle.run_devices.specs.run_promise.Between.{devices};
ghost use Rattle.run_note_record.specs.EventsSoFar.{StepsFollow, ASecondBegins, ASecondEnds, ATearAdds, AFindAdds};
ghost use Rattle.run_note_record.specs.EventsSoFar.{AWakingTearAdds, AnInterruptionAdds, ARefusalAddsNothing};
ghost use Rattle.run_note_record.specs.EventsSoFar.{APullAddsNothing, WhatEndsIsAdded, ACallNotes, AFailureCuts};
ghost use Rattle.run_note_record.specs.Kept.{TheInterruptionIsFound, NoBreakNoSpan};

use tach_media::{Chip, Medium};

/// What steps add follows one another.
pub fn steps_follow<M: Medium, C: Chip, D: Chip>(unit: &M, card_a: &C, card_b: &D)
    ensures { StepsFollow (devices (M.state unit.now) (C.state card_a.now) (D.state card_b.now)) }
{}

/// A second begins, and nothing is told of it yet.
pub fn a_second_begins_now<M: Medium, C: Chip, D: Chip>(unit: &M, card_a: &C, card_b: &D)
    ensures { ASecondBegins (devices (M.state unit.now) (C.state card_a.now) (D.state card_b.now)) }
{}

/// It ends, and all that it brings is noted.
pub fn a_second_ends_now<M: Medium, C: Chip, D: Chip>(unit: &M, card_a: &C, card_b: &D)
    ensures { ASecondEnds (devices (M.state unit.now) (C.state card_a.now) (D.state card_b.now)) }
{}

/// A card that is torn out in an action or in the keeping adds its fault, with the cards that are left.
pub fn a_tear_adds<M: Medium, C: Chip, D: Chip>(unit: &M, card_a: &C, card_b: &D)
    ensures { ATearAdds (devices (M.state unit.now) (C.state card_a.now) (D.state card_b.now)) }
{}

/// A card that is judged adds what was found of it, with the cards beside it.
pub fn a_find_adds<M: Medium, C: Chip, D: Chip>(unit: &M, card_a: &C, card_b: &D)
    ensures { AFindAdds (devices (M.state unit.now) (C.state card_a.now) (D.state card_b.now)) }
{}

/// A card that is torn out as it is judged at a power-on adds its fault.
pub fn a_waking_tear_adds<M: Medium, C: Chip, D: Chip>(unit: &M, card_a: &C, card_b: &D)
    ensures { AWakingTearAdds (devices (M.state unit.now) (C.state card_a.now) (D.state card_b.now)) }
{}

/// The interruption before a power-on is added, and the faults of the cards that fall as it is noted on them.
pub fn an_interruption_adds<M: Medium, C: Chip, D: Chip>(unit: &M, card_a: &C, card_b: &D)
    ensures { AnInterruptionAdds (devices (M.state unit.now) (C.state card_a.now) (D.state card_b.now)) }
{}

/// A refused action adds nothing,
pub fn a_refusal_adds_nothing<M: Medium, C: Chip, D: Chip>(unit: &M, card_a: &C, card_b: &D)
    ensures { ARefusalAddsNothing (devices (M.state unit.now) (C.state card_a.now) (D.state card_b.now)) }
{}

/// nor does a card that is pulled out.
pub fn a_pull_adds_nothing<M: Medium, C: Chip, D: Chip>(unit: &M, card_a: &C, card_b: &D)
    ensures { APullAddsNothing (devices (M.state unit.now) (C.state card_a.now) (D.state card_b.now)) }
{}

/// What has ended with the second before is added behind all else.
pub fn what_ends_is_added<M: Medium, C: Chip, D: Chip>(unit: &M, card_a: &C, card_b: &D)
    ensures { WhatEndsIsAdded (devices (M.state unit.now) (C.state card_a.now) (D.state card_b.now)) }
{}

/// A call notes what its lines add.
pub fn a_call_notes<M: Medium, C: Chip, D: Chip, N: Medium, E: Chip, F: Chip>(
    old_unit: &M,
    old_a: &C,
    old_b: &D,
    unit: &N,
    card_a: &E,
    card_b: &F,
)
    ensures { ACallNotes (devices (M.state old_unit.now) (C.state old_a.now) (D.state old_b.now))
        (devices (N.state unit.now) (E.state card_a.now) (F.state card_b.now)) }
{}

/// The unit fails in a call, behind lines that add these events, and the cut that is told ends the second.
pub fn a_failure_cuts<M: Medium, C: Chip, D: Chip, N: Medium, E: Chip, F: Chip>(
    old_unit: &M,
    old_a: &C,
    old_b: &D,
    unit: &N,
    card_a: &E,
    card_b: &F,
)
    ensures { AFailureCuts (devices (M.state old_unit.now) (C.state old_a.now) (D.state old_b.now))
        (devices (N.state unit.now) (E.state card_a.now) (F.state card_b.now)) }
{}

/// The interruption is told by the last-kept minute that the unit shows as it is read.
pub fn the_interruption_is_found()
    ensures { TheInterruptionIsFound }
{}

/// Where no break was told there was no power span before.
pub fn no_break_no_span()
    ensures { NoBreakNoSpan }
{}
