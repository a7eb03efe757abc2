//! The rings of insertions and places, from note to note: laws.
ghost use Rattle.std.specs.Prelude.{◌≡◌, All, List, [], ◌∷◌, ◌++◌};
ghost use Rattle.run_devices.specs.trace_model.Trace.{TraceSecond};
ghost use Rattle.run_devices.specs.log_model.Log.{RunLog};
ghost use Rattle.run_devices.specs.log_model.Same.{SameAt};
ghost use Rattle.run_devices.specs.run_promise.Between.{devices};
ghost use Rattle.run_note_record.specs.Waking.{PowerBeginsInRings, ASlotIsPassedAnew, ACardIsAcceptedAnew};
ghost use Rattle.run_note_record.specs.Waking.{AnAcceptanceIsCutAnew};
ghost use Rattle.run_note_record.specs.Steps.{AnActionPasses, AnActionIsCut, APlaceIsEntered, APlaceIsCut};
ghost use Rattle.run_note_record.specs.Steps.{ACardIsWithdrawn, AWithdrawalIsCut, ACardIsAccepted, AnAcceptanceIsCut};
ghost use Rattle.run_note_record.specs.RingsSoFar.{ASecondBeginsInRings, RingsGoOn, AnActionNotesNothing};
ghost use Rattle.run_note_record.specs.RingsSoFar.{AnActionIsNoted, TheSecondEndsInRings, ACutEndsInRings};
ghost use Rattle.run_note_record.specs.RingsSoFar.{DarkSecondsNoteNothing};
ghost use Rattle.run_note_record.specs.Ringed.{NoRingIsWritten, RingsStay, FewerSit, AnInsertionIsNoted, APlaceIsNoted};
ghost use Rattle.run_note_record.specs.Ringed.{AWithdrawalIsNoted, AWithdrawalIsBroken, AnInsertionIsBroken};
ghost use Rattle.run_note_record.specs.Ringed.{APlaceIsBroken, RingsAreShown, PlacesAreShown, notes_in, noted_next};

use tach_media::{Chip, Medium};

/// A run begins with nothing noted in the rings.
pub fn no_ring_is_written<M: Medium, C: Chip, D: Chip>(unit: &M, card_a: &C, card_b: &D)
    ensures { NoRingIsWritten (devices (M.state unit.now) (C.state card_a.now) (D.state card_b.now)) }
{}

/// Calls that write no ring leave both as they are, as the log and the power spans go on.
pub fn rings_stay<M: Medium, C: Chip, D: Chip, N: Medium, E: Chip, F: Chip>(
    old_unit: &M,
    old_a: &C,
    old_b: &D,
    unit: &N,
    card_a: &E,
    card_b: &F,
)
    ensures { RingsStay (devices (M.state old_unit.now) (C.state old_a.now) (D.state old_b.now))
        (devices (N.state unit.now) (E.state card_a.now) (F.state card_b.now)) }
{}

/// A card leaves its slot, or power is lost.
pub fn fewer_sit<M: Medium, C: Chip, D: Chip>(unit: &M, card_a: &C, card_b: &D)
    ensures { FewerSit (devices (M.state unit.now) (C.state card_a.now) (D.state card_b.now)) }
{}

/// The insertion of a card that is accepted is noted.
pub fn an_insertion_is_noted<M: Medium, C: Chip, D: Chip, N: Medium, E: Chip, F: Chip>(
    old_unit: &M,
    old_a: &C,
    old_b: &D,
    unit: &N,
    card_a: &E,
    card_b: &F,
)
    ensures { AnInsertionIsNoted (devices (M.state old_unit.now) (C.state old_a.now) (D.state old_b.now))
        (devices (N.state unit.now) (E.state card_a.now) (F.state card_b.now)) }
{}

/// A place is noted.
pub fn a_place_is_noted<M: Medium, C: Chip, D: Chip, N: Medium, E: Chip, F: Chip>(
    old_unit: &M,
    old_a: &C,
    old_b: &D,
    unit: &N,
    card_a: &E,
    card_b: &F,
)
    ensures { APlaceIsNoted (devices (M.state old_unit.now) (C.state old_a.now) (D.state old_b.now))
        (devices (N.state unit.now) (E.state card_a.now) (F.state card_b.now)) }
{}

/// The unit failed as an insertion was noted.
pub fn an_insertion_is_broken<M: Medium, C: Chip, D: Chip, N: Medium, E: Chip, F: Chip>(
    old_unit: &M,
    old_a: &C,
    old_b: &D,
    unit: &N,
    card_a: &E,
    card_b: &F,
)
    ensures { AnInsertionIsBroken (devices (M.state old_unit.now) (C.state old_a.now) (D.state old_b.now))
        (devices (N.state unit.now) (E.state card_a.now) (F.state card_b.now)) }
{}

/// The unit failed as a place was noted.
pub fn a_place_is_broken<M: Medium, C: Chip, D: Chip, N: Medium, E: Chip, F: Chip>(
    old_unit: &M,
    old_a: &C,
    old_b: &D,
    unit: &N,
    card_a: &E,
    card_b: &F,
)
    ensures { APlaceIsBroken (devices (M.state old_unit.now) (C.state old_a.now) (D.state old_b.now))
        (devices (N.state unit.now) (E.state card_a.now) (F.state card_b.now)) }
{}

/// A withdrawal is noted in the entry of the card's last insertion, or that is gone.
pub fn a_withdrawal_is_noted<M: Medium, C: Chip, D: Chip, N: Medium, E: Chip, F: Chip>(
    old_unit: &M,
    old_a: &C,
    old_b: &D,
    unit: &N,
    card_a: &E,
    card_b: &F,
)
    ensures { AWithdrawalIsNoted (devices (M.state old_unit.now) (C.state old_a.now) (D.state old_b.now))
        (devices (N.state unit.now) (E.state card_a.now) (F.state card_b.now)) }
{}

/// At the end of a run every image of the unit shows its rings, and every image of a card its places.
pub fn rings_are_shown<M: Medium, C: Chip, D: Chip, N: Medium, E: Chip, F: Chip>(
    old_unit: &M,
    old_a: &C,
    old_b: &D,
    unit: &N,
    card_a: &E,
    card_b: &F,
)
    ensures rings { RingsAreShown (devices (M.state old_unit.now) (C.state old_a.now) (D.state old_b.now))
        (devices (N.state unit.now) (E.state card_a.now) (F.state card_b.now)) }
    ensures places { PlacesAreShown (devices (M.state old_unit.now) (C.state old_a.now) (D.state old_b.now))
        (devices (N.state unit.now) (E.state card_a.now) (F.state card_b.now)) }
{}

/// The unit failed as a withdrawal was noted.
pub fn a_withdrawal_is_broken<M: Medium, C: Chip, D: Chip, N: Medium, E: Chip, F: Chip>(
    old_unit: &M,
    old_a: &C,
    old_b: &D,
    unit: &N,
    card_a: &E,
    card_b: &F,
)
    ensures { AWithdrawalIsBroken (devices (M.state old_unit.now) (C.state old_a.now) (D.state old_b.now))
        (devices (N.state unit.now) (E.state card_a.now) (F.state card_b.now)) }
{}

/// What a run notes is what it noted before, and what the second notes: later lines of the log change nothing of that.
pub fn a_second_notes()
    ensures { (log later : RunLog) (ss : List TraceSecond) (s : TraceSecond) → All (λ x. SameAt log later x.number) ss
        → notes_in later (ss ++ s ∷ []) ≡ notes_in log ss ++ noted_next later ss s }
{}

/// A second begins, and ends behind its actions or at a cut: its notes are carried with those before. An action that
/// notes nothing, and seconds without power, change nothing.
pub fn a_second_is_carried_in_rings<M: Medium, C: Chip, D: Chip>(unit: &M, card_a: &C, card_b: &D)
    ensures begins { ASecondBeginsInRings (devices (M.state unit.now) (C.state card_a.now) (D.state card_b.now)) }
    ensures nothing { AnActionNotesNothing (devices (M.state unit.now) (C.state card_a.now) (D.state card_b.now)) }
    ensures ends { TheSecondEndsInRings (devices (M.state unit.now) (C.state card_a.now) (D.state card_b.now)) }
    ensures cut { ACutEndsInRings (devices (M.state unit.now) (C.state card_a.now) (D.state card_b.now)) }
    ensures dark { DarkSecondsNoteNothing (devices (M.state unit.now) (C.state card_a.now) (D.state card_b.now)) }
{}

/// Within a second calls that write no ring leave what is carried, as lines are told; and what an action notes is
/// carried behind the notes so far.
pub fn rings_go_on_within_a_second<M: Medium, C: Chip, D: Chip, N: Medium, E: Chip, F: Chip>(
    old_unit: &M,
    old_a: &C,
    old_b: &D,
    unit: &N,
    card_a: &E,
    card_b: &F,
)
    ensures calls { RingsGoOn (devices (M.state old_unit.now) (C.state old_a.now) (D.state old_b.now))
        (devices (N.state unit.now) (E.state card_a.now) (F.state card_b.now)) }
    ensures noted { AnActionIsNoted (devices (M.state old_unit.now) (C.state old_a.now) (D.state old_b.now))
        (devices (N.state unit.now) (E.state card_a.now) (F.state card_b.now)) }
{}

/// What each action of a second makes of its rings: it notes nothing, or a place, a withdrawal or an insertion; or the
/// unit failed in it, and power is cut.
pub fn an_action_is_carried_in_rings<M: Medium, C: Chip, D: Chip, N: Medium, E: Chip, F: Chip>(
    old_unit: &M,
    old_a: &C,
    old_b: &D,
    unit: &N,
    card_a: &E,
    card_b: &F,
)
    ensures passes { AnActionPasses (devices (M.state old_unit.now) (C.state old_a.now) (D.state old_b.now))
        (devices (N.state unit.now) (E.state card_a.now) (F.state card_b.now)) }
    ensures cut { AnActionIsCut (devices (M.state old_unit.now) (C.state old_a.now) (D.state old_b.now))
        (devices (N.state unit.now) (E.state card_a.now) (F.state card_b.now)) }
    ensures place { APlaceIsEntered (devices (M.state old_unit.now) (C.state old_a.now) (D.state old_b.now))
        (devices (N.state unit.now) (E.state card_a.now) (F.state card_b.now)) }
    ensures place_cut { APlaceIsCut (devices (M.state old_unit.now) (C.state old_a.now) (D.state old_b.now))
        (devices (N.state unit.now) (E.state card_a.now) (F.state card_b.now)) }
    ensures withdrawal { ACardIsWithdrawn (devices (M.state old_unit.now) (C.state old_a.now) (D.state old_b.now))
        (devices (N.state unit.now) (E.state card_a.now) (F.state card_b.now)) }
    ensures withdrawal_cut { AWithdrawalIsCut (devices (M.state old_unit.now) (C.state old_a.now) (D.state old_b.now))
        (devices (N.state unit.now) (E.state card_a.now) (F.state card_b.now)) }
    ensures insertion { ACardIsAccepted (devices (M.state old_unit.now) (C.state old_a.now) (D.state old_b.now))
        (devices (N.state unit.now) (E.state card_a.now) (F.state card_b.now)) }
    ensures insertion_cut { AnAcceptanceIsCut (devices (M.state old_unit.now) (C.state old_a.now) (D.state old_b.now))
        (devices (N.state unit.now) (E.state card_a.now) (F.state card_b.now)) }
{}

/// What a power-on makes of the rings: power begins, and slot by slot nothing is noted, or a card is accepted anew; or
/// the unit failed in that, and power is cut.
pub fn a_power_on_is_carried_in_rings<M: Medium, C: Chip, D: Chip, N: Medium, E: Chip, F: Chip>(
    old_unit: &M,
    old_a: &C,
    old_b: &D,
    unit: &N,
    card_a: &E,
    card_b: &F,
)
    ensures begins { PowerBeginsInRings (devices (M.state old_unit.now) (C.state old_a.now) (D.state old_b.now)) }
    ensures passed { ASlotIsPassedAnew (devices (M.state old_unit.now) (C.state old_a.now) (D.state old_b.now))
        (devices (N.state unit.now) (E.state card_a.now) (F.state card_b.now)) }
    ensures accepted { ACardIsAcceptedAnew (devices (M.state old_unit.now) (C.state old_a.now) (D.state old_b.now))
        (devices (N.state unit.now) (E.state card_a.now) (F.state card_b.now)) }
    ensures cut { AnAcceptanceIsCutAnew (devices (M.state old_unit.now) (C.state old_a.now) (D.state old_b.now))
        (devices (N.state unit.now) (E.state card_a.now) (F.state card_b.now)) }
{}
