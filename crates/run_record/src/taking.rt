//! Cards are put into their slots and leave them.
ghost use Rattle.run_devices.specs.run_promise.Between.{devices};
ghost use Rattle.run_record.specs.Taking.{ACardIsPutIn, AnEnteredCardIsNext, ACardLeaves, ASessionIsClosed};
ghost use Rattle.run_record.specs.Taking.{AClosingFails, ALeavingCardIsTorn, ALeavingTearFails, ACardIsPulledOut};
ghost use Rattle.run_record.specs.Taking.{ASeatedCardIsTorn, ASeatedTearFails};

use tach_media::{Chip, Medium};

/// A card is put into a slot: it waits to be judged, and the minutes before this one are to be kept.
pub fn a_card_is_put_in<M: Medium, C: Chip, D: Chip>(unit: &M, card_a: &C, card_b: &D)
    ensures { ACardIsPutIn (devices (M.state unit.now) (C.state card_a.now) (D.state card_b.now)) }
{}

/// Once they are kept it may be judged.
pub fn an_entered_card_is_next<M: Medium, C: Chip, D: Chip, N: Medium, E: Chip, F: Chip>(
    old_unit: &M,
    old_a: &C,
    old_b: &D,
    unit: &N,
    card_a: &E,
    card_b: &F,
)
    ensures { AnEnteredCardIsNext (devices (M.state old_unit.now) (C.state old_a.now) (D.state old_b.now))
        (devices (N.state unit.now) (E.state card_a.now) (F.state card_b.now)) }
{}

/// The card of a slot leaves it, to be withdrawn: the minutes before this one are to be kept.
pub fn a_card_leaves<M: Medium, C: Chip, D: Chip>(unit: &M, card_a: &C, card_b: &D)
    ensures { ACardLeaves (devices (M.state unit.now) (C.state card_a.now) (D.state card_b.now)) }
{}

/// Once they are kept its session is closed.
pub fn a_session_is_closed<M: Medium, C: Chip, D: Chip, N: Medium, E: Chip, F: Chip>(
    old_unit: &M,
    old_a: &C,
    old_b: &D,
    unit: &N,
    card_a: &E,
    card_b: &F,
)
    ensures { ASessionIsClosed (devices (M.state old_unit.now) (C.state old_a.now) (D.state old_b.now))
        (devices (N.state unit.now) (E.state card_a.now) (F.state card_b.now)) }
{}

/// The unit failed behind that: power is about to be cut.
pub fn a_closing_fails<M: Medium, C: Chip, D: Chip, N: Medium, E: Chip, F: Chip>(
    old_unit: &M,
    old_a: &C,
    old_b: &D,
    unit: &N,
    card_a: &E,
    card_b: &F,
)
    ensures { AClosingFails (devices (M.state old_unit.now) (C.state old_a.now) (D.state old_b.now))
        (devices (N.state unit.now) (E.state card_a.now) (F.state card_b.now)) }
{}

/// The card failed as its session was closed.
pub fn a_leaving_card_is_torn<M: Medium, C: Chip, D: Chip, N: Medium, E: Chip, F: Chip>(
    old_unit: &M,
    old_a: &C,
    old_b: &D,
    unit: &N,
    card_a: &E,
    card_b: &F,
)
    ensures { ALeavingCardIsTorn (devices (M.state old_unit.now) (C.state old_a.now) (D.state old_b.now))
        (devices (N.state unit.now) (E.state card_a.now) (F.state card_b.now)) }
{}

/// The unit failed behind that: power is about to be cut.
pub fn a_leaving_tear_fails<M: Medium, C: Chip, D: Chip, N: Medium, E: Chip, F: Chip>(
    old_unit: &M,
    old_a: &C,
    old_b: &D,
    unit: &N,
    card_a: &E,
    card_b: &F,
)
    ensures { ALeavingTearFails (devices (M.state old_unit.now) (C.state old_a.now) (D.state old_b.now))
        (devices (N.state unit.now) (E.state card_a.now) (F.state card_b.now)) }
{}

/// A card is pulled out of its slot, without a write.
pub fn a_card_is_pulled_out<M: Medium, C: Chip, D: Chip>(unit: &M, card_a: &C, card_b: &D)
    ensures { ACardIsPulledOut (devices (M.state unit.now) (C.state card_a.now) (D.state card_b.now)) }
{}

/// An accepted card failed in its slot, as something was to be noted on it.
pub fn a_seated_card_is_torn<M: Medium, C: Chip, D: Chip, N: Medium, E: Chip, F: Chip>(
    old_unit: &M,
    old_a: &C,
    old_b: &D,
    unit: &N,
    card_a: &E,
    card_b: &F,
)
    ensures { ASeatedCardIsTorn (devices (M.state old_unit.now) (C.state old_a.now) (D.state old_b.now))
        (devices (N.state unit.now) (E.state card_a.now) (F.state card_b.now)) }
{}

/// The unit failed behind that: power is about to be cut.
pub fn a_seated_tear_fails<M: Medium, C: Chip, D: Chip, N: Medium, E: Chip, F: Chip>(
    old_unit: &M,
    old_a: &C,
    old_b: &D,
    unit: &N,
    card_a: &E,
    card_b: &F,
)
    ensures { ASeatedTearFails (devices (M.state old_unit.now) (C.state old_a.now) (D.state old_b.now))
        (devices (N.state unit.now) (E.state card_a.now) (F.state card_b.now)) }
{}
