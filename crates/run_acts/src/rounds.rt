//! The keeping of minutes in a second of a run: that they may be booked, are kept, or fail. Laws.
ghost use Rattle.run_minutes.specs.run_promise.Between.{devices};
ghost use Rattle.run_acts.specs.RoundLaws.{TheMinutesMayBeBooked, TheMinutesAreOver, TheMinutesAreKept, TheyLeaveStill};
ghost use Rattle.run_acts.specs.RoundLaws.{TheKeepingFails, TheNoteFails, TheKeepingIsRecorded};

use tach_media::{Chip, Medium};

/// The minutes that are still to be kept at a point of a second may be booked.
pub fn the_minutes_may_be_booked<M: Medium, C: Chip, D: Chip>(unit: &M, card_a: &C, card_b: &D)
    ensures { TheMinutesMayBeBooked (devices (M.state unit.now) (C.state card_a.now) (D.state card_b.now)) }
{}

/// In the keeping of a second they are over.
pub fn the_minutes_are_over<M: Medium, C: Chip, D: Chip>(unit: &M, card_a: &C, card_b: &D)
    ensures { TheMinutesAreOver (devices (M.state unit.now) (C.state card_a.now) (D.state card_b.now)) }
{}

/// Some of them are kept, and cards may be torn out.
pub fn the_minutes_are_kept<M: Medium, C: Chip, D: Chip, N: Medium, E: Chip, F: Chip>(
    old_unit: &M,
    old_a: &C,
    old_b: &D,
    unit: &N,
    card_a: &E,
    card_b: &F,
)
    ensures { TheMinutesAreKept (devices (M.state old_unit.now) (C.state old_a.now) (D.state old_b.now))
        (devices (N.state unit.now) (E.state card_a.now) (F.state card_b.now)) }
{}

/// A card that leaves its slot leaves it still behind them.
pub fn they_leave_still<M: Medium, C: Chip, D: Chip, N: Medium, E: Chip, F: Chip>(
    old_unit: &M,
    old_a: &C,
    old_b: &D,
    unit: &N,
    card_a: &E,
    card_b: &F,
)
    ensures { TheyLeaveStill (devices (M.state old_unit.now) (C.state old_a.now) (D.state old_b.now))
        (devices (N.state unit.now) (E.state card_a.now) (F.state card_b.now)) }
{}

/// The unit fails in one of them.
pub fn the_keeping_fails<M: Medium, C: Chip, D: Chip, N: Medium, E: Chip, F: Chip>(
    old_unit: &M,
    old_a: &C,
    old_b: &D,
    unit: &N,
    card_a: &E,
    card_b: &F,
)
    ensures { TheKeepingFails (devices (M.state old_unit.now) (C.state old_a.now) (D.state old_b.now))
        (devices (N.state unit.now) (E.state card_a.now) (F.state card_b.now)) }
{}

/// The unit fails in a note behind all of them.
pub fn the_note_fails<M: Medium, C: Chip, D: Chip, N: Medium, E: Chip, F: Chip>(
    old_unit: &M,
    old_a: &C,
    old_b: &D,
    unit: &N,
    card_a: &E,
    card_b: &F,
)
    ensures { TheNoteFails (devices (M.state old_unit.now) (C.state old_a.now) (D.state old_b.now))
        (devices (N.state unit.now) (E.state card_a.now) (F.state card_b.now)) }
{}

/// A keeping is recorded, as far as it came.
pub fn the_keeping_is_recorded<M: Medium, C: Chip, D: Chip, N: Medium, E: Chip, F: Chip>(
    old_unit: &M,
    old_a: &C,
    old_b: &D,
    unit: &N,
    card_a: &E,
    card_b: &F,
)
    ensures { TheKeepingIsRecorded (devices (M.state old_unit.now) (C.state old_a.now) (D.state old_b.now))
        (devices (N.state unit.now) (E.state card_a.now) (F.state card_b.now)) }
{}
