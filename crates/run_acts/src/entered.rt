//! A card that enters is recorded. A law.
ghost use Rattle.run_acts.specs.Entered.{ACardThatEntersIsRecorded};

use tach_media::{Chip, Medium};

/// A card that waits enters: whatever becomes of it, the second goes on as it is recorded, where the others wait; or
/// the unit has failed, and power is about to be cut.
pub fn a_card_that_entered_is_recorded<M: Medium, N: Medium, C: Chip, D: Chip, E: Chip>(
    unit: &M,
    unit_after: &N,
    card: &C,
    card_after: &D,
    others: &E,
)
    ensures { ACardThatEntersIsRecorded (M.state unit.now) (N.state unit_after.now) (C.state card.now)
        (D.state card_after.now) (E.state others.now) }
{}
