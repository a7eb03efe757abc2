//! What an acceptance writes in the rings of the unit. A law.
ghost use Rattle.recorder_with_cards.specs.EnteredRings.{AcceptWrites};

use tach_media::{Chip, Medium};

/// A card that entered has its insertion in the ring of the unit, or nothing was written there, whatever else was
/// noted.
pub fn what_accept_writes_in_the_rings<M: Medium, N: Medium, C: Chip, D: Chip>(
    unit: &M,
    unit_after: &N,
    card: &C,
    card_after: &D,
)
    ensures { AcceptWrites (M.state unit.now) (N.state unit_after.now) (C.state card.now) (D.state card_after.now) }
{}
