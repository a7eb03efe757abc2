//! A card is put into a slot.
ghost use Rattle.std.specs.Prelude.{◌≡◌, false, is_err};
ghost use Rattle.run_acts.specs.Going.{IsActing};
ghost use Rattle.run_acts.specs.Room.{TakesCard};
ghost use Rattle.run_minutes.specs.run_promise.Between.{devices};
ghost use Rattle.run_acts.specs.Acts.{RunStandsBehind};
ghost use Rattle.recorder_with_cards.specs.Acts.{DevicesGo, HasRoomToInsert, Inserts, LeavesInserted};
ghost use Rattle.recorder_with_cards.specs.Acts.{PromisesInsertion, MayInsertCard};
ghost use Rattle.recorder_with_cards.specs.Writes.{action_unit_most, action_card_most};

use crate::accepting::{SlotCard, accept_in};
use run_acts::{Run, settle};
use run_outcome::Outcome;
use tach_media::{Chip, Failed, Medium};

/// A card is put into a slot: what that settles is kept first, and then it is accepted or turned away.
///
/// # Errors
///
/// `Failed` where the unit failed.
pub(crate) fn insert<M: Medium, C: Chip, D: Chip>(
    run: &mut Run,
    put: SlotCard,
    unit: &mut M,
    card_a: &mut C,
    card_b: &mut D,
    outcome: &mut Outcome,
) -> Result<(), Failed>
    requires acting { IsActing run.old (M.state unit.old) (C.card card_a.old) (D.card card_b.old) (C.state card_a.old)
        (D.state card_b.old) }
    requires may { MayInsertCard put.slot put.card put.at run.old outcome.old }
    ensures inserted { Inserts put.slot put.card put.at put.speed
        (is_err result) run.old run.new outcome.old outcome.new }
    ensures behind { RunStandsBehind result run.new
        (devices (M.state unit.old) (C.state card_a.old) (D.state card_b.old))
        (devices (M.state unit.new) (C.state card_a.new) (D.state card_b.new))
        (C.card card_a.new) (D.card card_b.new) }
    ensures takes { TakesCard run.old run.new outcome.old outcome.new }
    // What a run promises goes on with it, where there is room for the marks of the minutes that wait and of what the
    // card is owed.
    ensures promises { put.at.late ≡ false → HasRoomToInsert run.old outcome.old
        → PromisesInsertion put.slot put.card put.at put.speed (is_err result) run.old run.new outcome.old outcome.new
        (devices (M.state unit.old) (C.state card_a.old) (D.state card_b.old))
        (devices (M.state unit.new) (C.state card_a.new) (D.state card_b.new)) }
    ensures leaves { LeavesInserted put.slot put.card put.at put.speed
        (is_err result) run.old run.new outcome.old outcome.new
        (devices (M.state unit.old) (C.state card_a.old) (D.state card_b.old))
        (devices (M.state unit.new) (C.state card_a.new) (D.state card_b.new)) }
    ensures goes { DevicesGo action_unit_most action_card_most outcome.old.breaks.items outcome.new.breaks.items
        (devices (M.state unit.old) (C.state card_a.old) (D.state card_b.old))
        (devices (M.state unit.new) (C.state card_a.new) (D.state card_b.new)) }
{
    run.keeper.cabin.put_in(put.slot, put.card);
    settle(run, put.at, unit, card_a, card_b, outcome)?;
    accept_in(run, put, unit, card_a, card_b, outcome)
}
