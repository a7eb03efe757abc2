//! The minutes before that of an action are decided and kept.
ghost use Rattle.std.specs.Prelude.{◌≡◌, is_err};
ghost use Rattle.run_minutes.specs.run_promise.Between.{devices};
ghost use Rattle.run_acts.specs.Going.{MaySettle};
ghost use Rattle.run_acts.specs.Room.{TakesNone};
ghost use Rattle.run_acts.specs.Acting.{IsSettled};
ghost use Rattle.run_acts.specs.Keepings.{acting, KeepsSettled};
ghost use Rattle.run_acts.specs.Acts.{SettlingGoes, HasRoomToSettle, RunStandsSettled};
ghost use Rattle.run_acts.specs.Writes.{settle_unit_most, settle_card_most};

use crate::run::Run;
use run_minutes::{MinutesDecided, Moment};
use run_outcome::Outcome;
use tach_media::{Chip, Failed, Medium};

/// The minutes before that of the next second are decided and kept.
///
/// # Errors
///
/// `Failed` where the unit failed.
pub fn settle<M: Medium, C: Chip, D: Chip>(
    run: &mut Run,
    at: Moment,
    unit: &mut M,
    card_a: &mut C,
    card_b: &mut D,
    outcome: &mut Outcome,
) -> Result<(), Failed>
    requires may { MaySettle run.old (M.state unit.old) (C.card card_a.old) (D.card card_b.old) (C.state card_a.old)
        (D.state card_b.old) }
    requires at { at.second ≡ run.old.next }
    requires room { HasRoomToSettle run.old outcome.old }
    ensures settled { IsSettled at (is_err result) run.old run.new outcome.old outcome.new }
    ensures keeps { KeepsSettled at (is_err result) run.old run.new outcome.old outcome.new
        (devices (M.state unit.old) (C.state card_a.old) (D.state card_b.old))
        (devices (M.state unit.new) (C.state card_a.new) (D.state card_b.new)) }
    ensures stands { RunStandsSettled result run.old run.new
        (devices (M.state unit.old) (C.state card_a.old) (D.state card_b.old))
        (devices (M.state unit.new) (C.state card_a.new) (D.state card_b.new))
        (C.card card_a.old) (D.card card_b.old) (C.card card_a.new) (D.card card_b.new) }
    ensures takes { TakesNone run.old run.new outcome.old outcome.new }
    ensures goes { SettlingGoes settle_unit_most settle_card_most
        (acting run.old outcome.old (M.state unit.old) (C.state card_a.old) (D.state card_b.old) (C.card card_a.old)
        (D.card card_b.old))
        (acting run.new outcome.new (M.state unit.new) (C.state card_a.new) (D.state card_b.new) (C.card card_a.new)
        (D.card card_b.new)) }
{
    let decided = run.minutes.settle();
    let minutes = MinutesDecided {
        decided: decided.as_slice(),
        at,
    };
    run.keeper.keep_all(minutes, unit, card_a, card_b, outcome)
}
