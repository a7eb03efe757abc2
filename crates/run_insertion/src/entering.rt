//! A card that was put into a slot, or meets power there, is accepted or turned away.
ghost use Rattle.std.specs.Prelude.{◌≡◌, ◌+◌, ◌/◌, ◌<◌, ◌≤◌, ◌^◌};
ghost use Rattle.std.specs.Prelude.{length, is_err};
ghost use Rattle.run_crew.specs.Cards.{known_of};
ghost use Rattle.run_minutes.specs.Keeping.{UnitMayBeCalled};
ghost use Rattle.card_layout.specs.declared.files.TheConstants.{LARGEST_IMAGE};
ghost use Rattle.run_insertion.specs.Told.{BooksJudged, BooksEntered, IsEarly, WasInTime};
ghost use Rattle.run_insertion.specs.Entering.{Ending, Way, Unfit, Ahead, outcome_by, most_owed};
ghost use Rattle.run_insertion.specs.Noted.{HasNoted, IsOnUnit, IsComing, notes_by};
ghost use Rattle.run_insertion.specs.Entered.{IsJudgedSo, HasEntered};
ghost use Rattle.run_insertion.specs.Writes.{enter_unit_most, enter_card_most};
ghost use Rattle.run_insertion.specs.Calls.{MayBeJudged, StandsNoted};
ghost use Rattle.run_insertion.specs.Calls.{CardTellsSizes, EnteringGoesWithin, MayTellFind, StandsJudged};

use crate::lines::{Beside, Entering, find, other_card};
use crate::noting::{note_not_valid, note_overlap};
use crate::seating::{Found, take_in};
use crate::waking::{UNTOLD, place_of_field, wake};
use card_layout::{Application, Fid};
use device_calls::{CardInsertion, NotEntered, enter};
use log_model::Verdict;
use run_minutes::Keeper;
use run_outcome::Outcome;
use tach_media::{Chip, Failed, Medium};
use tacho_types::TimeReal;

/// A card is not valid, which is told and noted.
fn refuse<M: Medium>(
    keeper: &Keeper,
    entering: Entering,
    fid: Fid,
    place: u32,
    unit: &mut M,
    outcome: &mut Outcome,
) -> Result<(), Failed>
    requires ready { UnitMayBeCalled keeper.now (M.state unit.old) }
    requires may { MayTellFind entering outcome.old }
    ensures told { outcome.new ≡ outcome_by (Unfit fid place) entering outcome.old }
    ensures stands { StandsNoted result keeper.now (M.state unit.old) (M.state unit.new) }
    ensures notes { HasNoted IsOnUnit IsComing (notes_by (Unfit fid place) entering 0 keeper.now.cabin) (is_err result)
        (M.state unit.old) (M.state unit.new) }
{
    find(
        entering,
        Verdict::NotValid { fid, place },
        &mut outcome.finds,
    );
    note_not_valid(keeper, entering.at.second, unit)
}

/// A card tells of a later time, which is told and noted.
fn defer<M: Medium>(
    keeper: &Keeper,
    entering: Entering,
    stored: u32,
    unit: &mut M,
    outcome: &mut Outcome,
) -> Result<(), Failed>
    requires ready { UnitMayBeCalled keeper.now (M.state unit.old) }
    requires may { MayTellFind entering outcome.old }
    ensures told { outcome.new ≡ outcome_by (Ahead stored) entering outcome.old }
    ensures low { stored < 2 ^ 32 }
    ensures stands { StandsNoted result keeper.now (M.state unit.old) (M.state unit.new) }
    ensures notes { HasNoted IsOnUnit IsComing (notes_by (Ahead stored) entering 0 keeper.now.cabin) (is_err result)
        (M.state unit.old) (M.state unit.new) }
{
    let now = entering.at.second;
    find(
        entering,
        Verdict::TimeOverlap { stored, now },
        &mut outcome.finds,
    );
    note_overlap(keeper, now, stored, unit)
}

/// A card that enters by these sizes beside the other one.
#[derive(Clone, Copy)]
struct BesideBy<O> {
    entering: Entering,
    app: Application,
    /// The other card, which is never called.
    others: O,
}

/// A card that goes by these sizes is judged, and accepted or turned away.
fn accept_by<M: Medium, C: Chip, D: Chip>(
    keeper: &mut Keeper,
    noted: &mut u64,
    beside: BesideBy<&D>,
    unit: &mut M,
    card: &mut C,
    outcome: &mut Outcome,
) -> Result<(), Failed>
    requires ready { UnitMayBeCalled keeper.old (M.state unit.old) }
    requires may { MayBeJudged beside.entering keeper.old outcome.old }
    requires card { CardTellsSizes beside.app (known_of keeper.old.cabin.cards beside.entering.which)
        (C.card card.old) (C.state card.old) }
    ensures marks { (outcome.new.marks.room ≡ outcome.old.marks.room)
        × (length outcome.new.marks.items ≤ length outcome.old.marks.items + most_owed) }
    ensures ended { (ending : Ending)
        × IsJudgedSo beside.entry.app beside.entry.entering
        (is_err result) keeper.old keeper.new noted.old noted.new outcome.old outcome.new
        (M.state unit.old) (M.state unit.new) (C.state card.old) (C.state card.new) ending
        × BooksJudged ending beside.entry.entering (is_err result) keeper.old keeper.new (M.state unit.old)
        (M.state unit.new)
        (C.state card.old) (C.state card.new) (D.state beside.entry.others.now) }
    ensures behind { StandsJudged beside.entry.entering.which (beside.entry.entering.at.second / 60) result keeper.old
        keeper.new (M.state unit.old) (M.state unit.new) (C.state card.old) (C.state card.new) (C.card card.new) }
    ensures clock { (M.state unit.old).clock ≤ (M.state unit.new).clock }
    ensures goes { EnteringGoesWithin enter_unit_most enter_card_most outcome.old.breaks.items outcome.new.breaks.items
        (M.state unit.old) (M.state unit.new) (C.state card.old) (C.state card.new) }
    ensures in_time { IsEarly beside.entry.entering (C.state card.old) (C.state card.new) }
{
    let entering = beside.entering;
    let app = beside.app;
    let others = beside.others;
    let registration = keeper.memory.identity().registration;
    let spared = keeper.cabin.cards.of(other_card(entering.which)).number;
    let put = CardInsertion {
        app,
        time: TimeReal(entering.at.second),
        registration,
        odometer: entering.odometer,
        spared,
    };
    match enter(unit, &keeper.journal, card, others, entering.which, put) {
        Ok(entered) => {
            let found = Found {
                entering,
                app,
                entered,
                others,
            };
            take_in(keeper, noted, found, unit, card, outcome)
        }
        Err(NotEntered::UnitFailed) => Err(Failed),
        Err(NotEntered::CardFailed) => keeper.tear(
            entering.which,
            entering.slot,
            entering.at,
            unit,
            &mut outcome.breaks,
        ),
        Err(NotEntered::NotValid { fid, place }) => {
            refuse(keeper, entering, fid, place, unit, outcome)
        }
        Err(NotEntered::TimeOverlap { stored, .. }) => {
            defer(keeper, entering, stored, unit, outcome)
        }
    }
}

/// A card that was put into a slot, or meets power there, is revived and tells its sizes, and is accepted or turned
/// away: it is found to be accepted, not valid or of a later time, or it fails and is torn out. `noted` counts the
/// insertions that were noted in this run.
///
/// # Errors
///
/// `Failed` where the unit failed.
pub fn accept<M: Medium, C: Chip, D: Chip>(
    keeper: &mut Keeper,
    noted: &mut u64,
    beside: Beside<&D>,
    unit: &mut M,
    card: &mut C,
    outcome: &mut Outcome,
) -> Result<(), Failed>
    requires ready { UnitMayBeCalled keeper.old (M.state unit.old) }
    requires may { MayBeJudged beside.entering keeper.old outcome.old }
    requires size { LARGEST_IMAGE ≤ (C.state card.old).size }
    ensures marks { (outcome.new.marks.room ≡ outcome.old.marks.room)
        × (length outcome.new.marks.items ≤ length outcome.old.marks.items + most_owed) }
    ensures entered { (way : Way) × HasEntered beside.entry.entering
        (is_err result) keeper.old keeper.new noted.old noted.new
        outcome.old outcome.new (M.state unit.old) (M.state unit.new) (C.state card.old) (C.state card.new) way
        × BooksEntered way beside.entry.entering (is_err result) keeper.old keeper.new (M.state unit.old)
        (M.state unit.new)
        (C.state card.old) (C.state card.new) (D.state beside.entry.others.now) }
    ensures behind { StandsJudged beside.entry.entering.which (beside.entry.entering.at.second / 60) result keeper.old
        keeper.new (M.state unit.old) (M.state unit.new) (C.state card.old) (C.state card.new) (C.card card.new) }
    ensures clock { (M.state unit.old).clock ≤ (M.state unit.new).clock }
    ensures goes { EnteringGoesWithin enter_unit_most enter_card_most outcome.old.breaks.items outcome.new.breaks.items
        (M.state unit.old) (M.state unit.new) (C.state card.old) (C.state card.new) }
    ensures in_time { WasInTime beside.entry.entering (C.state card.old) (C.state card.new) }
{
    let entering = beside.entering;
    let Ok(sizes) = wake(card) else {
        keeper.cabin.measure(entering.which, Err(UNTOLD));
        return keeper.tear(
            entering.which,
            entering.slot,
            entering.at,
            unit,
            &mut outcome.breaks,
        );
    };
    keeper.cabin.measure(entering.which, sizes);
    match sizes {
        Ok(app) => {
            let by = BesideBy {
                entering,
                app,
                others: beside.others,
            };
            accept_by(keeper, noted, by, unit, card, outcome)
        }
        Err(field) => {
            let place = place_of_field(field);
            refuse(keeper, entering, Fid::APPLICATION, place, unit, outcome)
        }
    }
}
