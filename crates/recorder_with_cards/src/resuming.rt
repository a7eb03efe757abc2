//! Power is back.
ghost use Rattle.std.specs.Prelude.{◌≡◌, ◌/◌, ◌<◌, ◌≤◌, true, false, IfOk, IsOk, OnOk};
ghost use Rattle.std.specs.Prelude.{length, is_err};
ghost use Rattle.unit_minutes.specs.unit_model.Image.{IsUnit};
ghost use Rattle.run_acts.specs.Power.{is_lit, minute_over};
ghost use Rattle.run_acts.specs.Going.{IsBetweenSeconds, IsInsideSecond};
ghost use Rattle.run_acts.specs.Room.{bare_seats};
ghost use Rattle.recorder_with_cards.specs.Waking.{TakesUp, TakesAwake};
ghost use Rattle.recorder_with_cards.specs.Noting.{NotesWaking, NotesFound, NotesPowerOn};
ghost use Rattle.run_minutes.specs.run_promise.Between.{devices};
ghost use Rattle.run_acts.specs.Acts.{AllGoOn, RunStandsBehind};
ghost use Rattle.recorder_with_cards.specs.Acts.{BeginsSecond, BreaksGo, IsWoken, PromisesResuming, PromisesSecond};
ghost use Rattle.recorder_with_cards.specs.Acts.{PromisesWaking, Resumes, HasRoomFor, HasRoomForOwed, IsToldBy};
ghost use Rattle.recorder_with_cards.specs.Acts.{MayWake, StandsBegun};
ghost use Rattle.recorder_with_cards.specs.Writes.{resume_unit_most, resume_card_most};

use crate::accepting::{SlotAnew, accept_anew};
use activity_codec::Slot;
use device_calls::mend;
use minute_rules::Rule;
use run_acts::{Run, note_gap};
use run_opening::{RunFault, judge_clock, open_unit};
use run_outcome::Outcome;
use tach_media::{Chip, Failed, Medium};
use unit_minutes::{Journal, UnitFault};

/// A second begins to which the trace gives power: where it is due, power is back. Whether the second has power, at its
/// beginning at least.
///
/// # Errors
///
/// `BadUnit` or `ClockBack`, of a unit that is read anew at a power-on.
pub(crate) fn begin_second<M: Medium, C: Chip, D: Chip>(
    run: &mut Run,
    speed: u8,
    unit: &mut M,
    card_a: &mut C,
    card_b: &mut D,
    outcome: &mut Outcome,
) -> Result<bool, RunFault>
    requires going { IsBetweenSeconds run.old (M.state unit.old) (C.card card_a.old) (D.card card_b.old)
        (C.state card_a.old) (D.state card_b.old) }
    requires room { HasRoomFor 1 run.old outcome.old }
    ensures begun { BeginsSecond result run.old run.new outcome.old outcome.new }
    ensures dark { IfOk result (λ powered. powered ≡ false
        → (run.new ≡ run.old) × (outcome.new ≡ outcome.old) × (unit.new ≡ unit.old) × (card_a.new ≡ card_a.old)
        × (card_b.new ≡ card_b.old)) }
    ensures lit { is_lit run.old.power ≡ true
        → IsOk result × (run.new ≡ minute_over run.old) × (outcome.new ≡ outcome.old) × (unit.new ≡ unit.old)
        × (card_a.new ≡ card_a.old) × (card_b.new ≡ card_b.old) }
    ensures behind { StandsBegun result run.old run.new outcome.old outcome.new (M.state unit.new)
        (C.card card_a.new) (D.card card_b.new) (C.state card_a.new) (D.state card_b.new) }
    // What a run promises goes on with it.
    ensures promises { PromisesSecond result speed run.old run.new outcome.old outcome.new
        (devices (M.state unit.old) (C.state card_a.old) (D.state card_b.old))
        (devices (M.state unit.new) (C.state card_a.new) (D.state card_b.new)) }
    ensures goes { BreaksGo resume_unit_most resume_card_most outcome.old.breaks.items outcome.new.breaks.items
        (devices (M.state unit.old) (C.state card_a.old) (D.state card_b.old))
        (devices (M.state unit.new) (C.state card_a.new) (D.state card_b.new)) }
{
    if !run.has_power() {
        return Ok(false);
    }
    if run.is_lit() {
        run.end_minute();
        return Ok(true);
    }
    power_on(run, speed, unit, card_a, card_b, outcome)?;
    Ok(true)
}

/// Power is back: the unit is revived and judged.
fn power_on<M: Medium, C: Chip, D: Chip>(
    run: &mut Run,
    speed: u8,
    unit: &mut M,
    card_a: &mut C,
    card_b: &mut D,
    outcome: &mut Outcome,
) -> Result<(), RunFault>
    requires may { MayWake run.old outcome.old }
    requires going { IsInsideSecond run.old (M.state unit.old) (C.card card_a.old) (D.card card_b.old)
        (C.state card_a.old) (D.state card_b.old) }
    requires unfound { run.old.unfound ≤ length outcome.old.breaks.items }
    ensures woken { IsWoken result run.old run.new outcome.old outcome.new }
    ensures going { OnOk result (IsInsideSecond run.new (M.state unit.new) (C.card card_a.new) (D.card card_b.new)
        (C.state card_a.new) (D.state card_b.new)) }
    ensures takes { TakesAwake run.old run.new outcome.old outcome.new }
    ensures unit { IsUnit (M.state unit.new) }
    // What a run promises goes on with it, where there is room for the marks of what the cards are owed.
    ensures promises { HasRoomForOwed (bare_seats run.old.keeper.cabin.slots.seats) outcome.old
        → PromisesWaking result speed run.old run.new outcome.old outcome.new
        (devices (M.state unit.old) (C.state card_a.old) (D.state card_b.old))
        (devices (M.state unit.new) (C.state card_a.new) (D.state card_b.new)) }
    ensures noted { OnOk result (NotesPowerOn speed run.old run.new outcome.old outcome.new
        (devices (M.state unit.old) (C.state card_a.old) (D.state card_b.old))
        (devices (M.state unit.new) (C.state card_a.new) (D.state card_b.new))) }
    ensures goes { BreaksGo resume_unit_most resume_card_most outcome.old.breaks.items outcome.new.breaks.items
        (devices (M.state unit.old) (C.state card_a.old) (D.state card_b.old))
        (devices (M.state unit.new) (C.state card_a.new) (D.state card_b.new)) }
{
    match open_unit(unit) {
        Ok(opened) => {
            let rule = opened.memory.rule();
            let waking = Waking {
                journal: opened.journal,
                rule,
                speed,
            };
            found(run, waking, unit, card_a, card_b, outcome)
        }
        Err(UnitFault::BadUnit(place)) => Err(RunFault::BadUnit(place)),
        Err(UnitFault::Failed) => {
            run.cut(run.next, true, 0, &mut outcome.breaks);
            Ok(())
        }
    }
}

/// What a unit tells where power is back, and the speed in km/h at which it is.
#[derive(Drop)]
struct Waking {
    journal: Journal,
    rule: Rule,
    speed: u8,
}

/// The unit has this journal: the cuts since the last one tell what it says, and a new span begins.
fn found<M: Medium, C: Chip, D: Chip>(
    run: &mut Run,
    waking: Waking,
    unit: &mut M,
    card_a: &mut C,
    card_b: &mut D,
    outcome: &mut Outcome,
) -> Result<(), RunFault>
    requires may { MayWake run.old outcome.old }
    requires going { IsInsideSecond run.old (M.state unit.old) (C.card card_a.old) (D.card card_b.old)
        (C.state card_a.old) (D.state card_b.old) }
    requires told { IsToldBy (M.state unit.old) waking.journal waking.rule }
    requires unfound { run.old.unfound ≤ length outcome.old.breaks.items }
    ensures woken { IsWoken result run.old run.new outcome.old outcome.new }
    ensures going { OnOk result (IsInsideSecond run.new (M.state unit.new) (C.card card_a.new) (D.card card_b.new)
        (C.state card_a.new) (D.state card_b.new)) }
    ensures takes { TakesAwake run.old run.new outcome.old outcome.new }
    ensures unit { IsUnit (M.state unit.new) }
    // What a run promises goes on with it, where there is room for the marks of what the cards are owed.
    ensures promises { HasRoomForOwed (bare_seats run.old.keeper.cabin.slots.seats) outcome.old
        → PromisesWaking result waking.speed run.old run.new outcome.old outcome.new
        (devices (M.state unit.old) (C.state card_a.old) (D.state card_b.old))
        (devices (M.state unit.new) (C.state card_a.new) (D.state card_b.new)) }
    ensures noted { OnOk result (NotesFound waking.journal.kept waking.speed run.old run.new outcome.old outcome.new
        (devices (M.state unit.old) (C.state card_a.old) (D.state card_b.old))
        (devices (M.state unit.new) (C.state card_a.new) (D.state card_b.new))) }
    ensures goes { BreaksGo resume_unit_most resume_card_most outcome.old.breaks.items outcome.new.breaks.items
        (devices (M.state unit.old) (C.state card_a.old) (D.state card_b.old))
        (devices (M.state unit.new) (C.state card_a.new) (D.state card_b.new)) }
{
    let kept = waking.journal.last_kept();
    run.learn(kept, &mut outcome.breaks);
    judge_clock(kept, run.next)?;
    if resume(run, waking, unit, card_a, card_b, outcome).is_err() {
        run.cut(run.next, true, 0, &mut outcome.breaks);
        return Ok(());
    }
    Ok(())
}

/// The unit is mended, a span begins, the cards in the slots are judged anew, and the interruption that ends now is
/// noted, if a power-on came before this one.
fn resume<M: Medium, C: Chip, D: Chip>(
    run: &mut Run,
    waking: Waking,
    unit: &mut M,
    card_a: &mut C,
    card_b: &mut D,
    outcome: &mut Outcome,
) -> Result<(), Failed>
    requires may { MayWake run.old outcome.old }
    requires going { IsInsideSecond run.old (M.state unit.old) (C.card card_a.old) (D.card card_b.old)
        (C.state card_a.old) (D.state card_b.old) }
    requires told { IsToldBy (M.state unit.old) waking.journal waking.rule }
    requires later { waking.journal.kept < run.old.next / 60 }
    ensures resumed { Resumes result run.old run.new outcome.old outcome.new }
    ensures behind { RunStandsBehind result run.new
        (devices (M.state unit.old) (C.state card_a.old) (D.state card_b.old))
        (devices (M.state unit.new) (C.state card_a.new) (D.state card_b.new))
        (C.card card_a.new) (D.card card_b.new) }
    ensures takes { TakesUp run.old run.new outcome.old outcome.new }
    // What a run promises goes on with it, where there is room for the marks of what the cards are owed.
    ensures promises { HasRoomForOwed (bare_seats run.old.keeper.cabin.slots.seats) outcome.old
        → PromisesResuming waking.journal.kept waking.speed (is_err result) run.old run.new outcome.old outcome.new
        (devices (M.state unit.old) (C.state card_a.old) (D.state card_b.old))
        (devices (M.state unit.new) (C.state card_a.new) (D.state card_b.new)) }
    ensures noted { NotesWaking waking.journal.kept waking.speed (is_err result) run.old run.new outcome.old outcome.new
        (devices (M.state unit.old) (C.state card_a.old) (D.state card_b.old))
        (devices (M.state unit.new) (C.state card_a.new) (D.state card_b.new)) }
    ensures goes { AllGoOn resume_unit_most resume_card_most outcome.old.breaks.items outcome.new.breaks.items
        (devices (M.state unit.old) (C.state card_a.old) (D.state card_b.old))
        (devices (M.state unit.new) (C.state card_a.new) (D.state card_b.new)) }
{
    let rule = waking.rule;
    let speed = waking.speed;
    let mut journal = waking.journal;
    let kept = journal.last_kept();
    let is_first = outcome.breaks.is_empty();
    mend(unit, &mut journal, card_a, card_b)?;
    run.begin_span(journal, rule);
    let at = run.moment(0);
    let driver = SlotAnew {
        slot: Slot::Driver,
        at,
        speed,
    };
    let codriver = SlotAnew {
        slot: Slot::CoDriver,
        at,
        speed,
    };
    accept_anew(run, driver, unit, card_a, card_b, outcome)?;
    accept_anew(run, codriver, unit, card_a, card_b, outcome)?;
    if is_first {
        return Ok(());
    }
    note_gap(run, kept, unit, card_a, card_b, &mut outcome.breaks)
}
