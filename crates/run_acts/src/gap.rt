//! The interruption of power that ends now is noted.
ghost use Rattle.std.specs.Prelude.{◌+◌, ◌/◌, ◌<◌, ◌≤◌};
ghost use Rattle.std.specs.Prelude.{length, is_err};
ghost use Rattle.log_model.specs.Log.{In};
ghost use Rattle.run_minutes.specs.run_promise.Between.{devices};
ghost use Rattle.run_acts.specs.Going.{IsActing, HasPowerInSecond};
ghost use Rattle.run_acts.specs.Room.{falls_of};
ghost use Rattle.run_acts.specs.Noting.{IsNoteRecorded};
ghost use Rattle.run_acts.specs.Acts.{AllGoOn, LeavesGap, LeavesIn, NotesGap, NotesIn, RunStandsBehind};
ghost use Rattle.run_acts.specs.Acts.{NotesGapOn, PromisesGap, IsPowerGap, MayNoteOn};
ghost use Rattle.run_acts.specs.Writes.{gap_unit_most, gap_card_most, slot_gap_unit_most, slot_gap_card_most};

use crate::run::Run;
use activity_codec::Slot;
use device_calls::note_event_on;
use event_rules::power_gap;
use log_model::Break;
use run_events::{card_gap, on_card};
use run_outcome::Lines;
use tach_media::{Chip, Failed, Medium};
use trace_model::Card;
use unit_notes::{UnitEvent, UnitNotes};

/// An interruption that is noted on the card of a slot.
#[derive(Clone, Copy)]
struct SlotEvent {
    slot: Slot,
    event: UnitEvent,
}

/// The interruption of power that ends with the next second, where this was the last-kept minute, is noted on the unit,
/// and then on the accepted cards. A card whose call fails is torn out.
///
/// # Errors
///
/// `Failed` where the unit failed.
pub fn note_gap<M: Medium, C: Chip, D: Chip>(
    run: &mut Run,
    kept: u32,
    unit: &mut M,
    card_a: &mut C,
    card_b: &mut D,
    breaks: &mut Lines<Break>,
) -> Result<(), Failed>
    requires acting { IsActing run.old (M.state unit.old) (C.card card_a.old) (D.card card_b.old) (C.state card_a.old)
        (D.state card_b.old) }
    requires kept { kept < run.old.next / 60 }
    requires breaks { length breaks.old.items + falls_of run.old.keeper.cabin ≤ breaks.old.room }
    ensures noted { NotesGap kept (is_err result) run.old run.new breaks.old breaks.new }
    // What a run promises goes on with it.
    ensures promises { PromisesGap (is_err result) run.old run.new breaks.old breaks.new
        (devices (M.state unit.old) (C.state card_a.old) (D.state card_b.old))
        (devices (M.state unit.new) (C.state card_a.new) (D.state card_b.new)) }
    ensures leaves { LeavesGap kept (is_err result) run.old run.new breaks.old breaks.new
        (devices (M.state unit.old) (C.state card_a.old) (D.state card_b.old))
        (devices (M.state unit.new) (C.state card_a.new) (D.state card_b.new)) }
    ensures behind { RunStandsBehind result run.new
        (devices (M.state unit.old) (C.state card_a.old) (D.state card_b.old))
        (devices (M.state unit.new) (C.state card_a.new) (D.state card_b.new))
        (C.card card_a.new) (D.card card_b.new) }
    ensures goes { AllGoOn gap_unit_most gap_card_most breaks.old.items breaks.new.items
        (devices (M.state unit.old) (C.state card_a.old) (D.state card_b.old))
        (devices (M.state unit.new) (C.state card_a.new) (D.state card_b.new)) }
{
    let Some(span) = power_gap(kept, run.next) else {
        return Ok(());
    };
    let event = card_gap(span, run.keeper.cabin.crew());
    run.keeper.memory.note_event(unit, &event)?;
    let driver = SlotEvent {
        slot: Slot::Driver,
        event,
    };
    let codriver = SlotEvent {
        slot: Slot::CoDriver,
        event,
    };
    note_in(run, driver, unit, card_a, card_b, breaks)?;
    note_in(run, codriver, unit, card_a, card_b, breaks)
}

/// An interruption is noted on the card of a slot, where it is accepted.
fn note_in<M: Medium, C: Chip, D: Chip>(
    run: &mut Run,
    gap: SlotEvent,
    unit: &mut M,
    card_a: &mut C,
    card_b: &mut D,
    breaks: &mut Lines<Break>,
) -> Result<(), Failed>
    requires power { HasPowerInSecond run.old (M.state unit.old) (C.card card_a.old) (D.card card_b.old)
        (C.state card_a.old) (D.state card_b.old) }
    requires gap { IsPowerGap gap.event }
    requires breaks { length breaks.old.items + falls_of run.old.keeper.cabin ≤ breaks.old.room }
    ensures noted { NotesIn gap.slot (is_err result) run.old run.new breaks.old breaks.new }
    ensures recorded { IsNoteRecorded (In 0) (is_err result) run.old run.new breaks.old breaks.new
        (devices (M.state unit.old) (C.state card_a.old) (D.state card_b.old))
        (devices (M.state unit.new) (C.state card_a.new) (D.state card_b.new)) }
    ensures leaves { LeavesIn gap.slot gap.event (is_err result) run.old run.new breaks.old breaks.new
        (devices (M.state unit.old) (C.state card_a.old) (D.state card_b.old))
        (devices (M.state unit.new) (C.state card_a.new) (D.state card_b.new)) }
    ensures behind { RunStandsBehind result run.new
        (devices (M.state unit.old) (C.state card_a.old) (D.state card_b.old))
        (devices (M.state unit.new) (C.state card_a.new) (D.state card_b.new))
        (C.card card_a.new) (D.card card_b.new) }
    ensures goes { AllGoOn slot_gap_unit_most slot_gap_card_most breaks.old.items breaks.new.items
        (devices (M.state unit.old) (C.state card_a.old) (D.state card_b.old))
        (devices (M.state unit.new) (C.state card_a.new) (D.state card_b.new)) }
{
    let Some(card) = run.keeper.cabin.slots.card(gap.slot) else {
        return Ok(());
    };
    let Some(_) = run.keeper.cabin.number_in(gap.slot) else {
        return Ok(());
    };
    match card {
        Card::A => note_on(run, Card::A, gap, unit, card_a, breaks),
        Card::B => note_on(run, Card::B, gap, unit, card_b, breaks),
    }
}

/// An interruption is noted on an accepted card, which is torn out where that fails.
fn note_on<M: Medium, C: Chip>(
    run: &mut Run,
    which: Card,
    gap: SlotEvent,
    unit: &mut M,
    card: &mut C,
    breaks: &mut Lines<Break>,
) -> Result<(), Failed>
    requires may { MayNoteOn which run.old.next run.old breaks.old (M.state unit.old) (C.card card.old)
        (C.state card.old) }
    requires gap { IsPowerGap gap.event }
    ensures { NotesGapOn which gap.slot gap.event result run.old run.new breaks.old breaks.new
        (M.state unit.old) (M.state unit.new)
        (C.state card.old) (C.state card.new) (C.card card.new) }
{
    let Ok(app) = run.keeper.cabin.cards.of(which).sizes else {
        return Ok(());
    };
    let Some(accepted) = run.keeper.cabin.cards.take(which) else {
        return Ok(());
    };
    let at = run.moment(0);
    let noted = on_card(&gap.event, &run.keeper.memory.identity().registration);
    if note_event_on(card, app, &noted).is_err() {
        return run.keeper.tear(which, gap.slot, at, unit, breaks);
    }
    run.keeper.cabin.cards.set_session(which, Some(accepted));
    Ok(())
}
