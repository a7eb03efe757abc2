//! A place is noted.
ghost use Rattle.std.specs.Prelude.{◌≡◌, ◌≢◌, ◌+◌, ◌<◌, ◌≤◌, ◌^◌};
ghost use Rattle.std.specs.Prelude.{length, is_err, if◌then◌else◌};
ghost use Rattle.unit_model.specs.minute_model.Span.{Span, travelled_of};
ghost use Rattle.minute_rules.specs.Kept.{CountsSpan};
ghost use Rattle.unit_model.specs.declared.layout.TheConstants.{HIGHEST_ODOMETER};
ghost use Rattle.run_minutes.specs.Minutes.{odometer_by};
ghost use Rattle.run_minutes.specs.run_promise.Between.{devices};
ghost use Rattle.run_acts.specs.Going.{IsActing};
ghost use Rattle.run_acts.specs.Room.{falls_of};
ghost use Rattle.run_acts.specs.Acts.{AllGoOn, LeavesPlaced, NotesPlaceOn, PlacesSo, PromisesPlace, RunStandsBehind};
ghost use Rattle.run_acts.specs.Acts.{MayNoteOn};
ghost use Rattle.run_acts.specs.Writes.{place_unit_most, place_card_most};

use crate::run::Run;
use activity_codec::Slot;
use device_calls::note_place_on;
use log_model::Break;
use run_minutes::Moment;
use run_outcome::Lines;
use tach_media::{Chip, Failed, Medium};
use tacho_types::{Nation, PlaceEntry, TimeReal};
use trace_model::Card;
use unit_notes::UnitNotes;

/// A place that is entered now.
pub fn place(run: &Run, ending: bool, country: u8, region: u8) -> PlaceEntry
    requires { run.now.keeper.odometer ≤ HIGHEST_ODOMETER }
    ensures time { result.time.0 ≡ run.now.next }
    ensures kind { result.kind ≡ (if ending then 1 else 0) }
    ensures where_to { (result.country.0 ≡ country) × (result.region ≡ region) }
    ensures odometer { (span : Span) → CountsSpan run.now.minutes span
        → result.odometer.0 ≡ odometer_by run.now.keeper.odometer (travelled_of span) }
    ensures most { result.odometer.0 ≤ HIGHEST_ODOMETER }
{
    PlaceEntry {
        time: TimeReal(run.next),
        kind: if ending { 1 } else { 0 },
        country: Nation(country),
        region,
        odometer: run.odometer_now(),
    }
}

/// A place that is entered in a slot, with its moment.
#[derive(Clone, Copy)]
pub struct SlotPlace {
    pub slot: Slot,
    pub entry: PlaceEntry,
    pub at: Moment,
}

/// A place is noted on the unit, and then on the accepted card of a slot.
///
/// # Errors
///
/// `Failed` where the unit failed.
pub fn note_place<M: Medium, C: Chip, D: Chip>(
    run: &mut Run,
    place: SlotPlace,
    unit: &mut M,
    card_a: &mut C,
    card_b: &mut D,
    breaks: &mut Lines<Break>,
) -> Result<(), Failed>
    requires acting { IsActing run.old (M.state unit.old) (C.card card_a.old) (D.card card_b.old) (C.state card_a.old)
        (D.state card_b.old) }
    requires at { place.at.second ≡ run.old.next }
    requires time { place.entry.time.0 ≢ 0 }
    requires odometer { place.entry.odometer.0 ≤ HIGHEST_ODOMETER }
    requires breaks { length breaks.old.items + falls_of run.old.keeper.cabin ≤ breaks.old.room }
    ensures placed { PlacesSo place.slot place.at run.old run.new breaks.old breaks.new }
    ensures leaves { LeavesPlaced place.slot place.entry place.at (is_err result) run.old run.new breaks.old breaks.new
        (devices (M.state unit.old) (C.state card_a.old) (D.state card_b.old))
        (devices (M.state unit.new) (C.state card_a.new) (D.state card_b.new)) }
    // What a run promises goes on with it.
    ensures promises { PromisesPlace place.slot place.entry place.at
        (is_err result) run.old run.new breaks.old breaks.new
        (devices (M.state unit.old) (C.state card_a.old) (D.state card_b.old))
        (devices (M.state unit.new) (C.state card_a.new) (D.state card_b.new)) }
    ensures behind { RunStandsBehind result run.new
        (devices (M.state unit.old) (C.state card_a.old) (D.state card_b.old))
        (devices (M.state unit.new) (C.state card_a.new) (D.state card_b.new))
        (C.card card_a.new) (D.card card_b.new) }
    ensures goes { AllGoOn place_unit_most place_card_most breaks.old.items breaks.new.items
        (devices (M.state unit.old) (C.state card_a.old) (D.state card_b.old))
        (devices (M.state unit.new) (C.state card_a.new) (D.state card_b.new)) }
{
    let Some(card) = run.keeper.cabin.slots.card(place.slot) else {
        return Ok(());
    };
    let Some(number) = run.keeper.cabin.number_in(place.slot) else {
        return Ok(());
    };
    run.keeper.memory.note_place(unit, &number, &place.entry)?;
    match card {
        Card::A => note_place_in(run, Card::A, place, unit, card_a, breaks),
        Card::B => note_place_in(run, Card::B, place, unit, card_b, breaks),
    }
}

/// The same on the card, which is torn out where that fails.
fn note_place_in<M: Medium, C: Chip>(
    run: &mut Run,
    which: Card,
    place: SlotPlace,
    unit: &mut M,
    card: &mut C,
    breaks: &mut Lines<Break>,
) -> Result<(), Failed>
    requires may { MayNoteOn which place.at.second run.old breaks.old (M.state unit.old) (C.card card.old)
        (C.state card.old) }
    requires time { place.entry.time.0 ≢ 0 }
    requires odometer { place.entry.odometer.0 < 2 ^ 24 }
    ensures { NotesPlaceOn which place.slot place.entry place.at result run.old run.new breaks.old breaks.new
        (M.state unit.old) (M.state unit.new)
        (C.state card.old) (C.state card.new) (C.card card.new) }
{
    let Ok(app) = run.keeper.cabin.cards.of(which).sizes else {
        return Ok(());
    };
    let Some(accepted) = run.keeper.cabin.cards.take(which) else {
        return Ok(());
    };
    if note_place_on(card, app, &place.entry).is_err() {
        return run.keeper.tear(which, place.slot, place.at, unit, breaks);
    }
    run.keeper.cabin.cards.set_session(which, Some(accepted));
    Ok(())
}
