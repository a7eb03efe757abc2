//! A card leaves its slot by hand: it is withdrawn, or pulled out.
ghost use Rattle.std.specs.Prelude.{◌≡◌, ℕ, ◌+◌, ◌-◌, ◌*◌, ◌/◌, ◌<◌, ◌≤◌, true, Option, None};
ghost use Rattle.std.specs.Prelude.{length, is_some, is_err};
ghost use Rattle.trace_model.specs.declared.Card.{Card};
ghost use Rattle.tach_media.specs.Medium.{LeavesOnly, HasCause};
ghost use Rattle.run_events.specs.message_model.Records.{insertion_ring};
ghost use Rattle.unit_model.specs.declared.layout.TheConstants.{HIGHEST_ODOMETER};
ghost use Rattle.unit_notes.specs.Journal.{LeavesJournal};
ghost use Rattle.run_crew.specs.card_slots.Calls.{seat_in, card_in};
ghost use Rattle.run_crew.specs.Cards.{session_of};
ghost use Rattle.run_crew.specs.Cabin.{CabinIsSound};
ghost use Rattle.run_events.specs.run_speeds.Speeds.{LeavesSpeeds};
ghost use Rattle.run_minutes.specs.Keeping.{UnitMayBeCalled, with_lines};
ghost use Rattle.run_acts.specs.Going.{IsActing};
ghost use Rattle.run_acts.specs.Room.{falls_of};
ghost use Rattle.run_minutes.specs.run_promise.Between.{devices};
ghost use Rattle.run_acts.specs.Acting.{pulled_run, pulled_breaks};
ghost use Rattle.run_acts.specs.Noting.{SaysNoMore};
ghost use Rattle.run_acts.specs.Ringing.{WritesWithdrawal};
ghost use Rattle.run_acts.specs.Acts.{AllGoOn, LeavesWithdrawn, PromisesWithdrawal, RunStandsBehind};
ghost use Rattle.run_acts.specs.Acts.{ClosesSession, Withdraws, MayClose};
ghost use Rattle.run_acts.specs.Writes.{withdraw_unit_most, withdraw_card_most};

use crate::run::Run;
use crate::settling::settle;
use activity_codec::Slot;
use device_calls::leave;
use log_model::Break;
use run_minutes::Moment;
use run_outcome::{Lines, Outcome};
use tach_media::{Chip, Failed, Medium};
use tacho_types::TimeReal;
use trace_model::Card;
use unit_model::layout::INSERTION_SLOTS;
use unit_notes::UnitNotes;

/// So many insertions are kept in the unit: behind as many more, the entry of one has made room for another.
const INSERTIONS: u64 = INSERTION_SLOTS as u64;

/// A card leaves a slot by hand, at a moment.
#[derive(Clone, Copy)]
pub struct Withdrawal {
    pub slot: Slot,
    pub at: Moment,
}

/// The card of a slot is withdrawn: what that settles is kept first, and then its session is closed. Where the slot is
/// empty nothing is done, and no device is called.
///
/// # Errors
///
/// `Failed` where the unit failed.
pub fn withdraw<M: Medium, C: Chip, D: Chip>(
    run: &mut Run,
    withdrawal: Withdrawal,
    unit: &mut M,
    card_a: &mut C,
    card_b: &mut D,
    outcome: &mut Outcome,
) -> Result<(), Failed>
    requires acting { IsActing run.old (M.state unit.old) (C.card card_a.old) (D.card card_b.old) (C.state card_a.old)
        (D.state card_b.old) }
    requires at { withdrawal.at.second ≡ run.old.next }
    requires marks { length outcome.old.marks.items + 3 * run.old.minutes.owing ≤ outcome.old.marks.room }
    requires breaks { length outcome.old.breaks.items + falls_of run.old.keeper.cabin ≤ outcome.old.breaks.room }
    ensures empty { card_in (seat_in run.old.keeper.cabin.slots.seats withdrawal.slot) ≡ None
        → (unit.new ≡ unit.old) × (card_a.new ≡ card_a.old) × (card_b.new ≡ card_b.old) }
    ensures withdrawn { Withdraws withdrawal.slot withdrawal.at
        (is_err result) run.old run.new outcome.old outcome.new }
    ensures leaves { LeavesWithdrawn withdrawal.slot withdrawal.at
        (is_err result) run.old run.new outcome.old outcome.new
        (devices (M.state unit.old) (C.state card_a.old) (D.state card_b.old))
        (devices (M.state unit.new) (C.state card_a.new) (D.state card_b.new)) }
    // What a run promises goes on with it.
    ensures promises { PromisesWithdrawal withdrawal.slot withdrawal.at
        (is_err result) run.old run.new outcome.old outcome.new
        (devices (M.state unit.old) (C.state card_a.old) (D.state card_b.old))
        (devices (M.state unit.new) (C.state card_a.new) (D.state card_b.new)) }
    ensures behind { RunStandsBehind result run.new
        (devices (M.state unit.old) (C.state card_a.old) (D.state card_b.old))
        (devices (M.state unit.new) (C.state card_a.new) (D.state card_b.new))
        (C.card card_a.new) (D.card card_b.new) }
    ensures goes { AllGoOn withdraw_unit_most withdraw_card_most outcome.old.breaks.items outcome.new.breaks.items
        (devices (M.state unit.old) (C.state card_a.old) (D.state card_b.old))
        (devices (M.state unit.new) (C.state card_a.new) (D.state card_b.new)) }
{
    let Some(card) = run.keeper.cabin.slots.card(withdrawal.slot) else {
        return Ok(());
    };
    run.keeper
        .cabin
        .leave(withdrawal.slot, withdrawal.at.second);
    settle(run, withdrawal.at, unit, card_a, card_b, outcome)?;
    match card {
        Card::A => close(run, Card::A, withdrawal, unit, card_a, &mut outcome.breaks),
        Card::B => close(run, Card::B, withdrawal, unit, card_b, &mut outcome.breaks),
    }
}

/// The session of a card that was taken out of a slot is closed, if it has one: it is handed out without a write where
/// it was not accepted, and where it was torn out by then.
fn close<M: Medium, C: Chip>(
    run: &mut Run,
    which: Card,
    withdrawal: Withdrawal,
    unit: &mut M,
    card: &mut C,
    breaks: &mut Lines<Break>,
) -> Result<(), Failed>
    requires ready { UnitMayBeCalled run.old.keeper (M.state unit.old) }
    requires may { MayClose which withdrawal.at.second run.old breaks.old (C.card card.old) (C.state card.old) }
    ensures closes { ClosesSession which withdrawal.slot withdrawal.at result run.old run.new breaks.old breaks.new
        (M.state unit.old) (M.state unit.new)
        (C.state card.old) (C.state card.new) (C.card card.new) }
    ensures bare { session_of run.old.keeper.cabin.cards which ≡ None → card.new ≡ card.old }
{
    let selected = run.minutes.selected(withdrawal.slot);
    let sizes = run.keeper.cabin.cards.of(which).sizes;
    let Some(accepted) = run.keeper.cabin.close(which) else {
        return Ok(());
    };
    let Ok(app) = sizes else {
        return Ok(());
    };
    match leave(unit, card, app, accepted.session, which, selected) {
        Ok(()) => note_withdrawal(run, accepted.entry, accepted.noted, withdrawal.at, unit),
        Err(_) => run
            .keeper
            .tear(which, withdrawal.slot, withdrawal.at, unit, breaks),
    }
}

/// A withdrawal is noted in the entry of its insertion, unless that has made room for another.
fn note_withdrawal<M: Medium>(
    run: &Run,
    entry: u32,
    noted: u64,
    at: Moment,
    unit: &mut M,
) -> Result<(), Failed>
    requires ready { UnitMayBeCalled run.now.keeper (M.state unit.old) }
    requires entry { entry < insertion_ring.count }
    requires noted { noted ≤ run.now.noted }
    requires odometer { run.now.keeper.odometer ≤ HIGHEST_ODOMETER }
    ensures quiet { SaysNoMore (M.state unit.old) (M.state unit.new) }
    ensures rings { is_some (M.state unit.old).image ≡ true
        → WritesWithdrawal (record { index = entry; behind = run.now.noted - noted }) at.second (is_err result) run.now
        (M.state unit.old) (M.state unit.new) }
    ensures journal { LeavesOnly (M.state unit.old) (M.state unit.new) LeavesJournal }
    ensures speeds { LeavesSpeeds (M.state unit.old) (M.state unit.new) }
    ensures cause { HasCause (M.state unit.old) (M.state unit.new) (is_err result) }
    ensures most { (M.state unit.new).clock ≤ (M.state unit.old).clock + 2 }
{
    if run.noted - noted >= INSERTIONS {
        return Ok(());
    }
    let odometer = run.odometer_now();
    run.keeper
        .memory
        .note_withdrawal(unit, entry, TimeReal(at.second), odometer)
}

/// The card of a slot is pulled out, without any write.
pub fn pull(run: &mut Run, slot: Slot, at: Moment, breaks: &mut Lines<Break>)
    requires minute { run.old.keeper.cabin.slots.minute ≤ at.second / 60 }
    requires room { length breaks.old.items + falls_of run.old.keeper.cabin ≤ breaks.old.room }
    requires stands { (from : ℕ) × (leaving : Option Card) × CabinIsSound from leaving run.old.keeper.cabin }
    ensures run { run.new ≡ pulled_run (card_in (seat_in run.old.keeper.cabin.slots.seats slot)) at.second run.old }
    ensures breaks { breaks.new ≡ with_lines
        (pulled_breaks (card_in (seat_in run.old.keeper.cabin.slots.seats slot)) slot at) breaks.old }
    ensures stands { (from : ℕ) (leaving : Option Card) → CabinIsSound from leaving run.old.keeper.cabin
        → CabinIsSound from leaving run.new.keeper.cabin }
{
    let Some(card) = run.keeper.cabin.slots.card(slot) else {
        return;
    };
    run.keeper.cabin.tear(card, at.second);
    breaks.add(Break::Tear {
        second: at.second,
        slot,
        failed: false,
        begun: at.begun,
        late: false,
    });
}
