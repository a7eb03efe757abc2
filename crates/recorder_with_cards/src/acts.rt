//! The actions of a second.
ghost use Rattle.std.specs.Prelude.{◌≡◌, ◌-◌, ◌∷◌, [], true, false, None, min};
ghost use Rattle.std.specs.Prelude.{is_err};
ghost use Rattle.std.specs.Result.{result_err};
ghost use Rattle.activity_codec.specs.declared.values.Pick.{Pick};
ghost use Rattle.trace_model.specs.declared.Action.TheVariants.{Manual};
ghost use Rattle.log_model.specs.Slots.{refusal};
ghost use Rattle.run_minutes.specs.card_slots.Calls.{logged};
ghost use Rattle.run_minutes.specs.run_promise.Between.{devices};
ghost use Rattle.run_acts.specs.ByHand.{stopped_in};
ghost use Rattle.run_acts.specs.Power.{is_lit};
ghost use Rattle.run_acts.specs.Going.{largest_number, IsActing};
ghost use Rattle.run_acts.specs.Room.{HasRoomWithin, Takes};
ghost use Rattle.recorder_with_cards.specs.Acting.{put_count};
ghost use Rattle.recorder_with_cards.specs.Acting.{moment_of};
ghost use Rattle.recorder_with_cards.specs.Acting.{CallsNone};
ghost use Rattle.recorder_with_cards.specs.Recorded.{action_of};
ghost use Rattle.recorder_with_cards.specs.Items.{between, insertions_in};
ghost use Rattle.run_outcome.specs.Room.{insertion_count};
ghost use Rattle.run_acts.specs.Acts.{AllGoOn, RunStandsBehind};
ghost use Rattle.recorder_with_cards.specs.Acts.{ActGoes, ActsAll, ActsItem, ActsLit, ActsSo, CarriesOut, LeavesDone};
ghost use Rattle.recorder_with_cards.specs.Acts.{PromisesAction, PromisesActions, PromisesAll, PromisesWithPower};
ghost use Rattle.recorder_with_cards.specs.Acts.{AreAmong, MayAct, MayActLit, StandsActed};
ghost use Rattle.recorder_with_cards.specs.Writes.{action_unit_most, action_card_most};

use crate::accepting::SlotCard;
use crate::inserting::insert;
use activity_codec::Slot;
use log_model::SlotFault;
use run_acts::{Run, SlotPlace, Withdrawal, enter, may_enter, note_place, place, pull, withdraw};
use run_outcome::Outcome;
use tach_media::{Chip, Failed, Medium};
use trace_text::{Action, Item, Items};

/// How many actions a second had, as its lines of the outcome tell it.
pub(crate) fn number_of(actions: usize) -> u32
    ensures { result ≡ min actions largest_number }
{
    actions.min(u32::MAX as usize) as u32
}

/// A second, by the items of its actions, from one index to another: whether it has power at its beginning, and at
/// which speed in km/h.
#[derive(Clone, Copy)]
pub(crate) struct ActsOfSecond<I> {
    pub items: I,
    pub from: usize,
    pub to: usize,
    pub has_power: bool,
    pub speed: u8,
}

/// An item of the trace that is due in a second: as its action of this number, whether the second has power at its
/// beginning, and at which speed in km/h.
#[derive(Clone, Copy)]
struct DueItem {
    item: Item,
    begun: u32,
    has_power: bool,
    speed: u8,
}

/// An action that is due, in the same way.
#[derive(Clone, Copy)]
struct DueAction {
    action: Action,
    begun: u32,
    has_power: bool,
    speed: u8,
}

/// The actions of one second in their order, which are the items from one index to another.
pub(crate) fn act_all<M: Medium, C: Chip, D: Chip>(
    run: &mut Run,
    due: ActsOfSecond<&Items>,
    unit: &mut M,
    card_a: &mut C,
    card_b: &mut D,
    outcome: &mut Outcome,
)
    requires among { AreAmong due.items.now due.from due.to }
    requires may { MayAct due.has_power (insertions_in due.from due.to due.items.now) (due.to - due.from) run.old
        outcome.old (M.state unit.old) (C.card card_a.old) (D.card card_b.old) (C.state card_a.old)
        (D.state card_b.old) }
    ensures acted { ActsAll due.entry.has_power due.entry.speed
        (between due.entry.from due.entry.to due.entry.items.now) run.old run.new outcome.old outcome.new }
    // What a run promises goes on with them.
    ensures promises { PromisesAll due.entry.has_power due.entry.speed (due.entry.to - due.entry.from)
        (between due.entry.from due.entry.to due.entry.items.now) run.old run.new outcome.old
        outcome.new
        (devices (M.state unit.old) (C.state card_a.old) (D.state card_b.old))
        (devices (M.state unit.new) (C.state card_a.new) (D.state card_b.new)) }
    ensures still { is_lit run.old.power ≡ false
        → (is_lit run.new.power ≡ false) × (unit.new ≡ unit.old) × (card_a.new ≡ card_a.old)
        × (card_b.new ≡ card_b.old) }
    ensures goes { ActGoes (due.entry.to - due.entry.from) outcome.old.breaks.items outcome.new.breaks.items
        (devices (M.state unit.old) (C.state card_a.old) (D.state card_b.old))
        (devices (M.state unit.new) (C.state card_a.new) (D.state card_b.new)) }
    ensures behind { StandsActed (insertions_in due.entry.from due.entry.to due.entry.items.now)
        (due.entry.to - due.entry.from) run.old run.new outcome.old outcome.new
        (M.state unit.new) (C.card card_a.new) (D.card card_b.new) (C.state card_a.new) (D.state card_b.new) }
{
    let from = due.from;
    for i in from..due.to {
        act_item(
            run,
            DueItem {
                item: *due.items.get(i),
                begun: number_of(i - from + 1),
                has_power: due.has_power,
                speed: due.speed,
            },
            unit,
            card_a,
            card_b,
            outcome,
        );
    }
}

/// An action among the items.
fn act_item<M: Medium, C: Chip, D: Chip>(
    run: &mut Run,
    due: DueItem,
    unit: &mut M,
    card_a: &mut C,
    card_b: &mut D,
    outcome: &mut Outcome,
)
    requires may { MayAct due.has_power (insertion_count due.item) 1 run.old outcome.old (M.state unit.old)
        (C.card card_a.old) (D.card card_b.old) (C.state card_a.old) (D.state card_b.old) }
    ensures acted { ActsItem due.item due.has_power due.begun due.speed run.old run.new outcome.old outcome.new }
    // What a run promises goes on with it.
    ensures promises { PromisesWithPower due.has_power (action_of due.item) due.begun due.speed run.old run.new
        outcome.old outcome.new
        (devices (M.state unit.old) (C.state card_a.old) (D.state card_b.old))
        (devices (M.state unit.new) (C.state card_a.new) (D.state card_b.new)) }
    ensures still { is_lit run.old.power ≡ false
        → (is_lit run.new.power ≡ false) × (unit.new ≡ unit.old) × (card_a.new ≡ card_a.old)
        × (card_b.new ≡ card_b.old) }
    ensures goes { ActGoes 1 outcome.old.breaks.items outcome.new.breaks.items
        (devices (M.state unit.old) (C.state card_a.old) (D.state card_b.old))
        (devices (M.state unit.new) (C.state card_a.new) (D.state card_b.new)) }
    ensures behind { StandsActed (insertion_count due.item) 1 run.old run.new outcome.old outcome.new
        (M.state unit.new) (C.card card_a.new) (D.card card_b.new) (C.state card_a.new) (D.state card_b.new) }
{
    match due.item {
        Item::Act(action) => {
            let deed = DueAction {
                action,
                begun: due.begun,
                has_power: due.has_power,
                speed: due.speed,
            };
            act(run, deed, unit, card_a, card_b, outcome)
        }
        Item::Run { .. } => {}
        Item::Off { .. } => {}
    }
}

/// One action: in a second without power it is refused, and one that comes after a cut in its second is not carried
/// out.
fn act<M: Medium, C: Chip, D: Chip>(
    run: &mut Run,
    deed: DueAction,
    unit: &mut M,
    card_a: &mut C,
    card_b: &mut D,
    outcome: &mut Outcome,
)
    requires may { MayAct deed.has_power (put_count deed.action) 1 run.old outcome.old (M.state unit.old)
        (C.card card_a.old) (D.card card_b.old) (C.state card_a.old) (D.state card_b.old) }
    ensures acted { ActsSo deed.has_power deed.action deed.begun deed.speed run.old run.new outcome.old outcome.new }
    // What a run promises goes on with it.
    ensures promises { PromisesWithPower deed.has_power (deed.action ∷ []) deed.begun deed.speed run.old run.new
        outcome.old outcome.new
        (devices (M.state unit.old) (C.state card_a.old) (D.state card_b.old))
        (devices (M.state unit.new) (C.state card_a.new) (D.state card_b.new)) }
    ensures still { (deed.has_power ≡ true → is_lit run.old.power ≡ true
        → CallsNone (refusal (logged run.old.keeper.cabin.slots.seats) deed.speed deed.action) deed.action)
        → (unit.new ≡ unit.old) × (card_a.new ≡ card_a.old) × (card_b.new ≡ card_b.old) }
    ensures goes { ActGoes 1 outcome.old.breaks.items outcome.new.breaks.items
        (devices (M.state unit.old) (C.state card_a.old) (D.state card_b.old))
        (devices (M.state unit.new) (C.state card_a.new) (D.state card_b.new)) }
    ensures behind { StandsActed (put_count deed.action) 1 run.old run.new outcome.old outcome.new
        (M.state unit.new) (C.card card_a.new) (D.card card_b.new) (C.state card_a.new) (D.state card_b.new) }
{
    let has_power = deed.has_power;
    if !has_power {
        run.refuse(deed.begun, SlotFault::NoPower, &mut outcome.refused);
        return;
    }
    if !run.is_lit() {
        return;
    }
    act_lit(run, deed, unit, card_a, card_b, outcome);
}

/// One action with power.
fn act_lit<M: Medium, C: Chip, D: Chip>(
    run: &mut Run,
    deed: DueAction,
    unit: &mut M,
    card_a: &mut C,
    card_b: &mut D,
    outcome: &mut Outcome,
)
    requires may { MayActLit (put_count deed.action) run.old outcome.old (M.state unit.old) (C.card card_a.old)
        (D.card card_b.old) (C.state card_a.old) (D.state card_b.old) }
    ensures acted { ActsLit deed.action deed.begun deed.speed run.old run.new outcome.old outcome.new }
    ensures promises { PromisesActions (deed.action ∷ []) deed.begun deed.speed run.old run.new outcome.old outcome.new
        (devices (M.state unit.old) (C.state card_a.old) (D.state card_b.old))
        (devices (M.state unit.new) (C.state card_a.new) (D.state card_b.new)) }
    ensures still { CallsNone (refusal (logged run.old.keeper.cabin.slots.seats) deed.speed deed.action) deed.action
        → (unit.new ≡ unit.old) × (card_a.new ≡ card_a.old) × (card_b.new ≡ card_b.old) }
    ensures goes { ActGoes 1 outcome.old.breaks.items outcome.new.breaks.items
        (devices (M.state unit.old) (C.state card_a.old) (D.state card_b.old))
        (devices (M.state unit.new) (C.state card_a.new) (D.state card_b.new)) }
    ensures behind { StandsActed (put_count deed.action) 1 run.old run.new outcome.old outcome.new
        (M.state unit.new) (C.card card_a.new) (D.card card_b.new) (C.state card_a.new) (D.state card_b.new) }
{
    if let Err(fault) = may(run, deed.action, deed.speed) {
        run.refuse(deed.begun, fault, &mut outcome.refused);
        return;
    }
    if carry_out(run, deed, unit, card_a, card_b, outcome).is_err() {
        run.cut(run.next, true, deed.begun, &mut outcome.breaks);
    }
}

/// Whether the slots and the speed, and of an entry by hand the session of the slot's card, let an action be carried
/// out.
fn may(run: &Run, action: Action, speed: u8) -> Result<(), SlotFault>
    ensures { result_err result ≡ stopped_in run.now speed action }
{
    match action {
        Action::Select { .. } => Ok(()),
        Action::Insert { slot, card } => run.keeper.cabin.slots.may_insert(slot, card),
        Action::Withdraw { slot } => run.keeper.cabin.slots.may_withdraw(slot, speed),
        Action::Tear { slot } => run.keeper.cabin.slots.may_tear(slot),
        Action::Place { slot, .. } => run.keeper.cabin.slots.may_note(slot),
        Action::Manual { slot, minute, .. } => may_hold(run, slot, minute, speed),
    }
}

/// Whether the slots and the speed, and then the session of the slot's card, let an entry by hand be done.
fn may_hold(run: &Run, slot: Slot, minute: u16, speed: u8) -> Result<(), SlotFault>
    ensures answer { (pick : Pick) → result_err result ≡ stopped_in run.now speed (Manual slot pick minute) }
{
    run.keeper.cabin.slots.may_enter(slot, speed)?;
    may_enter(run, slot, minute)
}

/// An action that is not refused.
fn carry_out<M: Medium, C: Chip, D: Chip>(
    run: &mut Run,
    deed: DueAction,
    unit: &mut M,
    card_a: &mut C,
    card_b: &mut D,
    outcome: &mut Outcome,
) -> Result<(), Failed>
    requires acting { IsActing run.old (M.state unit.old) (C.card card_a.old) (D.card card_b.old) (C.state card_a.old)
        (D.state card_b.old) }
    requires allowed { stopped_in run.old deed.speed deed.action ≡ None }
    requires room { HasRoomWithin run.old outcome.old 1 0 (put_count deed.action) 0 }
    ensures done { CarriesOut deed.action (moment_of deed.begun run.old) deed.speed
        (is_err result) run.old run.new outcome.old
        outcome.new }
    // What a run promises goes on with it.
    ensures promises { PromisesAction deed.action deed.begun deed.speed
        (is_err result) run.old run.new outcome.old outcome.new
        (devices (M.state unit.old) (C.state card_a.old) (D.state card_b.old))
        (devices (M.state unit.new) (C.state card_a.new) (D.state card_b.new)) }
    ensures leaves { LeavesDone deed.action (moment_of deed.begun run.old) deed.speed
        (is_err result) run.old run.new outcome.old
        outcome.new
        (devices (M.state unit.old) (C.state card_a.old) (D.state card_b.old))
        (devices (M.state unit.new) (C.state card_a.new) (D.state card_b.new)) }
    ensures still { CallsNone None deed.action
        → (unit.new ≡ unit.old) × (card_a.new ≡ card_a.old) × (card_b.new ≡ card_b.old) }
    ensures goes { AllGoOn action_unit_most action_card_most outcome.old.breaks.items outcome.new.breaks.items
        (devices (M.state unit.old) (C.state card_a.old) (D.state card_b.old))
        (devices (M.state unit.new) (C.state card_a.new) (D.state card_b.new)) }
    ensures behind { RunStandsBehind result run.new
        (devices (M.state unit.old) (C.state card_a.old) (D.state card_b.old))
        (devices (M.state unit.new) (C.state card_a.new) (D.state card_b.new))
        (C.card card_a.new) (D.card card_b.new) }
    ensures takes { Takes (put_count deed.action) (put_count deed.action) 0 run.old run.new outcome.old outcome.new }
{
    let at = run.moment(deed.begun);
    match deed.action {
        Action::Select { slot, pick } => {
            run.minutes.select(slot, pick);
            Ok(())
        }
        Action::Insert { slot, card } => {
            let put = SlotCard {
                slot,
                card,
                at,
                speed: deed.speed,
            };
            insert(run, put, unit, card_a, card_b, outcome)
        }
        Action::Withdraw { slot } => {
            let withdrawal = Withdrawal { slot, at };
            withdraw(run, withdrawal, unit, card_a, card_b, outcome)
        }
        Action::Tear { slot } => {
            pull(run, slot, at, &mut outcome.breaks);
            Ok(())
        }
        Action::Place {
            slot,
            ending,
            country,
            region,
        } => {
            let entry = place(run, ending, country, region);
            let entered = SlotPlace { slot, entry, at };
            let breaks = &mut outcome.breaks;
            note_place(run, entered, unit, card_a, card_b, breaks)
        }
        Action::Manual { slot, pick, minute } => {
            enter(run, slot, pick, minute);
            Ok(())
        }
    }
}
