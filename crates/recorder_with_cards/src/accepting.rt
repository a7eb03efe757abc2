//! A card that sits in a slot, not accepted, is accepted or turned away.
ghost use Rattle.std.specs.Prelude.{◌≡◌, ◌<◌, ◌^◌, None, is_err};
ghost use Rattle.run_minutes.specs.card_slots.Calls.{seat_in, card_in};
ghost use Rattle.run_acts.specs.Going.{IsActing};
ghost use Rattle.run_acts.specs.Room.{bare_count, Takes, TakesFind};
ghost use Rattle.recorder_with_cards.specs.Accepting.{chip_a_of, chip_b_of, a_of, b_of};
ghost use Rattle.run_minutes.specs.run_promise.Between.{devices};
ghost use Rattle.run_minutes.specs.run_devices.Told.{arranged};
ghost use Rattle.run_acts.specs.Acts.{RunStandsBehind};
ghost use Rattle.recorder_with_cards.specs.Acts.{AcceptsAnew, AcceptsHere, AcceptsIn, CardGoes, DevicesGo};
ghost use Rattle.recorder_with_cards.specs.Acts.{LeavesAccepted, LeavesAnew, LeavesHere, PromisesAccepting};
ghost use Rattle.recorder_with_cards.specs.Acts.{PromisesAnew, PromisesHere, HasRoomForOwed, MayAccept, MayJudgeAnew};
ghost use Rattle.recorder_with_cards.specs.Writes.{accept_unit_most, accept_card_most};

use activity_codec::Slot;
use run_acts::Run;
use run_insertion::{Beside, Entering, accept};
use run_minutes::Moment;
use run_outcome::Outcome;
use tach_media::{Chip, Failed, Medium};
use trace_model::Card;

/// A card in a slot, at a moment and a speed in km/h.
#[derive(Clone, Copy)]
pub(crate) struct SlotCard {
    pub slot: Slot,
    pub card: Card,
    pub at: Moment,
    pub speed: u8,
}

/// A slot whose card, if there is one, is judged anew, at a moment and a speed in km/h.
#[derive(Clone, Copy)]
pub(crate) struct SlotAnew {
    pub slot: Slot,
    pub at: Moment,
    pub speed: u8,
}

// A card that sits in a slot, not accepted, is judged.
pub(crate) fn accept_here<M: Medium, C: Chip, D: Chip>(
    run: &mut Run,
    entering: Entering,
    unit: &mut M,
    card: &mut C,
    others: &D,
    outcome: &mut Outcome,
) -> Result<(), Failed>
    requires acting { IsActing run.old (M.state unit.old)
        (chip_a_of entering.which (C.card card.old) (D.card others.now))
        (chip_b_of entering.which (C.card card.old) (D.card others.now))
        (a_of entering.which (C.state card.old) (D.state others.now))
        (b_of entering.which (C.state card.old) (D.state others.now)) }
    requires may { MayAccept entering.slot entering.which entering.at run.old outcome.old }
    requires fits { entering.odometer.0 < 2 ^ 24 }
    ensures accepted { AcceptsHere entering run.old run.new outcome.old outcome.new }
    ensures behind { RunStandsBehind result run.new
        (devices (M.state unit.old) (a_of entering.which (C.state card.old) (D.state others.now))
        (b_of entering.which (C.state card.old) (D.state others.now)))
        (devices (M.state unit.new) (a_of entering.which (C.state card.new) (D.state others.now))
        (b_of entering.which (C.state card.new) (D.state others.now)))
        (chip_a_of entering.which (C.card card.new) (D.card others.now))
        (chip_b_of entering.which (C.card card.new) (D.card others.now)) }
    ensures takes { TakesFind run.old run.new outcome.old outcome.new }
    // What a run promises goes on with it, where there is room for the marks of what the card is owed.
    ensures promises { HasRoomForOwed 1 outcome.old
        → PromisesHere entering (is_err result) run.old run.new outcome.old outcome.new
        (arranged entering.which (M.state unit.old) (C.state card.old) (D.state others.now))
        (arranged entering.which (M.state unit.new) (C.state card.new) (D.state others.now)) }
    ensures leaves { LeavesHere entering (is_err result) run.old run.new outcome.old outcome.new (M.state unit.old)
        (M.state unit.new)
        (arranged entering.which (M.state unit.old) (C.state card.old) (D.state others.now))
        (arranged entering.which (M.state unit.new) (C.state card.new) (D.state others.now)) }
    ensures goes { CardGoes accept_unit_most accept_card_most outcome.old.breaks.items outcome.new.breaks.items
        (M.state unit.old)
        (M.state unit.new)
        (C.state card.old) (C.state card.new) }
{
    let mut noted = run.noted;
    let beside = Beside { entering, others };
    let answer = accept(&mut run.keeper, &mut noted, beside, unit, card, outcome);
    run.noted = noted;
    // For the proof alone: no more insertions were noted than finds are told, which are counted in a `usize`.
    let _most = outcome.finds.len();
    answer
}

// The card that sits in a slot, not accepted, is judged.
pub(crate) fn accept_in<M: Medium, C: Chip, D: Chip>(
    run: &mut Run,
    put: SlotCard,
    unit: &mut M,
    card_a: &mut C,
    card_b: &mut D,
    outcome: &mut Outcome,
) -> Result<(), Failed>
    requires acting { IsActing run.old (M.state unit.old) (C.card card_a.old) (D.card card_b.old) (C.state card_a.old)
        (D.state card_b.old) }
    requires may { MayAccept put.slot put.card put.at run.old outcome.old }
    ensures accepted { AcceptsIn put.slot put.card put.at put.speed run.old run.new outcome.old outcome.new }
    ensures behind { RunStandsBehind result run.new
        (devices (M.state unit.old) (C.state card_a.old) (D.state card_b.old))
        (devices (M.state unit.new) (C.state card_a.new) (D.state card_b.new))
        (C.card card_a.new) (D.card card_b.new) }
    ensures takes { TakesFind run.old run.new outcome.old outcome.new }
    // What a run promises goes on with it, where there is room for the marks of what the card is owed.
    ensures promises { HasRoomForOwed 1 outcome.old → PromisesAccepting put.slot put.card put.at put.speed
        (is_err result) run.old run.new outcome.old outcome.new
        (devices (M.state unit.old) (C.state card_a.old) (D.state card_b.old))
        (devices (M.state unit.new) (C.state card_a.new) (D.state card_b.new)) }
    ensures leaves { LeavesAccepted put.slot put.card put.at put.speed
        (is_err result) run.old run.new outcome.old outcome.new
        (devices (M.state unit.old) (C.state card_a.old) (D.state card_b.old))
        (devices (M.state unit.new) (C.state card_a.new) (D.state card_b.new)) }
    ensures goes { DevicesGo accept_unit_most accept_card_most outcome.old.breaks.items outcome.new.breaks.items
        (devices (M.state unit.old) (C.state card_a.old) (D.state card_b.old))
        (devices (M.state unit.new) (C.state card_a.new) (D.state card_b.new)) }
{
    let odometer = run.odometer_now();
    match put.card {
        Card::A => {
            let entering = Entering {
                which: Card::A,
                slot: put.slot,
                at: put.at,
                speed: put.speed,
                odometer,
            };
            accept_here(run, entering, unit, card_a, card_b, outcome)
        }
        Card::B => {
            let entering = Entering {
                which: Card::B,
                slot: put.slot,
                at: put.at,
                speed: put.speed,
                odometer,
            };
            accept_here(run, entering, unit, card_b, card_a, outcome)
        }
    }
}

/// The card that sits in a slot, if there is one, is judged anew.
///
/// # Errors
///
/// `Failed` where the unit failed.
pub(crate) fn accept_anew<M: Medium, C: Chip, D: Chip>(
    run: &mut Run,
    anew: SlotAnew,
    unit: &mut M,
    card_a: &mut C,
    card_b: &mut D,
    outcome: &mut Outcome,
) -> Result<(), Failed>
    requires acting { IsActing run.old (M.state unit.old) (C.card card_a.old) (D.card card_b.old) (C.state card_a.old)
        (D.state card_b.old) }
    requires may { MayJudgeAnew anew.slot anew.at run.old outcome.old }
    ensures accepted { AcceptsAnew anew.slot anew.at anew.speed run.old run.new outcome.old outcome.new }
    ensures behind { RunStandsBehind result run.new
        (devices (M.state unit.old) (C.state card_a.old) (D.state card_b.old))
        (devices (M.state unit.new) (C.state card_a.new) (D.state card_b.new))
        (C.card card_a.new) (D.card card_b.new) }
    ensures takes { Takes
        (bare_count (seat_in run.old.keeper.cabin.slots.seats anew.slot)) 0 0 run.old run.new outcome.old
        outcome.new }
    // What a run promises goes on with it, where there is room for the marks of what the card, if one sits there, is
    // owed.
    ensures promises { HasRoomForOwed (bare_count (seat_in run.old.keeper.cabin.slots.seats anew.slot)) outcome.old
        → PromisesAnew anew.slot anew.at anew.speed (is_err result) run.old run.new outcome.old outcome.new
        (devices (M.state unit.old) (C.state card_a.old) (D.state card_b.old))
        (devices (M.state unit.new) (C.state card_a.new) (D.state card_b.new)) }
    ensures still { card_in (seat_in run.old.keeper.cabin.slots.seats anew.slot) ≡ None
        → (unit.new ≡ unit.old) × (card_a.new ≡ card_a.old) × (card_b.new ≡ card_b.old) }
    ensures leaves { LeavesAnew anew.slot anew.at anew.speed (is_err result) run.old run.new outcome.old outcome.new
        (devices (M.state unit.old) (C.state card_a.old) (D.state card_b.old))
        (devices (M.state unit.new) (C.state card_a.new) (D.state card_b.new)) }
    ensures goes { DevicesGo accept_unit_most accept_card_most outcome.old.breaks.items outcome.new.breaks.items
        (devices (M.state unit.old) (C.state card_a.old) (D.state card_b.old))
        (devices (M.state unit.new) (C.state card_a.new) (D.state card_b.new)) }
{
    let Some(card) = run.keeper.cabin.slots.card(anew.slot) else {
        return Ok(());
    };
    let put = SlotCard {
        slot: anew.slot,
        card,
        at: anew.at,
        speed: anew.speed,
    };
    accept_in(run, put, unit, card_a, card_b, outcome)
}
