//! An entry by hand, which the session of the slot's card holds until it keeps its first minute.
ghost use Rattle.std.specs.Prelude.{◌≡◌, ◌<◌, ℕ, Option, None, IfSome, length};
ghost use Rattle.std.specs.Result.{result_err};
ghost use Rattle.log_model.specs.ByHand.{minute_on};
ghost use Rattle.trace_model.specs.declared.Card.{Card};
ghost use Rattle.run_crew.specs.Cards.{session_of};
ghost use Rattle.run_crew.specs.Cabin.{CabinIsSound};
ghost use Rattle.run_acts.specs.ByHand.{stop_in, stop_of, cards_holding, entered_run};
ghost use Rattle.run_record.specs.Within.{stop_told};
ghost use Rattle.hand_model.specs.declared.held.TheConstants.{MOST};

use crate::run::Run;
use activity_codec::{DAY_MINUTES, DAY_SECONDS, Manual, Pick, Slot};
use hand_model::EnterFault;
use log_model::SlotFault;
use run_crew::Cards;
use trace_model::Card;

/// Whether the session of the slot's card takes an entry by hand from this minute of the day on (0 to 1439). A slot
/// without a card, and a card without a session, stop none.
///
/// # Errors
///
/// `Begun` where the session has kept a minute, with the first such; else `NotFree` where the minute is not later than
/// the newest one of the card and of the session's entries by hand, or not before the insertion, with both; else `Full`
/// where it holds eight.
pub fn may_enter(run: &Run, slot: Slot, minute: u16) -> Result<(), SlotFault>
    ensures { result_err result ≡ stop_of slot minute run.now }
{
    let Some(card) = run.keeper.cabin.slots.card(slot) else {
        return Ok(());
    };
    may_hold(&run.keeper.cabin.cards, card, minute_of(run, minute))
}

/// Whether the session of a card, if it has one, takes an entry by hand of this minute.
fn may_hold(cards: &Cards, card: Card, minute: u32) -> Result<(), SlotFault>
    ensures { result_err result ≡ stop_in (session_of cards.now card) minute }
{
    let Some(accepted) = &cards.of(card).accepted else {
        return Ok(());
    };
    let newest = accepted.session.newest_minute();
    match accepted.held.may_enter(newest, minute) {
        Ok(()) => Ok(()),
        Err(fault) => Err(stop(fault)),
    }
}

/// The session of the slot's card holds an entry by hand that it takes.
pub fn enter(run: &mut Run, slot: Slot, pick: Pick, minute: u16)
    requires taken { stop_of slot minute run.old ≡ None }
    ensures entered { run.new ≡ entered_run slot pick minute run.old }
    ensures stands { (from : ℕ) (leaving : Option Card) → CabinIsSound from leaving run.old.keeper.cabin
        → CabinIsSound from leaving run.new.keeper.cabin }
{
    let Some(card) = run.keeper.cabin.slots.card(slot) else {
        return;
    };
    let entry = Manual {
        minute: minute_of(run, minute),
        slot,
        act: pick.activity(),
    };
    hold(&mut run.keeper.cabin.cards, card, &entry);
}

/// The session of a card, if it has one, holds one entry by hand more.
fn hold(cards: &mut Cards, card: Card, entry: &Manual)
    requires room { IfSome (session_of cards.old card) (λ a. length a.held.entries < MOST) }
    ensures { cards.new ≡ cards_holding entry.now card cards.old }
{
    let Some(mut accepted) = cards.take(card) else {
        return;
    };
    accepted.held.enter(entry);
    cards.set_session(card, Some(accepted));
}

/// The number of a minute of the day of the next second.
fn minute_of(run: &Run, minute: u16) -> u32
    ensures { result ≡ minute_on run.now.next minute }
{
    run.next / DAY_SECONDS * DAY_MINUTES + u32::from(minute)
}

fn stop(fault: EnterFault) -> SlotFault
    ensures { result ≡ stop_told fault }
{
    match fault {
        EnterFault::Begun(first) => SlotFault::Begun(first),
        EnterFault::NotFree(newest, inserted) => SlotFault::NotFree(newest, inserted),
        EnterFault::Full(held) => SlotFault::Full(held),
    }
}
