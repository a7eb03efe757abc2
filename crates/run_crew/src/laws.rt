//! The slots and the sessions in them, as minutes are kept: laws.
ghost use Rattle.std.specs.Prelude.{◌≡◌, ℕ, ◌+◌, ◌<◌, ◌≤◌, true, Option, Some, is_some};
ghost use Rattle.card_slots.specs.Calls.{present_in};
ghost use Rattle.card_slots.specs.Kept.{Kept};
ghost use Rattle.trace_model.specs.declared.Card.{Card};
ghost use Rattle.hand_model.specs.Holding.{begun_by};
ghost use Rattle.run_crew.specs.declared.cards.Accepted.{Accepted};
ghost use Rattle.run_crew.specs.declared.cabin.Cabin.{Cabin};
ghost use Rattle.run_crew.specs.Cards.{session_of};
ghost use Rattle.run_crew.specs.Cabin.{CabinIsSound, KnowsEnded, with_session_of};

/// A session that was taken to keep a minute, and is given back with that minute as its newest one, goes on: no minute
/// up to it is to be kept any more.
pub fn a_session_that_kept_its_minute_goes_on()
    ensures { (from minute : ℕ) (leaving : Option Card) (card : Card) (old new : Accepted) (cabin : Cabin)
        → from ≤ minute + 1 → session_of cabin.cards card ≡ Some old → new.session.application ≡ old.session.application
        → new.session.minute ≤ minute → new.held ≡ begun_by minute old.held
        → CabinIsSound from leaving cabin → CabinIsSound (minute + 1) leaving (with_session_of card (Some new) cabin) }
{}

/// No minute before a later one is to be kept any more.
pub fn slots_and_sessions_stand_from_a_later_minute_on()
    ensures { (from to : ℕ) (leaving : Option Card) (cabin : Cabin) → from ≤ to → CabinIsSound from leaving cabin
        → CabinIsSound to leaving cabin }
{}

/// Who was present in a minute that has ended is known.
pub fn an_ended_minute_is_known()
    ensures known { (from to minute : ℕ) (slots : Kept) → from ≤ minute → minute < to → KnowsEnded from to slots
        → is_some (present_in slots.past minute) ≡ true }
    ensures later { (from later to : ℕ) (slots : Kept) → from ≤ later → KnowsEnded from to slots
        → KnowsEnded later to slots }
    ensures none { (from : ℕ) (slots : Kept) → KnowsEnded from from slots }
    ensures same { (from to : ℕ) (slots new : Kept) → new.past ≡ slots.past → KnowsEnded from to slots
        → KnowsEnded from to new }
{}
