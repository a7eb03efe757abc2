//! Laws of the slots of a unit and those of a run log.
ghost use Rattle.std.specs.Prelude.{◌≡◌, ℕ, Option, Some, None, option_map};
ghost use Rattle.activity_codec.specs.declared.values.Slot.{Slot};
ghost use Rattle.trace_model.specs.declared.Card.{Card};
ghost use Rattle.trace_model.specs.declared.Action.{Action};
ghost use Rattle.log_model.specs.Slots.{refusal};
ghost use Rattle.log_model.specs.Slots as log;
ghost use Rattle.log_model.specs.Course.{with_slot};
ghost use Rattle.log_model.specs.Course as course;
ghost use Rattle.card_slots.specs.Calls.{Seats, Agrees, logged, with_seat, powerless};

/// Slots of a run log that have the same cards, accepted alike, refuse the same actions.
pub fn agreeing_slots_refuse_alike()
    ensures { (seats : Seats) (slots : log.Slots) (speed : ℕ) (action : Action) → Agrees seats slots
        → refusal slots speed action ≡ refusal (logged seats) speed action }
{}

/// They agree on after a card was put into a slot of both, accepted in a second where its newest minute is told.
pub fn they_agree_on_a_card_put_in()
    ensures { (seats : Seats) (slots : log.Slots) (slot : Slot) (card : Card) (newest : Option ℕ) (second : ℕ)
        → Agrees seats slots → Agrees (with_seat seats slot (Some (record { card = card; newest = newest })))
        (with_slot slots slot (Some (record {
          card = card;
          accepted = option_map {T = ℕ} {U = ℕ} (λ n. second) newest;
        }))) }
{}

/// They agree on after the card of a slot was taken out of both.
pub fn they_agree_on_a_card_taken_out()
    ensures { (seats : Seats) (slots : log.Slots) (slot : Slot) → Agrees seats slots
        → Agrees (with_seat seats slot None) (with_slot slots slot None) }
{}

/// They agree on after power was lost.
pub fn they_agree_on_power_lost()
    ensures { (seats : Seats) (slots : log.Slots) → Agrees seats slots
        → Agrees (record { driver = powerless seats.driver; codriver = powerless seats.codriver })
        (record { driver = course.powerless slots.driver; codriver = course.powerless slots.codriver }) }
{}
