//! The two slots of a run, with the sessions of the cards in them.
ghost use Rattle.std.specs.Prelude.{◌≡◌, ℕ, ◌+◌, ◌/◌, ◌<◌, ◌≤◌, true, false, Option, Some, None, Ok, is_some};
ghost use Rattle.trace_model.specs.declared.Card.{Card};
ghost use Rattle.card_slots.specs.Calls.{seat_in, card_in, is_card, present_in};
ghost use Rattle.card_slots.specs.Kept.{IsFree, nothing_yet};
ghost use Rattle.log_model.specs.Slots.{other_slot};
ghost use Rattle.run_crew.specs.Cards.{known_of, session_of};
ghost use Rattle.run_crew.specs.Cabin.{CabinIsSound, HoldsHands, SitsNowhere, MayBeKept, KnowsEnded, with_card_in};
ghost use Rattle.run_crew.specs.Cabin.{with_sizes_of, with_accepted, with_slot_left, with_session_of, torn_out};
ghost use Rattle.run_crew.specs.Cabin.{with_power_lost, with_minute_ended, slot_with, number_of_seat, crew_of};

use crate::cards::{Accepted, Cards, Crew, Known};
use activity_codec::Slot;
use card_layout::Application;
use card_slots::{Present, Slots};
use tacho_types::FullCardNumber;
use trace_model::Card;

/// The two card slots, and what is known of both cards. The calls keep slots and sessions together: a card in a slot
/// has a session exactly where it is accepted, and one that is in none has none, but while it leaves.
#[derive(Drop)]
pub struct Cabin {
    pub slots: Slots,
    pub cards: Cards,
}

impl Cabin {
    /// Both slots are empty, and no card is accepted.
    pub fn new(a: Known, b: Known) -> Cabin
        requires a { a.accepted ≡ None }
        requires b { b.accepted ≡ None }
        ensures kept { result ≡ record { slots = nothing_yet; cards = record { a = a; b = b } } }
        ensures stands { (from : ℕ) → CabinIsSound from None result }
    {
        Cabin {
            slots: Slots::new(),
            cards: Cards { a, b },
        }
    }

    /// A card is put into an empty slot, and is not accepted yet.
    pub fn put_in(&mut self, slot: Slot, card: Card)
        requires empty { seat_in self.old.slots.seats slot ≡ None }
        requires elsewhere { is_card (seat_in self.old.slots.seats (other_slot slot)) card ≡ false }
        ensures kept { self.new ≡ with_card_in slot card self.old }
        ensures stands { (from : ℕ) → CabinIsSound from None self.old → CabinIsSound from None self.new }
    {
        self.slots.put(slot, card, None);
    }

    /// A card that is not accepted has told these sizes, or the number of the first bad field of
    /// Application_Identification.
    pub fn measure(&mut self, card: Card, sizes: Result<Application, u8>)
        requires bare { session_of self.old.cards card ≡ None }
        ensures kept { self.new ≡ with_sizes_of card sizes self.old }
        ensures stands { (from : ℕ) (leaving : Option Card) → CabinIsSound from leaving self.old
            → CabinIsSound from leaving self.new }
    {
        self.cards.measure(card, sizes);
    }

    /// The card of a slot is accepted there, with a session by the sizes that are known of it; it has told this number,
    /// and this row of the unit is begun for it.
    pub fn accept(
        &mut self,
        slot: Slot,
        card: Card,
        number: FullCardNumber,
        row: u32,
        accepted: Accepted,
    )
        requires seat { seat_in self.old.slots.seats slot ≡ Some (record { card = card; newest = None }) }
        requires elsewhere { is_card (seat_in self.old.slots.seats (other_slot slot)) card ≡ false }
        requires sizes { (known_of self.old.cards card).sizes ≡ Ok accepted.session.application }
        ensures kept { self.new ≡ with_accepted slot card number row accepted self.old }
        ensures stands { (from : ℕ) → self.old.slots.minute ≤ from → HoldsHands from accepted
            → CabinIsSound from None self.old → CabinIsSound from None self.new }
    {
        let newest = accepted.session.newest_minute();
        self.slots.put(slot, card, Some(newest));
        self.cards.name(card, number, row);
        self.cards.set_session(card, Some(accepted));
    }

    /// The card of a slot leaves it in a second, to be withdrawn: its session goes on until it is closed.
    pub fn leave(&mut self, slot: Slot, second: u32)
        requires card { is_some (seat_in self.old.slots.seats slot) ≡ true }
        requires minute { self.old.slots.minute ≤ second / 60 }
        ensures kept { self.new ≡ with_slot_left slot second self.old }
        ensures stands { (from : ℕ) (card : Card) → card_in (seat_in self.old.slots.seats slot) ≡ Some card
            → CabinIsSound from None self.old → CabinIsSound from (Some card) self.new }
    {
        self.slots.take(slot, second);
    }

    /// The session of a card that has left its slot, to be closed.
    pub fn close(&mut self, card: Card) -> Option<Accepted>
        ensures session { result ≡ session_of self.old.cards card }
        ensures kept { self.new ≡ with_session_of card None self.old }
        ensures stands { (from : ℕ) → CabinIsSound from (Some card) self.old → CabinIsSound from None self.new }
    {
        self.cards.take(card)
    }

    /// A card is torn out in a second: it leaves its slot, if it sits in one, and has no session any more.
    pub fn tear(&mut self, card: Card, second: u32)
        requires minute { self.old.slots.minute ≤ second / 60 }
        ensures kept { self.new ≡ torn_out card second self.old }
        ensures stands { (from : ℕ) (leaving : Option Card) → CabinIsSound from leaving self.old
            → CabinIsSound from leaving self.new }
        ensures left { (from : ℕ) → CabinIsSound from (Some card) self.old → CabinIsSound from None self.new }
    {
        if let Some(slot) = self.slot_of(card) {
            self.slots.take(slot, second);
        }
        self.cards.set_session(card, None);
    }

    /// Power is lost in a second: the cards stay in their slots, and none is accepted any more.
    pub fn cut(&mut self, second: u32)
        requires minute { self.old.slots.minute ≤ second / 60 }
        ensures kept { self.new ≡ with_power_lost second self.old }
        ensures stands { (from to : ℕ) (leaving : Option Card) → CabinIsSound from leaving self.old
            → CabinIsSound to None self.new }
    {
        self.slots.cut(second);
        self.cards.set_session(Card::A, None);
        self.cards.set_session(Card::B, None);
    }

    /// A minute has ended.
    pub fn end_minute(&mut self, minute: u32)
        requires minute { self.old.slots.minute ≤ minute }
        ensures kept { self.new ≡ with_minute_ended minute self.old }
        ensures stands { (from : ℕ) → from ≤ minute → CabinIsSound from None self.old
            → CabinIsSound from None self.new }
        ensures ended { (from : ℕ) → minute < from + 4 → KnowsEnded from minute self.old.slots
            → KnowsEnded from (minute + 1) self.new.slots }
    {
        self.slots.end_minute(minute);
    }

    /// The cards that were present in a minute, one of the last four that ended.
    pub fn present(&self, minute: u32) -> Present
        requires ended { is_some (present_in self.now.slots.past minute) ≡ true }
        ensures present { Some result ≡ present_in self.now.slots.past minute }
        ensures stands { (from : ℕ) (leaving : Option Card) → from ≤ minute → CabinIsSound from leaving self.now
            → MayBeKept self.now.cards minute result }
    {
        self.slots.present(minute)
    }

    /// The slot that a card sits in.
    pub fn slot_of(&self, card: Card) -> Option<Slot>
        ensures { result ≡ slot_with self.now.slots.seats card }
    {
        if self.slots.card(Slot::Driver) == Some(card) {
            return Some(Slot::Driver);
        }
        if self.slots.card(Slot::CoDriver) == Some(card) {
            return Some(Slot::CoDriver);
        }
        None
    }

    /// The number of the card in a slot, where it is accepted.
    pub fn number_in(&self, slot: Slot) -> Option<FullCardNumber>
        ensures { result ≡ number_of_seat self.now.cards (seat_in self.now.slots.seats slot) }
    {
        let card = self.slots.card(slot)?;
        self.cards.of(card).accepted_number()
    }

    /// The numbers of the accepted cards in the slots.
    pub fn crew(&self) -> Crew
        ensures { result ≡ crew_of self.now }
    {
        Crew {
            driver: self.number_in(Slot::Driver),
            codriver: self.number_in(Slot::CoDriver),
        }
    }
}
