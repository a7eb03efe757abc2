//! The two slots, call by call.
ghost use Rattle.std.specs.Prelude.{◌≡◌, ℕ, ◌+◌, ◌/◌, ◌≤◌, Bool, true, false, Option, Some, None, List, [], ◌∷◌, ◌++◌};
ghost use Rattle.std.specs.Prelude.{is_some, take};
ghost use Rattle.std.specs.Result.{result_err};
ghost use Rattle.activity_codec.specs.declared.values.Pick.{Pick};
ghost use Rattle.trace_model.specs.declared.Action.TheVariants.{Insert, Withdraw, Tear, Place, Manual};
ghost use Rattle.log_model.specs.Slots.{refusal, other_slot};
ghost use Rattle.card_slots.specs.Calls.{SlotCall, Put, Take, CutAt, EndMinute, seat_in, with_seat, card_in, is_card};
ghost use Rattle.card_slots.specs.Calls.{has_accepted, powerless, logged, ending, ended_in, present_in, present_by};
ghost use Rattle.card_slots.specs.Kept.{Kept, SlotsRemember, KnowsNewest, SitStill, IsFree, left_in, with_left, put_in};
ghost use Rattle.card_slots.specs.Kept.{taken, cut_off, minute_ended, nothing_yet};

use crate::seats::{Ended, Lefts, Present, Seat, is_same};
use activity_codec::{MINUTE_SECONDS, Slot};
use arrayvec::ArrayVec;
use log_model::SlotFault;
use std::marker::Model;
use trace_model::Card;

/// So many minutes that have ended are kept: as long as one may be undecided.
const PAST: usize = 4;

/// The two card slots: which card sits in which, whether it is accepted, and which cards were present in the last
/// minutes.
///
/// A card is present in a slot in a minute if it sits there, accepted, at the minute's end, did not leave a slot or
/// lose power in that minute, and the minute is later than its newest one at its acceptance (profile).
#[derive(Drop)]
pub struct Slots {
    /// No call speaks of an earlier minute any more.
    minute: u64,
    driver: Option<Seat>,
    codriver: Option<Seat>,
    left: Lefts,
    /// The last minutes that ended, the newest first.
    past: ArrayVec<Ended, PAST>,
}

impl Model for Slots {
    ghost use Rattle.card_slots.specs.Kept.{Kept};

    ghost Value = { Kept };

    ghost view = { λ s. record {
      minute = s.minute;
      seats = record { driver = s.driver; codriver = s.codriver };
      left = s.left;
      past = s.past.items;
    } };
}

impl Slots {
    /// Both slots are empty.
    pub fn new() -> Self
        ensures stands { SlotsRemember result [] }
        ensures kept { result ≡ nothing_yet }
        ensures newest { KnowsNewest result }
    {
        Slots {
            minute: 0,
            driver: None,
            codriver: None,
            left: Lefts::default(),
            past: ArrayVec::new(),
        }
    }

    /// Whether a card may be put into a slot.
    ///
    /// # Errors
    ///
    /// 1. `Occupied` where the slot holds a card.
    /// 2. `Elsewhere` where the other slot holds this one.
    pub fn may_insert(&self, slot: Slot, card: Card) -> Result<(), SlotFault>
        ensures answer { (speed : ℕ) → result_err result ≡ refusal (logged self.now.seats) speed (Insert slot card) }
    {
        if self.seat(slot).is_some() {
            return Err(SlotFault::Occupied(slot));
        }
        if holds(self.seat(other(slot)), card) {
            return Err(SlotFault::Elsewhere(card));
        }
        Ok(())
    }

    /// Whether the card of a slot may be withdrawn at this speed in km/h.
    ///
    /// # Errors
    ///
    /// 1. `Empty` where the slot holds none.
    /// 2. `Moving` where the speed is above 0.
    pub fn may_withdraw(&self, slot: Slot, speed: u8) -> Result<(), SlotFault>
        ensures answer { result_err result ≡ refusal (logged self.now.seats) speed (Withdraw slot) }
    {
        if self.seat(slot).is_none() {
            return Err(SlotFault::Empty(slot));
        }
        if speed > 0 {
            return Err(SlotFault::Moving(speed));
        }
        Ok(())
    }

    /// Whether a slot has a card that can be torn out.
    ///
    /// # Errors
    ///
    /// `Empty` where the slot holds none.
    pub fn may_tear(&self, slot: Slot) -> Result<(), SlotFault>
        ensures answer { (speed : ℕ) → result_err result ≡ refusal (logged self.now.seats) speed (Tear slot) }
    {
        if self.seat(slot).is_some() {
            Ok(())
        } else {
            Err(SlotFault::Empty(slot))
        }
    }

    /// Whether a place can be noted for a slot.
    ///
    /// # Errors
    ///
    /// `NoCard` where the slot has no accepted card.
    pub fn may_note(&self, slot: Slot) -> Result<(), SlotFault>
        ensures answer { (speed : ℕ) (ending : Bool) (country region : ℕ)
            → result_err result ≡ refusal (logged self.now.seats) speed (Place slot ending country region) }
    {
        if is_accepted(self.seat(slot)) {
            Ok(())
        } else {
            Err(SlotFault::NoCard(slot))
        }
    }

    /// Whether an entry by hand may be made for a slot at this speed in km/h, by the slots.
    ///
    /// # Errors
    ///
    /// 1. `NoCard` where the slot has no accepted card.
    /// 2. `Moving` where the speed is above 0.
    pub fn may_enter(&self, slot: Slot, speed: u8) -> Result<(), SlotFault>
        ensures answer { (pick : Pick) (minute : ℕ)
            → result_err result ≡ refusal (logged self.now.seats) speed (Manual slot pick minute) }
    {
        if !is_accepted(self.seat(slot)) {
            return Err(SlotFault::NoCard(slot));
        }
        if speed > 0 {
            return Err(SlotFault::Moving(speed));
        }
        Ok(())
    }

    /// The card of a slot, if there is one.
    pub fn card(&self, slot: Slot) -> Option<Card>
        ensures { result ≡ card_in (seat_in self.now.seats slot) }
    {
        Some(self.seat(slot)?.card)
    }

    /// A card is in a slot from now on; accepted, where its newest minute is given.
    ///
    /// The slot is empty, or holds this card, not accepted; the other slot does not hold it. So a card can be put in
    /// before it is judged, and once more when it is accepted.
    pub fn put(&mut self, slot: Slot, card: Card, newest_minute: Option<u32>)
        requires free { IsFree self.old.seats slot card }
        ensures stands { (calls : List SlotCall) → SlotsRemember self.old calls
            → SlotsRemember self.new (calls ++ Put slot card newest_minute ∷ []) }
        ensures kept { self.new ≡ put_in slot card newest_minute self.old }
        ensures newest { KnowsNewest self.old → KnowsNewest self.new }
    {
        let seat = Seat {
            card,
            newest: newest_minute,
        };
        self.set_seat(slot, Some(seat));
    }

    /// The card of a slot leaves it in a second, withdrawn or torn out.
    ///
    /// The slot holds a card. The second's minute has not ended, and is not earlier than that of a second given before.
    pub fn take(&mut self, slot: Slot, second: u32)
        requires card { is_some (seat_in self.old.seats slot) ≡ true }
        requires minute { self.old.minute ≤ second / 60 }
        ensures stands { (calls : List SlotCall) → SlotsRemember self.old calls
            → SlotsRemember self.new (calls ++ Take slot second ∷ []) }
        ensures kept { self.new ≡ taken slot second self.old }
        ensures newest { KnowsNewest self.old → KnowsNewest self.new }
    {
        self.leave(self.seat(slot), second / MINUTE_SECONDS);
        self.set_seat(slot, None);
    }

    /// Power is lost in a second: the cards stay in their slots, and none is accepted any more.
    ///
    /// The second's minute has not ended, and is not earlier than that of a second given before.
    pub fn cut(&mut self, second: u32)
        requires minute { self.old.minute ≤ second / 60 }
        ensures stands { (calls : List SlotCall) → SlotsRemember self.old calls
            → SlotsRemember self.new (calls ++ CutAt second ∷ []) }
        ensures kept { self.new ≡ cut_off second self.old }
        ensures newest { KnowsNewest self.old → KnowsNewest self.new }
    {
        let driver = self.seat(Slot::Driver);
        let codriver = self.seat(Slot::CoDriver);
        self.leave(driver, second / MINUTE_SECONDS);
        self.leave(codriver, second / MINUTE_SECONDS);
        self.set_seat(Slot::Driver, without_power(driver));
        self.set_seat(Slot::CoDriver, without_power(codriver));
    }

    /// A minute has ended.
    ///
    /// It is later than the last one that ended, and not earlier than that of a second given before.
    pub fn end_minute(&mut self, minute: u32)
        requires minute { self.old.minute ≤ minute }
        ensures stands { (calls : List SlotCall) → SlotsRemember self.old calls
            → SlotsRemember self.new (calls ++ EndMinute minute ∷ []) }
        ensures kept { self.new ≡ minute_ended minute self.old }
        ensures newest { KnowsNewest self.old → KnowsNewest self.new }
    {
        self.remember(self.ending(minute));
    }

    /// The cards that were present in a minute, one of the last four that ended. A card among them that did not leave
    /// since sits in its slot still, and told an earlier minute as its newest one at its acceptance.
    pub fn present(&self, minute: u32) -> Present
        requires ended { is_some (present_in self.now.past minute) ≡ true }
        ensures present { (calls : List SlotCall) → SlotsRemember self.now calls
            → Some result ≡ present_by calls minute }
        ensures kept { Some result ≡ present_in self.now.past minute }
        ensures newest { KnowsNewest self.now → SitStill self.now minute result }
    {
        self.kept_present(minute)
    }

    /// What is in a slot.
    fn seat(&self, slot: Slot) -> Option<Seat>
        ensures { result ≡ seat_in self.now.seats slot }
    {
        match slot {
            Slot::Driver => self.driver,
            Slot::CoDriver => self.codriver,
        }
    }

    /// This is in a slot from now on.
    fn set_seat(&mut self, slot: Slot, seat: Option<Seat>)
        ensures { self.new ≡ record self.old { seats = with_seat self.old.seats slot seat } }
    {
        match slot {
            Slot::Driver => self.driver = seat,
            Slot::CoDriver => self.codriver = seat,
        }
    }

    /// The card of a slot, if there is one, leaves in a minute.
    fn leave(&mut self, seat: Option<Seat>, minute: u32)
        ensures { self.new ≡ record {
          minute = minute;
          seats = self.old.seats;
          left = with_left minute seat self.old.left;
          past = self.old.past;
        } }
    {
        self.left = self.left.with(seat, minute);
        self.minute = minute as u64;
    }

    /// A minute as it ends now.
    fn ending(&self, minute: u32) -> Ended
        ensures { result ≡ ending (left_in self.now.left) minute self.now.seats }
    {
        Ended {
            minute,
            present: Present {
                driver: self.left.present(self.driver, minute),
                codriver: self.left.present(self.codriver, minute),
            },
        }
    }

    /// One more minute has ended.
    fn remember(&mut self, ended: Ended)
        ensures { self.new ≡ record {
          minute = ended.minute
              + 1;
          seats = self.old.seats;
          left = self.old.left;
          past = ended ∷ take 3 self.old.past;
        } }
    {
        self.past.truncate(PAST - 1);
        self.past.insert(0, ended);
        self.minute = ended.minute as u64 + 1;
    }

    /// The cards that were present in a minute that is kept.
    fn kept_present(&self, minute: u32) -> Present
        requires ended { is_some (present_in self.now.past minute) ≡ true }
        ensures { Some result ≡ present_in self.now.past minute }
    {
        match self.ended(minute) {
            Some(ended) => ended.present,
            None => Present::default(),
        }
    }

    /// A minute that is kept.
    fn ended(&self, minute: u32) -> Option<Ended>
        ensures { result ≡ ended_in self.now.past minute }
    {
        self.past
            .as_slice()
            .iter()
            .copied()
            .find(|ended| ended.minute == minute)
    }
}

/// The slot beside it.
fn other(slot: Slot) -> Slot
    ensures { result ≡ other_slot slot }
{
    match slot {
        Slot::Driver => Slot::CoDriver,
        Slot::CoDriver => Slot::Driver,
    }
}

/// Whether this card is in the slot.
fn holds(seat: Option<Seat>, card: Card) -> bool
    ensures { result ≡ is_card seat card }
{
    match seat {
        None => false,
        Some(seat) => is_same(seat.card, card),
    }
}

/// Whether an accepted card is in the slot.
fn is_accepted(seat: Option<Seat>) -> bool
    ensures { result ≡ has_accepted seat }
{
    match seat {
        None => false,
        Some(seat) => seat.newest.is_some(),
    }
}

/// Its card is not accepted any more.
fn without_power(seat: Option<Seat>) -> Option<Seat>
    ensures { result ≡ powerless seat }
{
    let seat = seat?;
    Some(Seat {
        card: seat.card,
        newest: None,
    })
}
