//! What is known of a slot and of a card.
ghost use Rattle.std.specs.Prelude.{◌≡◌};
ghost use Rattle.card_slots.specs.Calls.{present_of, is_earlier};
ghost use Rattle.card_slots.specs.Kept.{is_minute, left_in, with_left};
ghost use Rattle.log_model.specs.Slots.{same_card};

use trace_model::Card;

/// A card in a slot.
#[derive(Clone, Copy, Debug, PartialEq, Eq)]
pub struct Seat {
    pub card: Card,
    /// Where it is accepted: the newest minute that it told at its acceptance.
    pub newest: Option<u32>,
}

/// The cards that were present in a minute.
#[derive(Clone, Copy, Debug, Default, PartialEq, Eq)]
pub struct Present {
    pub driver: Option<Card>,
    pub codriver: Option<Card>,
}

/// A minute that has ended.
#[derive(Clone, Copy, Debug, Default, PartialEq, Eq)]
pub struct Ended {
    /// Its number: seconds since 1970-01-01 00:00 GMT, divided by 60.
    pub minute: u32,
    pub present: Present,
}

/// For each card the minute in which it last left a slot or lost power.
#[derive(Clone, Copy, Debug, Default, PartialEq, Eq)]
pub struct Lefts {
    pub a: Option<u32>,
    pub b: Option<u32>,
}

impl Lefts {
    /// Whether a card left in this minute, where that is not earlier than any minute of leaving.
    pub fn has(&self, card: Card, minute: u32) -> bool
        ensures { result ≡ left_in self.now card minute }
    {
        let left = match card {
            Card::A => self.a,
            Card::B => self.b,
        };
        is_that(left, minute)
    }

    /// The card of a slot, if there is one, leaves in this minute.
    pub fn with(self, seat: Option<Seat>, minute: u32) -> Self
        ensures { result ≡ with_left minute seat self }
    {
        let Some(seat) = seat else {
            return self;
        };
        match seat.card {
            Card::A => Lefts {
                a: Some(minute),
                b: self.b,
            },
            Card::B => Lefts {
                a: self.a,
                b: Some(minute),
            },
        }
    }

    /// The card of a slot where it is present in the minute that ends.
    pub fn present(&self, seat: Option<Seat>, minute: u32) -> Option<Card>
        ensures { result ≡ present_of (left_in self.now) minute seat }
    {
        let seat = seat?;
        if is_before(seat.newest, minute) && !self.has(seat.card, minute) {
            Some(seat.card)
        } else {
            None
        }
    }
}

/// Whether it is this minute.
fn is_that(left: Option<u32>, minute: u32) -> bool
    ensures { result ≡ is_minute left minute }
{
    match left {
        None => false,
        Some(left) => left == minute,
    }
}

/// Whether a card was accepted with an earlier newest minute than this.
fn is_before(newest: Option<u32>, minute: u32) -> bool
    ensures { result ≡ is_earlier newest minute }
{
    match newest {
        None => false,
        Some(newest) => newest < minute,
    }
}

/// Whether the two cards are one.
pub(crate) fn is_same(one: Card, other: Card) -> bool
    ensures { result ≡ same_card one other }
{
    one == other
}
