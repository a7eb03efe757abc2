//! A trace alone (profile): what its lines ask for, and, as definitions over whole lists (specs/), which seconds they
//! spell.
#![tactic(auto)]

use activity_codec::{Pick, Slot};

/// One of the two driver cards of a trace.
#[derive(Clone, Copy, Debug, PartialEq, Eq)]
pub enum Card {
    A,
    B,
}

impl Card {
    ghost use Rattle.std.specs.Prelude.{◌≡◌};
    ghost use Rattle.trace_model.specs.Names.{card_named};

    /// The card that a word names: `a` or `b`.
    pub fn named(word: &[u8]) -> Option<Card>
        ensures { result ≡ card_named word.now }
    {
        if word == b"a".as_slice() {
            return Some(Card::A);
        }
        if word == b"b".as_slice() {
            return Some(Card::B);
        }
        None
    }
}

/// What a line asks for at the start of the second that follows it.
#[derive(Clone, Copy, Debug, PartialEq, Eq)]
pub enum Action {
    /// An activity is selected for a slot.
    Select {
        slot: Slot,
        pick: Pick,
    },
    /// A card is put into a slot.
    Insert {
        slot: Slot,
        card: Card,
    },
    /// The card of a slot is withdrawn in order.
    Withdraw {
        slot: Slot,
    },
    /// The card of a slot is pulled out, without any write.
    Tear {
        slot: Slot,
    },
    /// The driver of a slot enters the place where the day begins, or ends where `ending` is set.
    Place {
        slot: Slot,
        ending: bool,
        country: u8,
        region: u8,
    },
    /// The driver of a slot enters by hand what began at this minute of the day, below 1440, without the card.
    Manual {
        slot: Slot,
        pick: Pick,
        minute: u16,
    },
}

/// A line of a trace behind its first.
#[derive(Clone, Copy, Debug, PartialEq, Eq)]
pub enum Item {
    /// So many seconds at this speed in km/h.
    Run { seconds: u32, speed: u8 },
    /// So many seconds without power.
    Off { seconds: u32 },
    /// An action at the start of the second that follows.
    Act(Action),
}
