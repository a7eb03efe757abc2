//! The lines of a run log (profile). A second is counted from 1970-01-01 00:00 GMT, a minute is that divided by 60.

ghost use Rattle.std.specs.Prelude.{◌≡◌};
ghost use Rattle.log_model.specs.Causes.{device_of};

use activity_codec::Slot;
use card_layout::Fid;
use run_model::Device;
use trace_model::Card;

/// A card as a device.
pub fn device_of(card: Card) -> Device
    ensures { result ≡ device_of card }
{
    match card {
        Card::A => Device::CardA,
        Card::B => Device::CardB,
    }
}

/// Why an action was refused.
#[derive(Clone, Copy, Debug, PartialEq, Eq)]
pub enum SlotFault {
    /// A card is not withdrawn while the vehicle moves: its speed in km/h, 1 to 255.
    Moving(u8),
    /// The slot holds no card.
    Empty(Slot),
    /// The slot holds a card already.
    Occupied(Slot),
    /// The slot holds no accepted card.
    NoCard(Slot),
    /// The card is in the other slot.
    Elsewhere(Card),
    /// There is no power.
    NoPower,
    /// The session of the slot's card has kept a minute already: the first such, counted from 1970-01-01 00:00 GMT.
    Begun(u32),
    /// An entry by hand is not later than the newest minute of the card and of its entries by hand, or not earlier than
    /// the insertion: that newest minute, and the minute of the insertion.
    NotFree(u32, u32),
    /// The session holds so many entries by hand already, which are as many as it may: 8.
    Full(u8),
}

/// A minute that a device has acknowledged: from now on it stands there, whatever stops come.
#[derive(Clone, Copy, Debug, PartialEq, Eq)]
pub struct Mark {
    pub device: Device,
    /// The minute, counted from 1970-01-01 00:00 GMT.
    pub minute: u32,
    /// The device's clock, in writes begun, after the call that kept the minute.
    pub clock: u64,
}

/// Power was lost, or a card was torn out.
#[derive(Clone, Copy, Debug, PartialEq, Eq)]
pub enum Break {
    /// The power was lost in a second.
    Cut {
        /// The last second with power.
        second: u32,
        /// The last-kept minute that the next power-on found which loaded the unit, 0 where none came.
        kept: u32,
        /// Whether a call on the unit failed; else it is the last second before an `off` line.
        failed: bool,
        /// How many actions of the second had begun.
        begun: u32,
    },
    /// A card left its slot in a second with no orderly withdrawal.
    Tear {
        /// The second in which the card left its slot.
        second: u32,
        slot: Slot,
        /// Whether a call on the card failed; else it is a `tear` line.
        failed: bool,
        /// How many actions of the second had begun, the one in which it came included.
        begun: u32,
        /// Whether it came in the keeping of minutes, behind all actions of the second.
        late: bool,
    },
}

/// What an insertion found, or the power-on for a card in a slot.
#[derive(Clone, Copy, Debug, PartialEq, Eq)]
pub enum Verdict {
    /// The card is accepted, and so many owed entries were put on it, 0 to 4.
    Accepted {
        replayed: u8,
    },
    /// The card is not valid: the first file that fails, and the place in it.
    NotValid {
        fid: Fid,
        /// In bytes, from 0.
        place: u32,
    },
    /// The card tells of a later time than this second.
    TimeOverlap {
        /// The newest time that the card stores, in seconds from 1970-01-01 00:00 GMT.
        stored: u32,
        /// The second in which it was judged.
        now: u32,
    },
}

/// A card was judged.
#[derive(Clone, Copy, Debug, PartialEq, Eq)]
pub struct Find {
    /// The second in which it was judged, counted from 1970-01-01 00:00 GMT.
    pub second: u32,
    /// The slot in which it sits.
    pub slot: Slot,
    pub verdict: Verdict,
    /// How many actions of the second had begun, the insertion included; 0 at a power-on.
    pub begun: u32,
}

/// An action was refused.
#[derive(Clone, Copy, Debug, PartialEq, Eq)]
pub struct Refused {
    /// The second of the action, counted from 1970-01-01 00:00 GMT.
    pub second: u32,
    pub fault: SlotFault,
    /// How many actions of the second had begun, the refused one included.
    pub begun: u32,
}
