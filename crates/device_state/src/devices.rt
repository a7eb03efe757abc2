//! What a unit and two cards tell of themselves.
ghost use Rattle.std.specs.Prelude.{◌≡◌, ◌≤◌, IfSome};
ghost use Rattle.tach_media.specs.Medium.{Reads};
ghost use Rattle.unit_model.specs.Image.{IsUnit};
ghost use Rattle.unit_memory.specs.Fault.{has_failed};
ghost use Rattle.device_state.specs.Units.{TellsUnit};
ghost use Rattle.device_state.specs.Cards.{TellsCard, has_failed as card_failed};
ghost use Rattle.device_state.specs.Devices.{seen_by, seen, cards_seen};

use crate::card::{CardFault, card_state};
use crate::unit::{CardSeen, CardsSeen, UnitTold, unit_state};
use card_layout::LARGEST_IMAGE;
use card_validity::CardLook;
use tach_media::{Chip, Medium};
use tacho_types::{FullCardNumber, write_card_number};
use unit_memory::UnitFault;

/// What the three devices tell, or why they tell nothing.
#[derive(Clone, Copy, Debug)]
pub struct DevicesTold {
    pub unit: Result<UnitTold, UnitFault>,
    pub card_a: Result<CardLook, CardFault>,
    pub card_b: Result<CardLook, CardFault>,
}

/// Reads what a unit and two cards tell of themselves; it writes nothing, and takes no memory.
pub fn devices_state<U: Medium, C: Chip>(
    unit: &mut U,
    card_a: &mut C,
    card_b: &mut C,
) -> DevicesTold
    requires unit { IsUnit (U.state unit.old) }
    requires a { LARGEST_IMAGE ≤ (C.state card_a.old).size }
    requires b { LARGEST_IMAGE ≤ (C.state card_b.old).size }
    ensures unit { IfSome (U.state unit.old).image (TellsUnit (cards_seen result.card_a result.card_b) result.unit) }
    ensures card_a { IfSome (C.state card_a.old).image (TellsCard result.card_a) }
    ensures card_b { IfSome (C.state card_b.old).image (TellsCard result.card_b) }
    ensures reads_unit { Reads (U.state unit.old) (U.state unit.new) (has_failed result.unit) }
    ensures reads_a { Reads (C.state card_a.old) (C.state card_a.new) (card_failed result.card_a) }
    ensures reads_b { Reads (C.state card_b.old) (C.state card_b.new) (card_failed result.card_b) }
{
    let look_a = card_state(card_a);
    let look_b = card_state(card_b);
    let seen = CardsSeen {
        a: seen(&look_a),
        b: seen(&look_b),
    };
    DevicesTold {
        unit: unit_state(unit, &seen),
        card_a: look_a,
        card_b: look_b,
    }
}

/// What was seen of a card, if it told something.
fn seen(card: &Result<CardLook, CardFault>) -> Option<CardSeen>
    ensures { result ≡ seen card.now }
{
    match card {
        Ok(look) => Some(seen_by(look)),
        Err(_) => None,
    }
}

/// What was seen of a card that told this.
fn seen_by(look: &CardLook) -> CardSeen
    ensures { result ≡ seen_by look.now }
{
    let mut number = [0; FullCardNumber::SIZE];
    write_card_number(&look.number, &mut number);
    CardSeen {
        number,
        session: look.session,
        newest: look.newest_minute,
    }
}
