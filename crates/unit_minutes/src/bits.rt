//! The state of a slot as the bits of its word.
ghost use Rattle.std.specs.Prelude.{◌≡◌, ◌<◌};
ghost use Rattle.activity_codec.specs.Words.{activity_number};
ghost use Rattle.unit_minutes.specs.Kept.{bits_of, is_crew, slot_bits};

use crate::kept::KeptMinute;
use activity_codec::Activity;
use unit_model::State;

/// The bits of the states of both slots, as a change word has them: CREW, no card, activity.
#[derive(Clone, Copy, Debug, PartialEq, Eq)]
pub struct SlotBits {
    pub driver: u32,
    pub codriver: u32,
}

/// No card, rest, single, in both slots.
pub const BARE: SlotBits = SlotBits {
    driver: 4,
    codriver: 4,
};

/// Whether both slots have a present card.
fn is_crew(kept: &KeptMinute) -> bool
    ensures { result ≡ is_crew kept.now }
{
    kept.driver.present && kept.codriver.present
}

/// The bits of the states of both slots.
pub fn slot_bits(kept: &KeptMinute) -> SlotBits
    ensures bits { result ≡ slot_bits kept.now }
    ensures driver_short { result.driver < 16 }
    ensures codriver_short { result.codriver < 16 }
{
    let crew = is_crew(kept);
    SlotBits {
        driver: bits_of(kept.driver, crew),
        codriver: bits_of(kept.codriver, crew),
    }
}

/// The bits of a state in a word: CREW, no card, activity.
fn bits_of(state: State, crew: bool) -> u32
    ensures bits { result ≡ bits_of state crew }
    ensures short { result < 16 }
{
    let crew_bit = if crew { 8 } else { 0 };
    let absent_bit = if state.present { 0 } else { 4 };
    crew_bit + absent_bit + activity_bits(state.act)
}

/// The bits of an activity.
fn activity_bits(act: Activity) -> u32
    ensures bits { result ≡ activity_number act }
    ensures short { result < 4 }
{
    match act {
        Activity::Rest => 0,
        Activity::Available => 1,
        Activity::Work => 2,
        Activity::Driving => 3,
    }
}
