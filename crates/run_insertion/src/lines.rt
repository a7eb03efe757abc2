//! What is told of a card that enters.
ghost use Rattle.std.specs.Prelude.{◌≡◌, ◌<◌, ◌≤◌, ◌+◌, ◌∷◌, [], length};
ghost use Rattle.device_calls.specs.device_rule.Views.{other};
ghost use Rattle.log_model.specs.Causes.{device_of};
ghost use Rattle.run_minutes.specs.Keeping.{with_lines};
ghost use Rattle.run_insertion.specs.Entering.{find_of, and_mark, and_marks, last_of, most_owed, slot_number};
ghost use Rattle.run_insertion.specs.Entering.{insertion_of};

use activity_codec::{Entry, Owed, Slot};
use card_validity::CardLook;
use log_model::{Find, Mark, Verdict, device_of};
use run_minutes::Moment;
use run_outcome::Lines;
use tacho_types::{Odometer, Registration, TimeReal};
use trace_model::Card;
use unit_notes::Insertion;

/// A card that enters: which it is, into which slot, when, at which speed in km/h, and where the odometer stands.
#[derive(Clone, Copy, Debug, PartialEq, Eq)]
pub struct Entering {
    pub which: Card,
    pub slot: Slot,
    pub at: Moment,
    pub speed: u8,
    pub odometer: Odometer,
}

/// A card that enters beside the other one.
#[derive(Clone, Copy)]
pub struct Beside<O> {
    pub entering: Entering,
    /// The other card, which is never called: what is said of both cards together speaks of it.
    pub others: O,
}

// The other card.
pub(crate) fn other_card(card: Card) -> Card
    ensures { result ≡ other card }
{
    match card {
        Card::A => Card::B,
        Card::B => Card::A,
    }
}

// What was found of a card is told.
pub(crate) fn find(entering: Entering, verdict: Verdict, finds: &mut Lines<Find>)
    requires room { length finds.old.items < finds.old.room }
    ensures told { finds.new ≡ with_lines (find_of entering verdict ∷ []) finds.old }
{
    finds.add(Find {
        second: entering.at.second,
        slot: entering.slot,
        verdict,
        begun: entering.at.begun,
    });
}

/// A mark is told, where there is room.
fn tell_mark(mark: Mark, marks: &mut Lines<Mark>)
    ensures told { marks.new ≡ and_mark mark marks.old }
    ensures room { marks.new.room ≡ marks.old.room }
    ensures few { length marks.new.items ≤ length marks.old.items + 1 }
{
    marks.add_if_room(mark);
}

// The last ones of these entries, so many, are marked of a card.
pub(crate) fn tell_replayed(which: Card, owed: &Owed, many: u8, clock: u64, marks: &mut Lines<Mark>)
    ensures told { marks.new ≡ and_marks (device_of which) clock (last_of owed.now.items many) marks.old }
    ensures room { marks.new.room ≡ marks.old.room }
    ensures few { length marks.new.items ≤ length marks.old.items + most_owed }
    ensures most { length owed.now.items ≤ most_owed }
{
    let device = device_of(which);
    let entries = owed.as_slice();
    let last = &entries[entries.len().saturating_sub(many as usize)..];
    for entry in last {
        tell_mark(
            Mark {
                device,
                minute: entry.minute,
                clock,
            },
            marks,
        );
    }
}

/// The slot in an insertion's entry.
fn slot_number(slot: Slot) -> u8
    ensures { result ≡ slot_number slot }
{
    match slot {
        Slot::Driver => 0,
        Slot::CoDriver => 1,
    }
}

// The insertion of a card that told this.
pub(crate) fn insertion_of(look: &CardLook, entering: Entering) -> Insertion
    ensures { result ≡ insertion_of look.now entering }
{
    let (previous, previous_time) = match look.previous {
        None => (Registration([0; 15]), TimeReal(0)),
        Some(vehicle) => (vehicle.registration, vehicle.last_use),
    };
    Insertion {
        surname: look.surname,
        first: look.first,
        number: look.number,
        expiry: look.expiry,
        time: TimeReal(entering.at.second),
        odometer: entering.odometer,
        slot: slot_number(entering.slot),
        out_time: TimeReal(0),
        out_odometer: Odometer(0),
        previous,
        previous_time,
        manual: 0,
    }
}
