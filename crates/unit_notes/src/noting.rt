//! The noting of events and faults.
ghost use Rattle.std.specs.Prelude.{◌≡◌, ◌≢◌, ◌≤◌, ◌<◌, ◌+◌, ◌*◌, [], ◌∷◌, length, map, IfOk, IfSome, None, OnOk};
ghost use Rattle.std.specs.Prelude.{is_err, true};
ghost use Rattle.card_layout.specs.Fields.{total_width};
ghost use Rattle.tach_media.specs.Medium.{Reads, LeavesOnly, HasCause, IsSettled, StaysSettled, last_count};
ghost use Rattle.unit_model.specs.Image.{IsUnit};
ghost use Rattle.event_model.specs.Kinds.{places_of};
ghost use Rattle.event_model.specs.Places.{place_of, day_place, similar_after};
ghost use Rattle.gated_ring.specs.Change.{IsReplaced, IsReplacingEntry, IsSet, OrUnwritten};
ghost use Rattle.note_model.specs.Tables.{widths_of, table_of, held_in, similar_field, similar_at};
ghost use Rattle.unit_notes.specs.Tables.{rows_in, place_taken, place_of_day, similar_next, similar_place, front_size};
ghost use Rattle.unit_notes.specs.Tables.{with_similar};
ghost use Rattle.unit_notes.specs.Noting.{IsNotingEvent, IsEventNoted};

use crate::tables::{
    EVENT_SIZE, FAULT_SIZE, MOST_BYTES, base_of, count_of, held_in, held_table, similar_at,
    table_of, width_of,
};
use arrayvec::ArrayVec;
use event_model::{CARD_FAULT, Held};
use event_rules::{day_place, place_for, similar_after};
use tach_media::{Failed, Medium};

/// Where a new event goes: its place, that of the event of its day, and the similar events that are counted then.
#[derive(Clone, Copy, Debug, PartialEq, Eq)]
pub struct Choice {
    pub place: Option<u8>,
    pub day: Option<u8>,
    pub similar: u8,
}

/// Where an event of a type goes, by the bytes of the places of its type.
fn choice_in(kind: u8, table: &[u8], event: &Held) -> Choice
    requires { length table.now ≡ places_of kind * total_width (widths_of kind) }
    ensures place { result.place ≡ place_of kind (map (held_in kind) (rows_in kind table.now)) event.now }
    ensures day { result.day ≡ day_place kind (map (held_in kind) (rows_in kind table.now)) event.now }
    ensures similar { result.similar
        ≡ similar_after (similar_at kind (rows_in kind table.now) (similar_field kind) result.day) }
    ensures place_below { IfSome result.place (λ i. i < places_of kind) }
    ensures day_below { IfSome result.day (λ i. i < places_of kind) }
{
    let held = held_table(kind, table);
    let day = day_place(kind, &held, event);
    Choice {
        place: place_for(kind, &held, event),
        day,
        similar: similar_after(similar_at(kind, table, day)),
    }
}

/// Where an event goes whose entry has this front. It reads the places of its type at once.
fn choose<M: Medium>(unit: &mut M, kind: u8, front: &[u8]) -> Result<Choice, Failed>
    requires unit { IsUnit (M.state unit.old) }
    requires front { 12 ≤ length front.now }
    ensures place { IfOk result (λ c. IfSome (M.state unit.old).image (λ x. c.place ≡ place_taken kind front.now x)) }
    ensures day { IfOk result (λ c. IfSome (M.state unit.old).image (λ x. c.day ≡ place_of_day kind front.now x)) }
    ensures similar { IfOk result (λ c. IfSome (M.state unit.old).image (λ x. c.similar ≡ similar_next kind x c.day)) }
    ensures place_below { IfOk result (λ c. IfSome c.place (λ i. i < places_of kind)) }
    ensures day_below { IfOk result (λ c. IfSome c.day (λ i. i < places_of kind)) }
    ensures reads { Reads (M.state unit.old) (M.state unit.new) (is_err result) }
{
    let mut room = [0; MOST_BYTES];
    let table = &mut room[..count_of(kind) * width_of(kind)];
    unit.read_at(base_of(kind), table)?;
    let event = held_in(kind, front);
    Ok(choice_in(kind, table, &event))
}

/// The entry of an event from its front.
fn entry_of(kind: u8, front: &[u8], similar: u8) -> ArrayVec<u8, EVENT_SIZE>
    requires { length front.now ≤ FAULT_SIZE }
    ensures { result.items ≡ with_similar kind similar front.now }
{
    let mut entry = ArrayVec::new();
    let _ = entry.try_extend_from_slice(front);
    if kind != CARD_FAULT {
        entry.push(similar);
    }
    entry
}

/// Puts the entry of an event with this front at a place of its type.
fn put_entry<M: Medium>(
    unit: &mut M,
    kind: u8,
    place: u8,
    front: &[u8],
    similar: u8,
) -> Result<(), Failed>
    requires unit { IsUnit (M.state unit.old) }
    requires place { place < places_of kind }
    requires front { length front.now ≡ front_size kind }
    requires begin { (held_in kind front.now).begin ≢ 0 }
    ensures replaced { OnOk result (IfSome (M.state unit.old).image
        (λ x. IfSome (M.state unit.new).image
        (IsReplaced (table_of kind) place (with_similar kind similar front.now) x))) }
    ensures moments { LeavesOnly (M.state unit.old) (M.state unit.new)
        (IsReplacingEntry (table_of kind) place (with_similar kind similar front.now)) }
    ensures settled { OnOk result ((M.state unit.new).clock < last_count → IsSettled (M.state unit.new)) }
    ensures cause { HasCause (M.state unit.old) (M.state unit.new) (is_err result) }
    ensures most { (M.state unit.new).clock ≤ (M.state unit.old).clock + 4 }
{
    let entry = entry_of(kind, front, similar);
    table_of(kind).put_at(unit, place as u32, &entry)
}

/// Writes the number of similar events that the event at a place of its type counts.
fn count_similar<M: Medium>(unit: &mut M, kind: u8, place: u8, similar: u8) -> Result<(), Failed>
    requires unit { IsUnit (M.state unit.old) }
    requires place { place < places_of kind }
    ensures set { OnOk result (IfSome (M.state unit.old).image
        (λ x. IfSome (M.state unit.new).image (IsSet (table_of kind) place (similar_place kind) (similar ∷ []) x))) }
    ensures moments { LeavesOnly (M.state unit.old) (M.state unit.new)
        (OrUnwritten (IsSet (table_of kind) place (similar_place kind) (similar ∷ []))) }
    ensures settled { OnOk result ((M.state unit.new).clock < last_count → IsSettled (M.state unit.new)) }
    ensures cause { HasCause (M.state unit.old) (M.state unit.new) (is_err result) }
    ensures most { (M.state unit.new).clock ≤ (M.state unit.old).clock + 1 }
{
    let last = width_of(kind) as u32 - 1;
    table_of(kind).set_small(unit, place as u32, last, &[similar])
}

/// Notes the event of a type whose entry has this front.
///
/// # Errors
///
/// `Failed` where the unit failed; then the event may be there or not, or its place is empty.
pub fn note<M: Medium>(unit: &mut M, kind: u8, front: &[u8]) -> Result<(), Failed>
    requires unit { IsUnit (M.state unit.old) }
    requires front { length front.now ≡ front_size kind }
    requires begin { (held_in kind front.now).begin ≢ 0 }
    ensures noted { OnOk result (IfSome (M.state unit.old).image
        (λ x. IfSome (M.state unit.new).image (IsEventNoted kind front.now x))) }
    ensures moments { LeavesOnly (M.state unit.old) (M.state unit.new) (IsNotingEvent kind front.now) }
    ensures settled { OnOk result (StaysSettled (M.state unit.old) (M.state unit.new)) }
    ensures cause { HasCause (M.state unit.old) (M.state unit.new) (is_err result) }
    ensures most { (M.state unit.new).clock ≤ (M.state unit.old).clock + 4 }
{
    let choice = choose(unit, kind, front)?;
    match choice.place {
        Some(place) => put_entry(unit, kind, place, front, choice.similar),
        None => count_on_day(unit, kind, front, choice),
    }
}

/// Where an event takes no place, the event of its day, if one is held, counts it.
fn count_on_day<M: Medium>(
    unit: &mut M,
    kind: u8,
    front: &[u8],
    choice: Choice,
) -> Result<(), Failed>
    requires unit { IsUnit (M.state unit.old) }
    requires works { (M.state unit.old).works ≡ true }
    requires place { IfSome (M.state unit.old).image (λ x. None ≡ place_taken kind front.now x) }
    requires day { IfSome (M.state unit.old).image (λ x. choice.day ≡ place_of_day kind front.now x) }
    requires similar { IfSome (M.state unit.old).image (λ x. choice.similar ≡ similar_next kind x choice.day) }
    requires day_below { IfSome choice.day (λ i. i < places_of kind) }
    ensures noted { OnOk result (IfSome (M.state unit.old).image
        (λ x. IfSome (M.state unit.new).image (IsEventNoted kind front.now x))) }
    ensures moments { LeavesOnly (M.state unit.old) (M.state unit.new) (IsNotingEvent kind front.now) }
    ensures settled { OnOk result (StaysSettled (M.state unit.old) (M.state unit.new)) }
    ensures cause { HasCause (M.state unit.old) (M.state unit.new) (is_err result) }
    ensures most { (M.state unit.new).clock ≤ (M.state unit.old).clock + 1 }
{
    match choice.day {
        Some(day) => count_similar(unit, kind, day, choice.similar),
        None => Ok(()),
    }
}
