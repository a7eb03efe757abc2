//! Which place an event takes among the held ones of its type (Annex IB, section III.12; the order of equals: profile).
ghost use Rattle.std.specs.Prelude.{◌≡◌, ◌+◌, ◌/◌, ◌≤◌, ◌<◌, Option, Some, None, IfSome, nat_le, position, length};
ghost use Rattle.event_model.specs.Kinds as spec;
ghost use Rattle.event_model.specs.Kinds.{is_by_day};
ghost use Rattle.event_model.specs.Places as places;
ghost use Rattle.event_model.specs.Places.{is_of_day, measure, earliest, recent_place, where_later, place_of};
ghost use Rattle.std.specs.List.{list_all};

use activity_codec::DAY_SECONDS;
use event_model::{
    DRIVING_WITHOUT_CARD, Held, INSERTION_WHILE_DRIVING, OVER_SPEEDING, POWER_INTERRUPTION, Purpose,
};

/// How events of a type are kept.
pub fn purpose_of(kind: u8) -> Purpose
    ensures { result ≡ spec.purpose_of kind }
{
    match kind {
        DRIVING_WITHOUT_CARD | POWER_INTERRUPTION => Purpose::Longest,
        INSERTION_WHILE_DRIVING => Purpose::Last,
        OVER_SPEEDING => Purpose::HighestAverage,
        _ => Purpose::MostRecent,
    }
}

/// The place that an event takes among the held ones of its type, at most 255; `None` where it is not kept.
///
/// Of types that keep one event a day: the place of the event of its day where that measures less, and none where it
/// does not. Else an empty place, else that of the earliest begin, where the event begins later; of equals the lowest.
pub fn place_for(kind: u8, held: &[Held], event: &Held) -> Option<u8>
    requires { length held.now ≤ 255 }
    ensures { result ≡ place_of kind held.now event.now }
{
    let Some(place) = day_place(kind, held, event) else {
        return recent(held, event);
    };
    let purpose = purpose_of(kind);
    if measured(purpose, &held[place as usize]) < measured(purpose, event) {
        Some(place)
    } else {
        None
    }
}

/// The place of the event of the same day, where a type keeps one a day and has one: it counts the event as similar,
/// whether the event takes its place or not.
pub fn day_place(kind: u8, held: &[Held], event: &Held) -> Option<u8>
    requires { length held.now ≤ 255 }
    ensures place { result ≡ places.day_place kind held.now event.now }
    ensures there { IfSome result (λ place. place < length held.now) }
{
    if !keeps_by_day(purpose_of(kind)) {
        return None;
    }
    match place_on(held, event.begin / DAY_SECONDS) {
        None => None,
        Some(place) => Some(place as u8),
    }
}

/// The place of the event that began on a day.
fn place_on(held: &[Held], day: u32) -> Option<usize>
    ensures place { result ≡ position (is_of_day day) held.now }
    ensures there { IfSome result (λ place. place < length held.now) }
{
    held.iter().position(|h| began_on(h, day))
}

/// The number of similar events once one more came, where an event of its day was held with this number: at most 255.
pub fn similar_after(held: Option<u8>) -> u8
    ensures { result ≡ places.similar_after held }
{
    match held {
        None => 1,
        Some(similar) => similar.saturating_add(1),
    }
}

/// The place of the earliest begin, where the event begins later.
fn recent(held: &[Held], event: &Held) -> Option<u8>
    requires { length held.now ≤ 255 }
    ensures { result ≡ recent_place held.now event.now }
{
    match earliest_place(held) {
        None => None,
        Some(place) => later_place(place, held, event),
    }
}

/// The place of the earliest begin; an empty place is the earliest.
fn earliest_place(held: &[Held]) -> Option<usize>
    ensures place { result ≡ earliest (λ h. h.begin) held.now }
    ensures there { IfSome result (λ place. place < length held.now) }
{
    held.iter().position(|h| is_earliest(h, held))
}

/// This place, where the event there begins earlier.
fn later_place(place: usize, held: &[Held], event: &Held) -> Option<u8>
    requires place { place < length held.now }
    requires most { length held.now ≤ 255 }
    ensures { result ≡ where_later held.now event.now (Some place) }
{
    if held[place].begin < event.begin {
        Some(place as u8)
    } else {
        None
    }
}

/// Whether no held event begins earlier.
fn is_earliest(one: &Held, held: &[Held]) -> bool
    ensures { result ≡ list_all (λ h. nat_le one.now.begin h.begin) held.now }
{
    held.iter().all(|h| one.begin <= h.begin)
}

/// Whether an event stands there that began on this day.
fn began_on(held: &Held, day: u32) -> bool
    ensures { result ≡ is_of_day day held.now }
{
    held.begin != 0 && held.begin / DAY_SECONDS == day
}

/// By what the events of a day are measured.
fn measured(purpose: Purpose, event: &Held) -> u32
    ensures { result ≡ measure purpose event.now }
{
    match purpose {
        Purpose::Longest => event.end.saturating_sub(event.begin),
        Purpose::HighestAverage => event.weight as u32,
        Purpose::Last | Purpose::MostRecent => event.begin,
    }
}

/// Whether one event a day is kept.
fn keeps_by_day(purpose: Purpose) -> bool
    ensures { result ≡ is_by_day purpose }
{
    purpose != Purpose::MostRecent
}
