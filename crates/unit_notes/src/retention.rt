//! Laws: what the places of a unit hold once the events of a run were noted.
ghost use Rattle.std.specs.Prelude.{◌≡◌, ℕ, ◌≤◌, false, Some, List, length, map, All};
ghost use Rattle.gated_ring.specs.Earliest.{IsEarliest};
ghost use Rattle.trace_model.specs.declared.Card.{Card};
ghost use Rattle.event_model.specs.declared.entries.Held.{Held};
ghost use Rattle.event_model.specs.Kinds.{purpose_of, is_by_day, places_of};
ghost use Rattle.event_model.specs.Places.{earliest, held_at, noted};
ghost use Rattle.event_model.specs.Kept.{all_noted};
ghost use Rattle.event_model.specs.Events.{Event};
ghost use Rattle.note_model.specs.Tables.{held_in, held_of, AreNoted};
ghost use Rattle.unit_notes.specs.Retention.{IsOfType, held_rows, counted_rows, IsStart, IsAfter};

/// Where the events of a run were noted one after another, the places of their type hold what is to be kept of the
/// events that they held at the start, followed by those of the run, with the numbers of similar events.
pub fn the_events_that_are_to_be_kept_are_held_after_a_run()
    ensures { (number : Card → List ℕ) (kind : ℕ) (events : List Event) (start rows : List (List ℕ))
        → All (IsOfType kind) events → IsStart kind start → AreNoted number start events rows
        → IsAfter kind start (map held_of events) rows }
{}

/// Which events these are is exact: each takes the place that event_model's `place_of` gives for what is held then.
pub fn the_events_of_a_run_take_their_places()
    ensures { (number : Card → List ℕ) (kind : ℕ) (events : List Event) (start rows : List (List ℕ))
        → All (IsOfType kind) events → AreNoted number start events rows
        → held_rows kind rows ≡ all_noted kind (held_rows kind start) (map held_of events) }
{}

/// Of a type that keeps the most recent, an event that begins no later than all held ones, in full places, is not kept:
/// of equal begins the held one stays.
pub fn an_event_that_begins_no_later_is_not_kept()
    ensures { (kind : ℕ) (held : List Held) (event : Held) → is_by_day (purpose_of kind) ≡ false
        → All (λ h. event.begin ≤ h.begin) held → noted kind held event ≡ held }
{}

/// Places that hold no event are a start.
pub fn empty_places_are_a_start()
    ensures { (kind : ℕ) (rows : List (List ℕ)) → length rows ≡ places_of kind
        → All (λ e. (held_in kind e).begin ≡ 0) rows → All (λ c. c.similar ≤ 255) (counted_rows kind rows)
        → IsStart kind rows }
{}

/// The place of the earliest held event, which event_model's `place_of` gives to one of a new day, is the first of
/// those with the least begin; an empty one has the begin 0. The place that each event takes on a card is told by the
/// same word.
pub fn the_earliest_place_is_the_first_of_the_least()
    ensures { (held : List Held) (i : ℕ) → earliest (λ h. h.begin) held ≡ Some i
        → IsEarliest (length held) (λ j. (held_at held j).begin) i }
{}
