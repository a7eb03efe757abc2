//! Laws on the definitions of specs/: they run nothing, and their contracts say what is proved of them.
ghost use Rattle.std.specs.Prelude.{◌≡◌, ◌≢◌, ℕ, ◌<◌, ◌^◌, List, length};
ghost use Rattle.trace_model.specs.declared.Card.{Card};
ghost use Rattle.tacho_types.specs.CardNumber.{card_number_bytes};
ghost use Rattle.tacho_types.specs.declared.card_number.FullCardNumber.{FullCardNumber};
ghost use Rattle.tacho_types.specs.declared.places.PlaceEntry.{PlaceEntry};
ghost use Rattle.event_model.specs.declared.entries.Over.{Over};
ghost use Rattle.event_model.specs.declared.kinds.TheConstants.{OVER_SPEEDING};
ghost use Rattle.event_model.specs.Places.{noted};
ghost use Rattle.event_model.specs.Events.{Event};
ghost use Rattle.note_model.specs.Tables.{table_in, held_in, IsNoted};
ghost use Rattle.unit_model.specs.declared.layout.TheConstants.{IMAGE_SIZE};
ghost use Rattle.unit_notes.specs.declared.insertion.Insertion.{Insertion};
ghost use Rattle.unit_notes.specs.declared.unit_event.UnitEvent.{UnitEvent};
ghost use Rattle.unit_notes.specs.Entries.{insertion_bytes, unit_place_bytes, fault_bytes, over_bytes};
ghost use Rattle.unit_notes.specs.Fields.{InsertionFits, TellsInsertion, TellsPlace, IsEventOf, IsOverOf, IsFrontOf};
ghost use Rattle.unit_notes.specs.Noting.{IsEventNoted};
ghost use Rattle.unit_notes.specs.Tables.{front_size, held_table};

/// The entry of an insertion tells it, field by field.
pub fn an_entry_tells_its_insertion()
    ensures { (v : Insertion) → InsertionFits v → TellsInsertion v (insertion_bytes v) }
{}

/// The entry of a place tells it, with the card's number.
pub fn an_entry_tells_its_place()
    ensures { (number : FullCardNumber) (v : PlaceEntry) → length (card_number_bytes number) ≡ 18 → v.time.0 < 2 ^ 32
        → v.odometer.0 < 2 ^ 24 → TellsPlace number v (unit_place_bytes number v) }
{}

/// What is noted of an event or a fault of a run tells it: all types but over speeding.
pub fn a_front_tells_its_event()
    ensures { (number : Card → List ℕ) (e : Event) (v : UnitEvent) → ((card : Card) → length (number card) ≡ 18)
        → e.kind ≢ OVER_SPEEDING → e.begin < 2 ^ 32 → e.end < 2 ^ 32 → IsEventOf number e v
        → IsFrontOf number e (fault_bytes v) }
{}

/// And of an over speeding.
pub fn a_front_tells_its_over_speeding()
    ensures { (number : Card → List ℕ) (e : Event) (over : Over) (driver : FullCardNumber)
        → ((card : Card) → length (number card) ≡ 18) → e.begin < 2 ^ 32 → e.end < 2 ^ 32
        → IsOverOf number e over driver → IsFrontOf number e (over_bytes over driver) }
{}

/// After the noting of an event of a run the places of its type hold it as the run is to leave it there.
pub fn the_places_of_its_type_have_it_noted()
    ensures { (number : Card → List ℕ) (e : Event) (front x y : List ℕ) → length x ≡ IMAGE_SIZE
        → IsFrontOf number e front → IsEventNoted e.kind front x y
        → IsNoted number (table_in e.kind x) e (table_in e.kind y) }
{}

/// The events that a unit holds of a type after a note are those that were held, with this one noted.
pub fn the_held_events_are_those_noted()
    ensures { (kind : ℕ) (front x y : List ℕ) → length x ≡ IMAGE_SIZE → length front ≡ front_size kind
        → IsEventNoted kind front x y → held_table kind y ≡ noted kind (held_table kind x) (held_in kind front) }
{}
