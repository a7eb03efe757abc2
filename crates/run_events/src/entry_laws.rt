//! The entry of an event tells that event: a law.
ghost use Rattle.std.specs.Prelude.{◌≡◌, ℕ, List};
ghost use Rattle.trace_model.specs.declared.Card.{Card};
ghost use Rattle.event_model.specs.Events.{Crew as Cards, Event};
ghost use Rattle.unit_notes.specs.Fields.{IsEventOf};
ghost use Rattle.run_crew.specs.declared.cards.Crew.{Crew};
ghost use Rattle.run_events.specs.Entries.{IsCrewOf, entry_of, event_of};

/// An entry tells the event of a run, where the numbers in it are those of the cards: `number` gives the number of
/// each.
pub fn an_entry_tells_its_event()
    ensures { (number : Card → List ℕ) (kind begin end : ℕ) (at_begin at_end : Cards) (first last : Crew)
        → IsCrewOf number at_begin first → IsCrewOf number at_end last
        → IsEventOf number (event_of kind begin end at_begin at_end) (entry_of kind begin end first last) }
{}
