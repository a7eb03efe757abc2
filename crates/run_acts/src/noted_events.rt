//! What two calls note, one after another. A law.
ghost use Rattle.std.specs.Prelude.{ℕ, List, ◌++◌};
ghost use Rattle.trace_model.specs.declared.Card.{Card};
ghost use Rattle.unit_notes.specs.event_model.Events.{Event};
ghost use Rattle.unit_notes.specs.declared.unit_event.UnitEvent.{UnitEvent};
ghost use Rattle.run_acts.specs.NotedEvents.{AreTold, IsSplit};

/// Events of a run that two calls note are those of the first, and then those of the other.
pub fn what_two_calls_note_parts()
    ensures { (number : Card → List ℕ) (vs ws : List UnitEvent) (es : List Event) → AreTold number (vs ++ ws) es
        → IsSplit number vs ws es }
{}
