//! What is noted as a card enters. Laws.
ghost use Rattle.std.specs.Prelude.{◌≡◌, ℕ, ◌^◌, ◌<◌, Some, List, ◌++◌, length};
ghost use Rattle.trace_model.specs.declared.Card.{Card};
ghost use Rattle.log_model.specs.Course.{Visit};
ghost use Rattle.log_model.specs.declared.lines.Verdict.TheVariants.{Accepted};
ghost use Rattle.unit_minutes.specs.unit_model.declared.layout.TheConstants.{IMAGE_SIZE};
ghost use Rattle.device_calls.specs.event_model.Events.{Event, Crew, Seen, Tearing, number_of, crew_judged};
ghost use Rattle.run_acts.specs.run_events.Shown.{by_kind, none_sure, all_sure, ShowsEvents, AreNumbers};
ghost use Rattle.run_acts.specs.run_events.Running.{judged_notes};
ghost use Rattle.run_acts.specs.run_crew.declared.cabin.Cabin.{Cabin};
ghost use Rattle.run_insertion.specs.declared.lines.Entering.{Entering};
ghost use Rattle.run_insertion.specs.Entering.{Ending};
ghost use Rattle.run_insertion.specs.Noted.{AreDone, AreBeingDone, UnitNote, IsOnUnit, IsComing, notes_by};
ghost use Rattle.recorder_with_cards.specs.EnteredTold.{TellEvents, moving_events, unclosed_events};
ghost use Rattle.recorder_with_cards.specs.EnteredTold.{events_by, IsLow, AreNamed};

/// Notes of the unit that tell these events show them more, once all are done; at a moment of them the first are noted,
/// and the next one is, or nothing has come of it, or its place is empty.
pub fn what_is_noted_of_a_card_is_shown()
    ensures done { (number : Card → List ℕ) → AreNumbers number
        → (notes : List UnitNote) (events : List Event) (x y : List ℕ)
        → length x ≡ IMAGE_SIZE → TellEvents number notes events →
        AreDone IsOnUnit notes x y → ShowsEvents number all_sure x (by_kind events) y }
    ensures moment { (number : Card → List ℕ) → AreNumbers number
        → (notes : List UnitNote) (events : List Event) (x c : List ℕ)
        → length x ≡ IMAGE_SIZE → TellEvents number notes events →
        AreBeingDone IsOnUnit IsComing notes x c → ShowsEvents number none_sure x (by_kind events) c }
{}

/// What the unit notes of a card that entered are these events, by what became of the card.
pub fn what_is_noted_of_a_card_are_its_events()
    ensures { (number : Card → List ℕ) (second : ℕ) → second < 2 ^ 32 → (e : Entering) → e.at.second ≡ second
        → (ending : Ending) (noted : ℕ) (cabin : Cabin) (before accepted left : Crew) → IsLow ending →
        AreNamed number ending e noted cabin before accepted left
        → TellEvents number (notes_by ending e noted cabin)
        (events_by ending e.speed e.at.second before accepted left) }
{}

/// An accepted card brings what the run says of it as it is judged: that the vehicle moved, and that its session was
/// not closed.
pub fn what_an_accepted_card_brings_is_what_is_judged()
    ensures { (session : ℕ) (t : Tearing) (x : Seen) (v : Visit) (replayed : ℕ) →
        moving_events x.told.second.speed (number_of x) (crew_judged t x v (Some v.card))
        ++ unclosed_events session (number_of x) (crew_judged t x v (Some v.card))
        ≡ judged_notes session t x v (Accepted replayed) }
{}
