//! What a card shows of the events of a run, second by second. A law.
ghost use Rattle.std.specs.Prelude.{◌≡◌, ℕ, true, List, [], ◌∷◌, ◌++◌};
ghost use Rattle.trace_model.specs.declared.Card.{Card};
ghost use Rattle.trace_model.specs.Trace.{TraceSecond};
ghost use Rattle.tacho_types.specs.declared.texts.Registration.{Registration};
ghost use Rattle.card_files.specs.declared.current_use.CurrentUse.{CurrentUse};
ghost use Rattle.hand_model.specs.card_image.Own.{own_sizes};
ghost use Rattle.log_model.specs.Log.{RunLog};
ghost use Rattle.unit_notes.specs.event_model.Events.{seen_of};
ghost use Rattle.run_events.specs.Seconds.{seen_next};
ghost use Rattle.run_insertion.specs.CardEvents.{events_in, all_noted};
ghost use Rattle.run_acts.specs.OnCards.{unclosed_by, accepted_in, accepted_on, events_on, is_sure_in, are_sure_on};
ghost use Rattle.run_acts.specs.OnCards.{met_seconds, met_next, bringing, ShowsOn, ComesTo, AreUses};

use tach_media::Chip;

/// At the start a card shows the events that it had; and where it shows those of the seconds so far, and a second
/// brings its own to it, by the uses that were found on it then, it shows those of all of them. Of a type that is sure
/// of each second it has those of the run, noted one after another.
pub fn a_second_is_shown_on_a_card<C: Chip, D: Chip>(before: &C, after: &D)
    ensures starts { (c : Card) (own : Registration) (start : List ℕ) (since : ℕ) (log : RunLog)
        → ((x : List ℕ) → (C.state before.now).may_leave x → x ≡ start)
        → ShowsOn c own ((C.state before.now).left_since since) [] start log [] (C.state before.now) }
    ensures goes_on { (c : Card) (own : Registration) (start : List ℕ) (since : ℕ) (log : RunLog)
        (done : List TraceSecond) (s : TraceSecond) (uses more : List CurrentUse)
        → ((x : List ℕ) → (C.state before.now).left_since since x → (D.state after.now).left_since since x)
        → AreUses ((C.state before.now).left_since since) uses (accepted_on c (seen_of log done))
        → ShowsOn c own ((C.state before.now).left_since since) uses start log (met_seconds log done)
        (C.state before.now)
        → ComesTo ((D.state after.now).left_since since) (own_sizes start)
        (λ kind. is_sure_in c kind log (seen_next log done s))
        (bringing c own (met_next log done s) (unclosed_by more (accepted_in c (seen_next log done s))))
        (C.state before.now) (D.state after.now)
        → ShowsOn c own ((D.state after.now).left_since since) (uses ++ more) start log
        (met_seconds log (done ++ s ∷ [])) (D.state after.now) }
    ensures sure { (c : Card) (own : Registration) (start : List ℕ) (since : ℕ) (uses : List CurrentUse) (log : RunLog)
        (done : List TraceSecond) → ShowsOn c own ((C.state before.now).left_since since) uses start log
        (met_seconds log done) (C.state before.now)
        → (x : List ℕ) → (C.state before.now).may_leave x → (kind : ℕ)
        → are_sure_on c kind log (seen_of log done) ≡ true
        → events_in (own_sizes start) kind x
        ≡ all_noted (events_in (own_sizes start) kind start) (events_on c own uses kind log done) }
{}
