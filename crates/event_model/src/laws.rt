//! Laws on the definitions of specs/: they run nothing, and their contracts say what is proved of them.
ghost use Rattle.std.specs.Prelude.{◌≡◌, ℕ, ◌<◌, ◌≤◌, true, false, List, [], ◌∷◌, ◌++◌, length, All};
ghost use Rattle.event_model.specs.declared.entries.Held.{Held};
ghost use Rattle.event_model.specs.Kinds.{purpose_of, is_by_day};
ghost use Rattle.event_model.specs.Places.{noted};
ghost use Rattle.event_model.specs.Kept.{stored, KeepsRecent, KeepsDays, all_noted};
ghost use Rattle.event_model.specs.Counted.{Counted, held_of, all_counted, CountsDays};

/// Of a type that keeps the most recent, one event more leaves the most recent of all that came, where they were that
/// before.
pub fn the_most_recent_are_kept()
    ensures { (kind : ℕ) (held all : List Held) (event : Held) → is_by_day (purpose_of kind) ≡ false → 0 < event.begin
        → KeepsRecent (length held) all (stored held)
        → KeepsRecent (length held) (all ++ event ∷ []) (stored (noted kind held event)) }
{}

/// Of a type that keeps one event a day, one event more leaves the best of each of the last days of all that came,
/// where they were that before.
pub fn the_best_of_the_last_days_are_kept()
    ensures { (kind : ℕ) (held all : List Held) (event : Held) → is_by_day (purpose_of kind) ≡ true → 0 < event.begin
        → KeepsDays (purpose_of kind) (length held) all (stored held)
        → KeepsDays (purpose_of kind) (length held) (all ++ event ∷ []) (stored (noted kind held event)) }
{}

/// And so do all events of a run, one after another: the most recent are kept of those that were held at its start
/// followed by those of the run,
pub fn the_most_recent_of_a_run_are_kept()
    ensures { (kind : ℕ) (held events : List Held) → is_by_day (purpose_of kind) ≡ false → All (λ e. 0 < e.begin) events
        → KeepsRecent (length held) (stored held) (stored held)
        → KeepsRecent (length held) (stored held ++ events) (stored (all_noted kind held events)) }
{}

/// or the best of each of the last days.
pub fn the_best_of_the_last_days_of_a_run_are_kept()
    ensures { (kind : ℕ) (held events : List Held) → is_by_day (purpose_of kind) ≡ true → All (λ e. 0 < e.begin) events
        → KeepsDays (purpose_of kind) (length held) (stored held) (stored held)
        → KeepsDays (purpose_of kind) (length held) (stored held ++ events) (stored (all_noted kind held events)) }
{}

/// Of a type that keeps one event a day, each held event counts the events of its day once those of a run were noted:
/// the number that was held of that day, and the events of the run on it, at most 255.
pub fn similar_events_of_a_day_are_counted()
    ensures counts { (kind : ℕ) (start : List Counted) (run : List Held) → is_by_day (purpose_of kind) ≡ true
        → All (λ e. 0 < e.begin) run → KeepsDays (purpose_of kind) (length start) (stored (held_of start))
        (stored (held_of start)) → All (λ c. c.similar ≤ 255) start
        → CountsDays start run (all_counted kind start run) }
    ensures held { (kind : ℕ) (start : List Counted) (run : List Held)
        → held_of (all_counted kind start run) ≡ all_noted kind (held_of start) run }
{}
