//! How the run of a unit without cards goes on, turn by turn: laws.
ghost use Rattle.std.specs.Prelude.{◌≡◌, ◌+◌, ◌-◌, ◌/◌, ◌%◌, ◌<◌, ◌≤◌, suc, true, false, ℕ, Option, ◌++◌, ◌∷◌, List};
ghost use Rattle.std.specs.Prelude.{[], All, length, option_to_list, option_map};
ghost use Rattle.std.specs.List.{AllByRecursion};
ghost use Rattle.run_model.specs.Span.{picks_of};
ghost use Rattle.trace_model.specs.declared.Action.{Action};
ghost use Rattle.trace_model.specs.Trace.{TraceSecond, driven, dark};
ghost use Rattle.minute_model.specs.declared.Rule.{Rule};
ghost use Rattle.minute_model.specs.declared.Minute.{Minute};
ghost use Rattle.minute_model.specs.Span.{fed_many, decided_in};
ghost use Rattle.log_model.specs.declared.lines.Refused.{Refused};
ghost use Rattle.log_model.specs.Log.{RunLog};
ghost use Rattle.log_model.specs.Course.{ToldSecond, went};
ghost use Rattle.history_model.specs.Presence.{Start};
ghost use Rattle.history_model.specs.History.{unit_history, with_lost};
ghost use Rattle.history_model.specs.Growth.{picking};
ghost use Rattle.history_model.specs.Book.{all, found, not_begun, Follows, IsMark};
ghost use Rattle.run_unit_course.specs.Turn.{IsSelection, lit_second, lit_seconds, dark_seconds, cut_last, span_at};
ghost use Rattle.run_unit_course.specs.Turn.{begins_with, actions_of_last};
ghost use Rattle.run_unit_course.specs.Lines.{log_of, cut_at, found_from};
ghost use Rattle.run_unit_course.specs.Keeping.{plain, kept_all, broken_at};
ghost use Rattle.run_unit_course.specs.Followed.{Progress, Lit, Due, Lost, BookFollowsUnitRun, MayPower, MayFail};
ghost use Rattle.run_unit_course.specs.Followed.{IsDark, going_before, lost_before};

/// A run begins with nothing kept, and the power comes with the first second that the trace gives it.
pub fn a_run_begins()
    ensures { (rule : Rule) (start : Start) (from first : ℕ) → first < from / 60 →
        BookFollowsUnitRun rule start from first []
        (record { breaks = []; unfound = 0; next = from; begun = 0; supply = Due; book = not_begun; waiting = [] }) }
{}

/// What is followed of a run: its book follows the history, whatever actions were refused.
pub fn a_followed_book_follows()
    ensures { (rule : Rule) (start : Start) (from first : ℕ) (done : List TraceSecond) (p : Progress)
        → BookFollowsUnitRun rule start from first done p → (refused : List Refused) →
        let log : RunLog = record { breaks = p.breaks; refused = refused; finds = [] } in
        Follows (unit_history rule start log (went log done).told) (with_lost rule start log (went log done).told)
        p.book }
{}

/// Power is back: the last-kept minute is found, and it counts for all cuts of which nothing was known.
pub fn a_power_on_finds()
    ensures { (rule : Rule) (start : Start) (from first : ℕ) (done : List TraceSecond) (p : Progress)
        → BookFollowsUnitRun rule start from first done p → MayPower p.supply p.next → (k : ℕ) →
        IsMark first (all p.book) k → All (λ i. i.minute ≤ k) p.book.sure →
        BookFollowsUnitRun rule start from first done (record {
          breaks = found_from p.unfound k p.breaks;
          unfound = length (found_from p.unfound k p.breaks);
          next = p.next;
          begun = p.begun;
          supply = Lit [];
          book = found k p.book;
          waiting = [];
        }) }
{}

/// A power-on fails in the first of these seconds of a minute: none of its actions is carried out, and the others are
/// dark.
pub fn a_power_on_fails()
    ensures told { (rule : Rule) (start : Start) (from first : ℕ) (done : List TraceSecond) (p : Progress)
        → BookFollowsUnitRun rule start from first done p → MayFail p.supply p.next
        → (n speed : ℕ) (actions : List Action) →
        p.next % 60 + suc n ≤ 60 → AllByRecursion IsSelection actions →
        went (log_of (p.breaks ++ cut_at p.next true 0 ∷ [])) (done ++ driven (suc n) p.next speed actions)
        ≡ record {
          told = (went (log_of p.breaks) done).told ++ lit_second p.next speed [] true true
              ∷ dark_seconds n (p.next + 1) speed true [];
          before = lost_before;
        } }
    ensures followed { (rule : Rule) (start : Start) (from first : ℕ) (done : List TraceSecond) (p : Progress)
        → BookFollowsUnitRun rule start from first done p → MayFail p.supply p.next
        → (n speed : ℕ) (actions : List Action) (begun : ℕ) →
        p.next % 60 + suc n ≤ 60 → AllByRecursion IsSelection actions →
        BookFollowsUnitRun rule start from first (done ++ driven (suc n) p.next speed actions) (record {
          breaks = p.breaks ++ cut_at p.next true 0 ∷ [];
          unfound = p.unfound;
          next = p.next + suc n;
          begun = begun;
          supply = Lost;
          book = p.book;
          waiting = [];
        }) }
{}

/// A turn of seconds with power: for the rules of minutes the span goes on by them, and where all minutes that they
/// decide are kept, the book follows.
pub fn a_turn_goes_on()
    ensures told { (rule : Rule) (start : Start) (from first : ℕ) (done : List TraceSecond) (p : Progress)
        → BookFollowsUnitRun rule start from first done p → (span : List ToldSecond) → p.supply ≡ Lit span →
        (n speed : ℕ) (actions : List Action) → AllByRecursion IsSelection actions →
        went (log_of p.breaks) (done ++ driven (suc n) p.next speed actions)
        ≡ record {
          told = (went (log_of p.breaks) done).told
              ++ lit_seconds (suc n) p.next speed (picks_of actions) (begins_with span);
          before = going_before;
        } }
    ensures seen { (rule : Rule) (start : Start) (from first : ℕ) (done : List TraceSecond) (p : Progress)
        → BookFollowsUnitRun rule start from first done p → (span : List ToldSecond) → p.supply ≡ Lit span →
        (n speed : ℕ) (actions : List Action) →
        span_at rule (p.next + suc n) (span ++ lit_seconds (suc n) p.next speed (picks_of actions) (begins_with span))
        ≡ fed_many (picking (picks_of actions) (span_at rule p.next span)) speed (suc n) }
    ensures followed { (rule : Rule) (start : Start) (from first : ℕ) (done : List TraceSecond) (p : Progress)
        → BookFollowsUnitRun rule start from first done p → (span : List ToldSecond) → p.supply ≡ Lit span
        → p.waiting ≡ [] →
        (n speed : ℕ) (actions : List Action) (new : List Minute) → AllByRecursion IsSelection actions →
        decided_in (fed_many (picking (picks_of actions) (span_at rule p.next span)) speed (suc n))
        ≡ decided_in (span_at rule p.next span) ++ new →
        BookFollowsUnitRun rule start from first (done ++ driven (suc n) p.next speed actions) (record {
          breaks = p.breaks;
          unfound = p.unfound;
          next = p.next + suc n;
          begun = length (actions_of_last (suc n) actions);
          supply = Lit (span ++ lit_seconds (suc n) p.next speed (picks_of actions) (begins_with span));
          book = kept_all new p.book;
          waiting = [];
        }) }
{}

/// A turn in whose last second a call fails: some of the minutes that it decides are kept, one more may be, or none was
/// begun.
pub fn a_turn_breaks_off()
    ensures { (rule : Rule) (start : Start) (from first : ℕ) (done : List TraceSecond) (p : Progress)
        → BookFollowsUnitRun rule start from first done p → (span : List ToldSecond) → p.supply ≡ Lit span
        → p.waiting ≡ [] →
        (n speed : ℕ) (actions : List Action) (new : List Minute) → AllByRecursion IsSelection actions →
        decided_in (fed_many (picking (picks_of actions) (span_at rule p.next span)) speed (suc n))
        ≡ decided_in (span_at rule p.next span) ++ new →
        (front : List Minute) (d : Option Minute) (rest : List Minute) → new ≡ front ++ (option_to_list d ++ rest) →
        BookFollowsUnitRun rule start from first (done ++ driven (suc n) p.next speed actions) (record {
          breaks = p.breaks ++ cut_at (p.next + suc n - 1) true (length (actions_of_last (suc n) actions)) ∷ [];
          unfound = p.unfound;
          next = p.next + suc n;
          begun = length (actions_of_last (suc n) actions);
          supply = Lost;
          book = broken_at (option_map {T = Minute} plain d) (kept_all front p.book);
          waiting = [];
        }) }
{}

/// After a failed call the seconds up to the minute's end are dark.
pub fn a_minute_stays_dark()
    ensures told { (rule : Rule) (start : Start) (from first : ℕ) (done : List TraceSecond) (p : Progress)
        → BookFollowsUnitRun rule start from first done p → p.supply ≡ Lost → (n speed : ℕ) (actions : List Action) →
        0 < p.next % 60 → p.next % 60 + n ≤ 60 →
        went (log_of p.breaks) (done ++ driven n p.next speed actions)
        ≡ record {
          told = (went (log_of p.breaks) done).told
              ++ dark_seconds n p.next speed true actions;
          before = lost_before;
        } }
    ensures followed { (rule : Rule) (start : Start) (from first : ℕ) (done : List TraceSecond) (p : Progress)
        → BookFollowsUnitRun rule start from first done p → p.supply ≡ Lost
        → (n speed : ℕ) (actions : List Action) (begun : ℕ) →
        0 < p.next % 60 → p.next % 60 + n ≤ 60 →
        BookFollowsUnitRun rule start from first (done ++ driven n p.next speed actions) (record {
          breaks = p.breaks;
          unfound = p.unfound;
          next = p.next + n;
          begun = begun;
          supply = Lost;
          book = p.book;
          waiting = [];
        }) }
{}

/// An `off` line of a second at least: while there is no power, and while there is, when the last second turns out to
/// be a cut's.
pub fn an_off_line_is_dark()
    ensures dark { (rule : Rule) (start : Start) (from first : ℕ) (done : List TraceSecond) (p : Progress)
        → BookFollowsUnitRun rule start from first done p → IsDark p.supply → (n : ℕ) →
        BookFollowsUnitRun rule start from first (done ++ dark (suc n) p.next) (record {
          breaks = p.breaks;
          unfound = p.unfound;
          next = p.next + suc n;
          begun = 0;
          supply = Due;
          book = p.book;
          waiting = [];
        }) }
    ensures cut { (rule : Rule) (start : Start) (from first : ℕ) (done : List TraceSecond) (p : Progress)
        → BookFollowsUnitRun rule start from first done p → (t : ToldSecond) (span : List ToldSecond)
        → p.supply ≡ Lit (t ∷ span) → p.waiting ≡ [] → (n : ℕ) →
        BookFollowsUnitRun rule start from first (done ++ dark (suc n) p.next) (record {
          breaks = p.breaks ++ cut_at (p.next - 1) false p.begun ∷ [];
          unfound = p.unfound;
          next = p.next + suc n;
          begun = 0;
          supply = Due;
          book = p.book;
          waiting = [];
        }) }
{}
