//! How the history of a run grows from second to second, and a book with it: laws.
ghost use Rattle.std.specs.Prelude.{◌≡◌, ◌⊎◌, ◌+◌, ◌<◌, ◌≤◌, ◌/◌, true, false, None, ℕ, ◌++◌, ◌∷◌, List, [], All};
ghost use Rattle.std.specs.Prelude.{length};
ghost use Rattle.log_model.specs.trace_model.Trace.{TraceSecond};
ghost use Rattle.log_model.specs.minute_model.declared.Rule.{Rule};
ghost use Rattle.log_model.specs.minute_model.declared.Minute.{Minute};
ghost use Rattle.log_model.specs.minute_model.Span.{fed};
ghost use Rattle.log_model.specs.Log.{RunLog};
ghost use Rattle.log_model.specs.Course.{ToldSecond, went, second_told};
ghost use Rattle.log_model.specs.Spans.{spans_of, end_in, AreInOrder, AreApart};
ghost use Rattle.history_model.specs.Minutes.{HistoryMinute};
ghost use Rattle.history_model.specs.Presence.{Start};
ghost use Rattle.history_model.specs.History.{decided_of, minutes_after, unit_history, with_lost};
ghost use Rattle.history_model.specs.Growth.{as_span, settled_where, picking, newest_span, earlier_spans, SameLimits};
ghost use Rattle.history_model.specs.Growth.{Rises, closed_history, EndsAtLimit};
ghost use Rattle.history_model.specs.Book.{Book, all, found, kept, broken, Follows, AreLost};

/// A second without power, or with which power begins, adds nothing to the history of a run whose seconds are numbered
/// from `n` on.
pub fn power_alone_adds_nothing(n: u32)
    ensures { (rule : Rule) (start : Start) (log : RunLog) (ss : List TraceSecond) (s : TraceSecond)
        → AreInOrder n (ss ++ s ∷ []) →
        let t : ToldSecond = second_told log (went log ss).before s in
        (t.lit ≡ false) ⊎ (t.starts ≡ true) →
        (unit_history rule start log (went log (ss ++ s ∷ [])).told ≡ unit_history rule start log (went log ss).told)
        × (with_lost rule start log (went log (ss ++ s ∷ [])).told ≡ with_lost rule start log (went log ss).told) }
{}

/// The newest span with one second more is, for the rules of minutes, that span with its settling, its selections and
/// its speed.
pub fn rules_see_the_span(n: u32)
    ensures { (rule : Rule) (start : Start) (log : RunLog) (ss : List TraceSecond) (s : TraceSecond)
        → AreInOrder n (ss ++ s ∷ []) →
        let t : ToldSecond = second_told log (went log ss).before s in
        let span : List ToldSecond = newest_span (spans_of (went log ss).told) in
        t.lit ≡ true → t.starts ≡ false → as_span rule (span ++ t ∷ [])
        ≡ fed (picking t.second.picks (settled_where t.course.settled (as_span rule span))) t.second.speed }
{}

/// From the third second of a span on, a second adds to the history the minutes that it decides.
pub fn a_second_adds_what_it_decides(n: u32)
    ensures { (rule : Rule) (start : Start) (log : RunLog) (ss : List TraceSecond) (s : TraceSecond)
        → AreInOrder n (ss ++ s ∷ []) →
        let t : ToldSecond = second_told log (went log ss).before s in
        let span : List ToldSecond = newest_span (spans_of (went log ss).told) in
        let before : List HistoryMinute = unit_history rule start log (went log ss).told in
        t.lit ≡ true → t.starts ≡ false → 1 < length span →
        (new : List Minute) × (decided_of rule (span ++ t ∷ []) ≡ decided_of rule span ++ new)
        × (unit_history rule start log (went log (ss ++ s ∷ [])).told
        ≡ before ++ minutes_after start (went log (ss ++ s ∷ [])).told before new)
        × (with_lost rule start log (went log (ss ++ s ∷ [])).told ≡ with_lost rule start log (went log ss).told) }
{}

/// In the second second of a span the limit of the cut before it begins to count, and a book follows in which that
/// minute was found; its minutes are the history of the spans before.
pub fn a_limit_counts_from_the_second_second(n: u32)
    ensures { (rule : Rule) (start : Start) (log : RunLog) (ss : List TraceSecond) (s : TraceSecond)
        → AreInOrder n (ss ++ s ∷ []) →
        let t : ToldSecond = second_told log (went log ss).before s in
        let told : List ToldSecond = (went log ss).told in
        let later : List ToldSecond = (went log (ss ++ s ∷ [])).told in
        t.lit ≡ true → t.starts ≡ false → length (newest_span (spans_of told)) ≡ 1 →
        (k : ℕ) (limit : EndsAtLimit log k (earlier_spans (spans_of told))) (b : Book) →
        Follows (unit_history rule start log told) (with_lost rule start log told) b
        → AreLost (with_lost rule start log told) b →
        All (λ i. i.minute ≤ k) b.sure → All (λ i. i.minute ≤ k) (closed_history rule start log told limit.before) →
        ((rest : List HistoryMinute) → unit_history rule start log told ≡ all b ++ rest → All (λ i. k < i.minute) rest)
        →
        (Follows (unit_history rule start log later) (with_lost rule start log later) (found k b)
        × AreLost (with_lost rule start log later) (found k b))
        × (closed_history rule start log told (earlier_spans (spans_of told)) ≡ all (found k b)) }
{}

/// The history of the spans before the newest stays as seconds come.
pub fn a_closed_history_stays(n: u32)
    ensures { (rule : Rule) (start : Start) (log : RunLog) (ss : List TraceSecond) (s : TraceSecond)
        → AreInOrder n (ss ++ s ∷ []) →
        let earlier : List (List ToldSecond) = earlier_spans (spans_of (went log ss).told) in
        closed_history rule start log (went log (ss ++ s ∷ [])).told earlier
        ≡ closed_history rule start log (went log ss).told earlier }
{}

/// What the log tells later of cuts that have no limit yet changes nothing.
pub fn a_limit_may_be_told_later()
    ensures { (rule : Rule) (start : Start) (log later : RunLog) (told : List ToldSecond)
        → SameLimits log later (spans_of told) →
        (unit_history rule start later told ≡ unit_history rule start log told)
        × (with_lost rule start later told ≡ with_lost rule start log told) }
{}

/// The minutes of the history rise, and have ended.
pub fn minutes_rise(n: u32)
    ensures { (rule : Rule) (start : Start) (log : RunLog) (ss : List TraceSecond) → AreInOrder n ss →
        Rises (n / 60) (unit_history rule start log (went log ss).told) ((n + length ss) / 60) }
{}

/// A book in which the next minute of the history is kept, or broken off, follows it; and so does one in which a minute
/// is found at the next power-on that no sure one is later than.
pub fn a_book_follows(k: u32)
    ensures kept { (past rest : List HistoryMinute) (lost : List (List HistoryMinute)) (b : Book) (i : HistoryMinute) →
        b.maybe ≡ None → past ≡ all b ++ i ∷ rest → Follows past lost b →
        Follows past lost (kept i b) × Follows past lost (broken i b) }
    ensures found { (past : List HistoryMinute) (lost : List (List HistoryMinute)) (b : Book) →
        All (λ i. i.minute ≤ k) b.sure → Follows past lost b → Follows past lost (found k b) }
{}
