//! The course of a run goes on second by second, and its spans are numbered: laws.
ghost use Rattle.std.specs.Prelude.{◌≡◌, ◌+◌, ℕ, ◌++◌, ◌∷◌, List, [], All, length};
ghost use Rattle.trace_model.specs.declared.Item.{Item};
ghost use Rattle.trace_model.specs.Trace.{TraceSecond, seconds_of};
ghost use Rattle.log_model.specs.Log.{RunLog};
ghost use Rattle.log_model.specs.Course.{went, went_on};
ghost use Rattle.log_model.specs.Same.{SameAt};
ghost use Rattle.log_model.specs.Spans.{spans_of, AreInOrder, AreApart};

/// One second more is one step more.
pub fn goes_on_by_seconds()
    ensures { (log : RunLog) (ss : List TraceSecond) (s : TraceSecond)
        → went log (ss ++ s ∷ []) ≡ went_on log (went log ss) s }
{}

/// Logs that tell the same of each second give the same course: lines that come later change no earlier second.
pub fn later_lines_change_nothing()
    ensures { (log later : RunLog) (ss : List TraceSecond) → All (λ s. SameAt log later s.number) ss
        → went later ss ≡ went log ss }
{}

/// The spans of a run, whose seconds are numbered from `n` on: each is numbered, and begins no earlier than the one
/// before it ends.
pub fn spans_are_numbered(n: u32)
    ensures { (log : RunLog) (ss : List TraceSecond) → AreInOrder n ss
        → AreApart n (spans_of (went log ss).told) (n + length ss) }
{}

/// The seconds of a trace are numbered one after another, from its first on.
pub fn trace_is_numbered(start: u32)
    ensures { (items : List Item) → AreInOrder start (seconds_of start items) }
{}
