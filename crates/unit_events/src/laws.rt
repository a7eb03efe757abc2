//! A law on the definitions of specs/: it runs nothing, and its contract says what is proved of them.
ghost use Rattle.std.specs.Prelude.{◌≡◌, ℕ, List};
ghost use Rattle.trace_model.specs.Trace.{TraceSecond};
ghost use Rattle.log_model.specs.Log.{RunLog};
ghost use Rattle.log_model.specs.Course.{Visit, went};
ghost use Rattle.log_model.specs.Spans.{spans_of};
ghost use Rattle.event_model.specs.Events.{Tearing, events_of};
ghost use Rattle.unit_events.specs.Plain.{plain_events, IsWithoutCards, OnlySelect};

/// Where no card bears on a run, its events are those that its power spans tell by themselves: runs of moving seconds,
/// runs above the limit, and what was found kept between two spans.
pub fn the_events_of_a_run_without_cards()
    ensures { (log : RunLog) → IsWithoutCards log → (ss : List TraceSecond) → OnlySelect ss
        → (kind limit : ℕ) (sessions : ℕ → Visit → ℕ) (t : Tearing) →
        events_of kind limit sessions t log ss ≡ plain_events kind limit log (spans_of (went log ss).told) }
{}
