//! The seconds that are looked at here are those of the run: a law.
ghost use Rattle.std.specs.Prelude.{◌≡◌, List, map};
ghost use Rattle.event_model.specs.trace_model.Trace.{TraceSecond};
ghost use Rattle.history_model.specs.log_model.Log.{RunLog};
ghost use Rattle.history_model.specs.log_model.Course.{went};
ghost use Rattle.note_model.specs.Done.{done_of};

/// The seconds of a run that are looked at here went as its course tells them.
pub fn seconds_are_those_of_the_course()
    ensures { (log : RunLog) (ss : List TraceSecond) → map (λ d. d.told) (done_of log ss) ≡ (went log ss).told }
{}
