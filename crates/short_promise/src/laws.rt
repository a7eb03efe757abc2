//! What a safe unit keeps, in short: a law.
ghost use Rattle.std.specs.Prelude.{ℕ, ◌/◌, ◌<◌, ◌≤◌, List, Contains};
ghost use Rattle.run_model.specs.declared.Device.TheVariants.{Unit as Recorder};
ghost use Rattle.trace_model.specs.Trace.{TraceSecond};
ghost use Rattle.minute_model.specs.declared.Rule.{Rule};
ghost use Rattle.log_model.specs.declared.lines.Mark.{Mark};
ghost use Rattle.log_model.specs.Log.{RunLog};
ghost use Rattle.log_model.specs.Course.{went};
ghost use Rattle.log_model.specs.Spans.{AreInOrder};
ghost use Rattle.history_model.specs.Presence.{Start};
ghost use Rattle.history_model.specs.History.{unit_history, with_lost};
ghost use Rattle.history_model.specs.Book.{IsMark};
ghost use Rattle.unit_model.specs.Image.{recorded, last_kept};
ghost use Rattle.unit_model.specs.Decoding.{Decodes};
ghost use Rattle.safety_model.specs.Unit.{UnitSafe, marks_of};
ghost use Rattle.short_promise.specs.InShort.{MissesNone, KeepsAlone};

use tach_media::Medium;

/// A unit that is safe, by the history of a run which began in a later minute than the last-kept one of its image then,
/// keeps the theorem in short: where the last-kept minute of each image is the start's or one that it shows, and none
/// since an acknowledgement has an earlier one. The unit is given as the run began, and as it is now.
pub fn a_unit_alone_keeps_in_short<U: Medium>(unit_then: &U, unit: &U)
    ensures { (image : List ℕ) (rule : Rule) (start : Start) (log : RunLog) (ss : List TraceSecond) (from : ℕ)
        (marks : List Mark) → Decodes image → last_kept image < from / 60 → AreInOrder from ss →
        (safe : UnitSafe (recorded image) (unit_history rule start log (went log ss).told)
        (with_lost rule start log (went log ss).told) marks (U.state unit_then.now).clock (U.state unit.now)) →
        ((x : List ℕ) (left : (U.state unit.now).left_since (U.state unit_then.now).clock x)
        → IsMark (last_kept image) (safe.minutes x left).some (last_kept x)) →
        ((m : Mark) → Contains (marks_of Recorder marks) m → (U.state unit_then.now).clock ≤ m.clock) →
        ((m : Mark) → Contains (marks_of Recorder marks) m → (x : List ℕ) → (U.state unit.now).left_since m.clock x
        → m.minute ≤ last_kept x) →
        MissesNone rule log (went log ss).told marks (U.state unit_then.now) (U.state unit.now) →
        KeepsAlone image (unit_history rule start log (went log ss).told) (with_lost rule start log (went log ss).told)
        rule log (went log ss).told marks (U.state unit_then.now) (U.state unit.now) }
{}
