//! Laws on the definitions of specs/: they run nothing, and their contracts say what is proved of them.
ghost use Rattle.std.specs.Prelude.{◌≡◌, ◌⊎◌, ◌+◌, ◌<◌, ◌++◌, ◌∷◌, [], min, map, Option, Some, None, ℕ, List};
ghost use Rattle.unit_minutes.specs.unit_model.declared.layout.TheConstants.{HIGHEST_ODOMETER};
ghost use Rattle.run_unit_course.specs.run_model.declared.Device.TheVariants.{Unit as Recorder};
ghost use Rattle.unit_minutes.specs.unit_model.Days.{newest_days};
ghost use Rattle.unit_minutes.specs.unit_model.Decoding.{Decodes};
ghost use Rattle.unit_minutes.specs.unit_model.Image.{last_kept, odometer_at, recorded};
ghost use Rattle.run_unit_course.specs.minute_model.declared.Rule.{Rule};
ghost use Rattle.run_unit_course.specs.log_model.Log.{RunLog};
ghost use Rattle.run_unit_course.specs.log_model.Course.{ToldSecond};
ghost use Rattle.run_unit_course.specs.log_model.Spans.{spans_of};
ghost use Rattle.run_unit_course.specs.log_model.declared.lines.Mark.{Mark};
ghost use Rattle.run_unit_course.specs.history_model.Minutes.{HistoryMinute};
ghost use Rattle.run_unit_course.specs.history_model.Book.{Book, Follows, AreLost, not_begun};
ghost use Rattle.run_unit_course.specs.history_model.History.{limit_of};
ghost use Rattle.safety_model.specs.device_rule.Filling.{filled_with};
ghost use Rattle.safety_model.specs.Unit.{UnitSafe, marks_of};
ghost use Rattle.unit_rule.specs.Rule.{Started, started};
ghost use Rattle.unit_rule.specs.Marks.{UnitFollowsBook};
ghost use Rattle.unit_rule.specs.Complete.{AreMarksOf};
ghost use Rattle.run_unit_course.specs.Legs.{Travel, kilometres_of, AreWhole, whole_legs};
ghost use Rattle.unit_rule.specs.Odometer.{HasTravelled, OdometerSafe};

use tach_media::Medium;

/// Where the unit holds what a book says, and the book follows the history of the run, the unit is safe: each image
/// that a stop might have left shows the start and a front of the history, retained, and decodes, and each mark is
/// kept.
pub fn a_followed_run_is_safe<M: Medium>(unit: &M)
    ensures { (s : Started) (past : List HistoryMinute) (lost : List (List HistoryMinute)) (due : ℕ) (b : Book)
        (marks : List Mark) →
        UnitFollowsBook s due b marks (M.state unit.now) → Follows past lost b
        → UnitSafe s.days past lost marks s.began (M.state unit.now) }
{}

/// An image that a read gives decodes, and its last-kept minute is earlier than any that may be decided next.
pub fn what_is_found_decodes<M: Medium>(unit: &M)
    ensures decodes { (s : Started) (due : ℕ) (b : Book) (marks : List Mark)
        → UnitFollowsBook s due b marks (M.state unit.now) → (x : List ℕ) → (M.state unit.now).image ≡ Some x
        → Decodes x }
    ensures earlier { (s : Started) (due : ℕ) (b : Book) (marks : List Mark)
        → UnitFollowsBook s due b marks (M.state unit.now) → (x : List ℕ) → (M.state unit.now).image ≡ Some x
        → last_kept x < due }
{}

/// The odometer of an image that a stop may leave is the start's and the whole kilometres of each time that there was
/// power, up to the last-kept minute or to the one of which the keeping was broken off.
pub fn an_odometer_is_a_sum<M: Medium>(unit: &M)
    ensures { (start : ℕ) (b : Book) (g : Travel) → HasTravelled start b g (M.state unit.now) → (x : List ℕ)
        → (M.state unit.now).may_leave x →
        (leg : ℕ) × ((leg ≡ g.sure) ⊎ (g.maybe ≡ Some leg))
        × (odometer_at x ≡ min (start + kilometres_of (g.before ++ leg ∷ [])) HIGHEST_ODOMETER) }
{}

/// Where each minute that the spans of a run have decided was kept, the odometer is the start's and the whole
/// kilometres of each span, up to the last minute that it has decided: no other one is `OdometerSafe`.
pub fn a_whole_odometer()
    ensures { (rule : Rule) (log : RunLog) (told : List ToldSecond) (start : ℕ) (x : List ℕ)
        → OdometerSafe rule log told start x → AreWhole rule (limit_of log) (last_kept x) (spans_of told) →
        odometer_at x ≡ min (start + kilometres_of (whole_legs rule (spans_of told))) HIGHEST_ODOMETER }
{}

/// A unit that has an image which decodes, and no other, is a start: so is each image that a run may leave.
pub fn an_image_that_decodes_is_a_start<M: Medium>(unit: &M)
    ensures { (x : List ℕ) (number_a number_b : Option (List ℕ)) (due : ℕ)
        → ((c : List ℕ) → (M.state unit.now).left_since (M.state unit.now).clock c → c ≡ x) → Decodes x
        → last_kept x < due →
        UnitFollowsBook (started x number_a number_b (M.state unit.now).clock) due not_begun [] (M.state unit.now) }
{}

/// Where nothing was lost and no minute is begun, each image that a stop may leave has the start and all sure minutes,
/// of which the newest 366 days are retained.
pub fn what_is_left_is_whole<M: Medium>(unit: &M)
    ensures { (s : Started) (due : ℕ) (b : Book) (marks : List Mark) → UnitFollowsBook s due b marks (M.state unit.now)
        → b.maybe ≡ None → AreLost [] b →
        (x : List ℕ) → (M.state unit.now).may_leave x → recorded x ≡ newest_days 366 (filled_with s.days b.sure) }
{}

/// Where the unit has marked each sure minute and none is begun, its marks are the minutes of a front of the history,
/// once each and in order.
pub fn marks_are_the_minutes()
    ensures { (past : List HistoryMinute) (lost : List (List HistoryMinute)) (b : Book) (marks : List Mark)
        → AreMarksOf b marks → b.maybe ≡ None → Follows past lost b →
        (rest : List HistoryMinute) × (map (λ i. i.minute) past ≡ map (λ m. m.minute) (marks_of Recorder marks)
        ++ map (λ i. i.minute) rest) }
{}
