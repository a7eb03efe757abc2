//! What a download and a view of it tell of a unit: laws.
ghost use Rattle.std.specs.Prelude.{◌≡◌, ℕ, None, List, length};
ghost use Rattle.log_model.specs.declared.lines.Mark.{Mark};
ghost use Rattle.history_model.specs.Minutes.{HistoryMinute};
ghost use Rattle.unit_model.specs.declared.layout.TheConstants.{IMAGE_SIZE};
ghost use Rattle.unit_model.specs.Days.{ShownDay, UnitMinute};
ghost use Rattle.unit_model.specs.Image.{unit_minutes};
ghost use Rattle.unit_minutes.specs.DaysWith.{written_days};
ghost use Rattle.message_model.specs.Sending.{sent_days, unit_file};
ghost use Rattle.link_loader.specs.Talking.{IsUnitImage};
ghost use Rattle.file_view.specs.UnitShowing.{ShowsUnitFile};
ghost use Rattle.safety_model.specs.Unit.{UnitSafe};
ghost use Rattle.safety_laws.specs.Handed.{IsHandedOut};

use tach_media::Medium;

/// Whatever minutes a view shows of a unit's file are those of the unit's image.
pub fn a_view_shows_the_unit()
    ensures { (x : List ℕ) (shown : List UnitMinute) → IsUnitImage x → ShowsUnitFile None (unit_file x) shown
        → shown ≡ unit_minutes x }
{}

/// A download sends just the days of which a run tells the words (`HasWords` of run_promise).
pub fn what_is_written_is_sent()
    ensures { (x : List ℕ) → sent_days x ≡ written_days x }
{}

/// Of each image that a stop might have left of a unit that is safe, a download is a file, a view of that shows the
/// image's minutes, and these are of the start and of the history from its front, every minute among them that was
/// acknowledged before, but for the oldest days.
pub fn what_is_kept_is_handed_out<U: Medium>(unit: &U)
    ensures { (start : List ShownDay) (past : List HistoryMinute) (lost : List (List HistoryMinute)) (marks : List Mark)
        (since : ℕ) (x : List ℕ) →
        UnitSafe start past lost marks since (U.state unit.now) → (U.state unit.now).left_since since x
        → length x ≡ IMAGE_SIZE →
        IsHandedOut start past lost marks (U.state unit.now) x }
{
    unit.holds_bytes();
}
