//! The days of a view, by its lines.
ghost use Rattle.std.specs.Prelude.{◌≡◌, ◌-◌, ◌≤◌, ◌<◌, ◌∷◌, Bool, List, length, take, drop};
ghost use Rattle.tacho_types.specs.declared.calendar.TheConstants.{DAYS};
ghost use Rattle.file_view.specs.Histories.{minutes_on};
ghost use Rattle.slot_bars.specs.DaysOf.{day_of, days_of};
ghost use Rattle.slot_bars.specs.DayLines.{AreDayLines, IsOneDay, is_behind, is_behind_at};

use activity_codec::DAY_MINUTES;
use view_model::Line;

/// How many lines the first day of a view has.
pub fn first_day<T: Copy>(lines: &[Line<T>]) -> usize
    requires lines { AreDayLines lines.now }
    requires some { 0 < length lines.now }
    ensures some { 0 < result }
    ensures within { result ≤ length lines.now }
    ensures days { days_of (minutes_on lines.now) ≡ minutes_on (take result lines.now)
        ∷ days_of (minutes_on (drop result lines.now)) }
    ensures one { IsOneDay (take result lines.now) }
    ensures more { AreDayLines (drop result lines.now) }
{
    let mut end = 1;
    'lines: while goes_on(lines, end) {
        end += 1;
    }
    end
}

/// Whether the line at an index begins behind the one before it, on the same day.
fn goes_on<T: Copy>(lines: &[Line<T>], end: usize) -> bool
    requires { 0 < end }
    ensures { result ≡ is_behind_at lines.now (end - 1) }
{
    if end >= lines.len() {
        return false;
    }
    let before = lines[end - 1];
    let next = lines[end];
    is_behind(before, next)
}

/// The number of the day of lines of one day.
pub fn day_number<T: Copy>(lines: &[Line<T>]) -> u32
    requires { IsOneDay lines.now }
    ensures day { result ≡ day_of (minutes_on lines.now) }
    ensures low { result < DAYS }
{
    lines[0].first / DAY_MINUTES
}

/// Whether a line begins behind another, on the same day.
fn is_behind<T: Copy>(line: Line<T>, next: Line<T>) -> bool
    ensures { result ≡ is_behind line next }
{
    line.last < next.first && line.last / DAY_MINUTES == next.first / DAY_MINUTES
}
