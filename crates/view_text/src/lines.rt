//! The lines of a view, as its minutes come one after another.
ghost use Rattle.std.specs.Prelude.{◌≡◌, ◌++◌, [], ◌∷◌, List, OnOk};
ghost use Rattle.std.specs.Bool.{OnTrue, OnFalse};
ghost use Rattle.view_model.specs.declared.Viewed.{Viewed as ViewedMinute};
ghost use Rattle.view_model.specs.Lines.{lines_of};
ghost use Rattle.view_text.specs.Growing.{follows, with_more, line_at};

use crate::shown::Shown;
use activity_codec::DAY_MINUTES;
use std::alloc::AllocError;
use view_model::{Line, Viewed};

/// Adds a minute to the lines of the minutes before it: at the end of the last line where that goes on with it, else as
/// a line of its own.
///
/// # Errors
///
/// `AllocError` where memory runs out.
pub fn add_minute<T: Shown>(lines: &mut Vec<Line<T>>, minute: Viewed<T>) -> Result<(), AllocError>
    ensures { (minutes : List (ViewedMinute T)) → lines.old.items ≡ lines_of T.same minutes
        → OnOk result (lines.new.items ≡ lines_of T.same (minutes ++ minute ∷ [])) }
{
    let line = Line {
        first: minute.minute,
        last: minute.minute,
        shown: minute.shown,
    };
    if has_added(lines.as_mut_slice(), minute) {
        return Ok(());
    }
    lines.push(line)?;
    Ok(())
}

/// Adds a minute to the last line where that goes on with it, and answers whether it does.
fn has_added<T: Shown>(lines: &mut [Line<T>], minute: Viewed<T>) -> bool
    ensures added { OnTrue result (lines.new ≡ with_more T.same lines.old minute) }
    ensures apart { OnFalse result (with_more T.same lines.old minute ≡ lines.new ++ line_at minute ∷ []) }
{
    let count = lines.len();
    if count == 0 {
        return false;
    }
    let number = minute.minute;
    if goes_on(lines[count - 1], minute) {
        lines[count - 1].last = number;
        return true;
    }
    false
}

/// Whether a minute is the next one behind a line, on the same day, and shows the same.
fn goes_on<T: Shown>(line: Line<T>, minute: Viewed<T>) -> bool
    ensures { result ≡ follows T.same line minute }
{
    line.last as u64 + 1 == minute.minute as u64
        && line.last / DAY_MINUTES == minute.minute / DAY_MINUTES
        && line.shown.is_same(minute.shown)
}
