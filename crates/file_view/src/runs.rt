//! Lines of a view with minutes in a row behind them, which go in at once.
ghost use Rattle.std.specs.Prelude.{◌≡◌, ◌++◌, true, List, OnOk};
ghost use Rattle.view_model.specs.declared.Viewed.{Viewed as ViewedMinute};
ghost use Rattle.view_model.specs.Lines.{lines_of};
ghost use Rattle.file_view.specs.Histories.{line_minutes};
ghost use Rattle.file_view.specs.Runs.{is_run, with_last};

use std::alloc::AllocError;
use view_model::{Line, Viewed};
use view_text::{Shown, add_minute};

/// Adds minutes in a row of one day in which the same is shown, as a line has them: at the end of the last line where
/// they go on with it, else as a line of their own.
///
/// # Errors
///
/// `AllocError` where memory runs out.
pub fn add_run<T: Shown>(lines: &mut Vec<Line<T>>, run: Line<T>) -> Result<(), AllocError>
    requires run { is_run run.first run.last ≡ true }
    requires same { T.same run.shown run.shown ≡ true }
    ensures { (minutes : List (ViewedMinute T)) → lines.old.items ≡ lines_of T.same minutes
        → OnOk result (lines.new.items ≡ lines_of T.same (minutes ++ line_minutes run)) }
{
    let first = Viewed {
        minute: run.first,
        shown: run.shown,
    };
    add_minute(lines, first)?;
    stretch(lines.as_mut_slice(), run.last);
    Ok(())
}

/// Lets the last line end with a later minute.
fn stretch<T: Shown>(lines: &mut [Line<T>], last: u32)
    ensures { lines.new ≡ with_last last lines.old }
{
    let count = lines.len();
    if count == 0 {
        return;
    }
    lines[count - 1].last = last;
}
