//! The entries by hand that a card file tells, as marks of its picture.
ghost use Rattle.std.specs.Prelude.{◌≡◌, ◌++◌, OnOk};
ghost use Rattle.day_reports.specs.Hands.{if_in_time, hand_marks};

use activity_codec::{LAST_MINUTE, Manual};
use std::alloc::AllocError;
use view_model::{Mark, Sign};

/// Adds the marks of entries by hand, in their order.
pub(crate) fn add_hands(marks: &mut Vec<Mark>, entries: &[Manual]) -> Result<(), AllocError>
    ensures { OnOk result (marks.new.items ≡ marks.old.items ++ hand_marks entries.now) }
{
    for entry in entries {
        add_hand(marks, entry)?;
    }
    Ok(())
}

/// Adds the mark of an entry by hand.
fn add_hand(marks: &mut Vec<Mark>, entry: &Manual) -> Result<(), AllocError>
    ensures { OnOk result (marks.new.items ≡ marks.old.items ++ if_in_time entry.now) }
{
    if entry.minute <= LAST_MINUTE {
        marks.push(Mark {
            sign: Sign::ByHand(entry.act),
            code: 0,
            second: 60 * entry.minute,
        })?;
    }
    Ok(())
}
