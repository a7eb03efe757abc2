//! A line of a minute that a device has acknowledged.
ghost use Rattle.std.specs.Prelude.{◌≡◌, ◌≤◌, length};
ghost use Rattle.live_lines.specs.Texts.{IsMinuteLine};

use crate::timed_line::{MOST, add};
use activity_codec::DAY_MINUTES;
use arrayvec::ArrayVec;
use calendar_days::{clock_text, day_text};
use tacho_types::DAYS;

/// Whose minute, and which, counted from 1970-01-01 00:00 GMT.
pub fn minute_line(whose: &[u8], minute: u32) -> ArrayVec<u8, MOST>
    requires { length whose.now ≤ 14 }
    ensures { IsMinuteLine whose.now minute result.items }
{
    let mut text = ArrayVec::new();
    let date = day_text(minute / DAY_MINUTES % DAYS);
    add(&mut text, whose);
    add(&mut text, b" ");
    add(&mut text, date.as_slice());
    add(&mut text, b" ");
    add(&mut text, &clock_text(minute));
    add(&mut text, b"\n");
    text
}
