//! A line of what happened in a second.
ghost use Rattle.std.specs.Prelude.{◌≡◌, ◌+◌, ◌≤◌, ◌<◌, ◌++◌, length};
ghost use Rattle.arrayvec.specs.ArrayVec.{array_vec_len};
ghost use Rattle.live_lines.specs.Texts.{IsTimedLine, spaced};

use activity_codec::DAY_SECONDS;
use arrayvec::ArrayVec;
use calendar_days::{day_text, seconds_text};

/// The most bytes of a line.
pub const MOST: usize = 80;

/// What happened, in which second, and more words of it, if any.
pub fn timed_line(what: &[u8], second: u32, more: &[u8]) -> ArrayVec<u8, MOST>
    requires what { length what.now ≤ 14 }
    requires more { length more.now ≤ 28 }
    ensures { IsTimedLine what.now second more.now result.items }
{
    let mut text = ArrayVec::new();
    let date = day_text(second / DAY_SECONDS);
    add(&mut text, what);
    add(&mut text, b" ");
    add(&mut text, date.as_slice());
    add(&mut text, b" ");
    add(&mut text, &seconds_text(second));
    add_spaced(&mut text, more);
    add(&mut text, b"\n");
    text
}

/// Adds a space and these words, or nothing where there are none.
fn add_spaced(text: &mut ArrayVec<u8, MOST>, words: &[u8])
    requires { array_vec_len text.old + length words.now < MOST }
    ensures items { text.new.items ≡ text.old.items ++ spaced words.now }
    ensures len { array_vec_len text.new ≤ array_vec_len text.old + length words.now + 1 }
{
    if words.is_empty() {
        return;
    }
    add(text, b" ");
    add(text, words);
}

/// Adds bytes, for which there is room.
pub fn add(text: &mut ArrayVec<u8, MOST>, bytes: &[u8])
    requires { array_vec_len text.old + length bytes.now ≤ MOST }
    ensures items { text.new.items ≡ text.old.items ++ bytes.now }
    ensures len { array_vec_len text.new ≡ array_vec_len text.old + length bytes.now }
{
    let _ = text.try_extend_from_slice(bytes);
}
