//! A line of what happened in a second.
ghost use Rattle.std.specs.Prelude.{◌≡◌, ◌+◌, ◌≤◌, ◌++◌, length};
ghost use Rattle.arrayvec.specs.ArrayVec.{array_vec_len};
ghost use Rattle.failure_lines.specs.Timed.{IsTimedText};

use activity_codec::DAY_SECONDS;
use arrayvec::ArrayVec;
use calendar_days::{day_text, seconds_text};

/// The most bytes of a line.
pub const MOST: usize = 80;

/// Who or what did something in a second, and what became of it or why.
pub fn timed_text(who: &[u8], did: &[u8], second: u32, what: &[u8]) -> ArrayVec<u8, MOST>
    requires who { length who.now ≤ 13 }
    requires did { length did.now ≤ 16 }
    requires what { length what.now ≤ 28 }
    ensures { IsTimedText who.now did.now second what.now result.items }
{
    let mut text = ArrayVec::new();
    let date = day_text(second / DAY_SECONDS);
    add(&mut text, who);
    add(&mut text, did);
    add(&mut text, date.as_slice());
    add(&mut text, b" ");
    add(&mut text, &seconds_text(second));
    add(&mut text, b": ");
    add(&mut text, what);
    add(&mut text, b"\n");
    text
}

/// Adds bytes, for which there is room.
pub fn add(text: &mut ArrayVec<u8, MOST>, bytes: &[u8])
    requires { array_vec_len text.old + length bytes.now ≤ MOST }
    ensures items { text.new.items ≡ text.old.items ++ bytes.now }
    ensures len { array_vec_len text.new ≡ array_vec_len text.old + length bytes.now }
{
    let _ = text.try_extend_from_slice(bytes);
}
