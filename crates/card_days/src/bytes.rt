//! Numbers of the string in bytes.
ghost use Rattle.std.specs.Prelude.{◌≡◌, ◌≤◌, ◌<◌, ◌+◌, length, IfOk, OnOk, IfSome, is_err, option_map, take};
ghost use Rattle.std.specs.Prelude.{slice_index, ◌*◌};
ghost use Rattle.tach_media.specs.Medium.{LeavesOnly, Reads, HasCause, LiesInside, IsPartlyWritten, IsSettled};
ghost use Rattle.tach_media.specs.Medium.{last_count, put, bytes_at};
ghost use Rattle.card_model.specs.Bytes.{number, two_bytes, decimal};
ghost use Rattle.card_model.specs.Changes.{counter_after};
ghost use Rattle.card_model.specs.Days.{body};

use tach_media::{Failed, Medium};

/// The number in two bytes, the highest first.
///
/// # Errors
///
/// `Failed` where a call on the medium failed.
pub fn read_two<M: Medium>(medium: &mut M, place: u32) -> Result<u32, Failed>
    requires { place + 2 ≤ (M.state medium.old).size }
    ensures value { IfOk result (λ n. IfSome (M.state medium.old).image (λ x. n ≡ number (bytes_at x place 2))) }
    ensures spelled { IfOk result (λ n. IfSome (M.state medium.old).image (λ x. bytes_at x place 2 ≡ two_bytes n)) }
    ensures short { IfOk result (λ n. n < 65536) }
    ensures reads { Reads (M.state medium.old) (M.state medium.new) (is_err result) }
{
    let mut bytes = [0u8; 2];
    medium.read_at(place, &mut bytes)?;
    Ok(number_of(&bytes))
}

/// The number that two bytes spell.
pub fn number_of(bytes: &[u8]) -> u32
    requires { length bytes.now ≡ 2 }
    ensures value { result ≡ number bytes.now }
    ensures spelled { bytes.now ≡ two_bytes result }
    ensures short { result < 65536 }
{
    bytes[0] as u32 * 256 + bytes[1] as u32
}

/// Writes a number in two bytes.
///
/// # Errors
///
/// `Failed` where a call on the medium failed.
pub fn write_two<M: Medium>(medium: &mut M, place: u32, n: u32) -> Result<(), Failed>
    requires inside { place + 2 ≤ (M.state medium.old).size }
    requires writable { LiesInside (M.state medium.old).writable place 2 }
    requires short { n < 65536 }
    ensures written { OnOk result ((M.state medium.new).image
        ≡ option_map (put place (two_bytes n)) (M.state medium.old).image) }
    ensures moments { LeavesOnly (M.state medium.old) (M.state medium.new) (IsPartlyWritten place (two_bytes n)) }
    ensures settled { OnOk result ((M.state medium.new).clock < last_count → IsSettled (M.state medium.new)) }
    ensures cause { HasCause (M.state medium.old) (M.state medium.new) (is_err result) }
    ensures most { (M.state medium.new).clock ≤ (M.state medium.old).clock + 1 }
{
    medium.write_at(place, &[(n / 256) as u8, (n % 256) as u8])
}

/// The number that four decimal digits spell.
pub fn decimal_of(n: u32) -> u32
    ensures value { result ≡ decimal n }
    ensures short { result ≤ 16665 }
{
    1000 * (n / 4096 % 16) + 100 * (n / 256 % 16) + 10 * (n / 16 % 16) + n % 16
}

/// The counter after another.
pub fn counter_after(n: u32) -> u32
    ensures value { result ≡ counter_after n }
    ensures short { result ≤ 9999 }
{
    if n >= 9999 { 0 } else { n + 1 }
}

/// The second word, where there is one.
fn second(words: &[u16]) -> u16
    requires { 1 ≤ length words.now }
    ensures { length words.now ≡ 2 → result ≡ slice_index words.now 1 }
{
    if words.len() > 1 { words[1] } else { 0 }
}

/// The bytes of a new day of one or two words behind its two lengths.
pub fn body_of(date: u32, counter: u32, words: &[u16]) -> [u8; 12]
    requires counter { counter ≤ 9999 }
    requires some { 1 ≤ length words.now }
    requires few { length words.now ≤ 2 }
    ensures bytes { take (8 + 2 * length words.now) result
        ≡ body (record { date = date; counter = counter; km = 0; words = words.now }) }
{
    let first = words[0];
    let second = second(words);
    [
        (date / 16777216) as u8,
        (date / 65536 % 256) as u8,
        (date / 256 % 256) as u8,
        (date % 256) as u8,
        (16 * (counter / 100 / 10) + counter / 100 % 10) as u8,
        (16 * (counter % 100 / 10) + counter % 100 % 10) as u8,
        0,
        0,
        (first / 256) as u8,
        (first % 256) as u8,
        (second / 256) as u8,
        (second % 256) as u8,
    ]
}
