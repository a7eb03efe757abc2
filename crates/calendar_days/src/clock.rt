//! Times of day as text.
ghost use Rattle.std.specs.Prelude.{◌≡◌, ◌<◌};
ghost use Rattle.calendar_days.specs.Clock.{two_digits, duration_text, clock_text, seconds_text};

use activity_codec::{DAY_MINUTES, MINUTE_SECONDS};

/// So many minutes, fewer than those of 100 hours, as hours and minutes, `HH:MM`.
pub fn duration_text(minutes: u32) -> [u8; 5]
    requires { minutes < 6000 }
    ensures { result ≡ duration_text minutes }
{
    let [h, i] = two_digits(minutes / 60);
    let [m, n] = two_digits(minutes % 60);
    [h, i, b':', m, n]
}

/// The time of day of a minute, counted from some midnight (as 1970-01-01 00:00 GMT), `HH:MM`.
pub fn clock_text(minute: u32) -> [u8; 5]
    ensures { result ≡ clock_text minute }
{
    duration_text(minute % DAY_MINUTES)
}

/// The time of day of a second, counted from some midnight (as 1970-01-01 00:00 GMT), `HH:MM:SS`.
pub fn seconds_text(second: u32) -> [u8; 8]
    ensures { result ≡ seconds_text second }
{
    let [h, i, colon, m, n] = clock_text(second / MINUTE_SECONDS);
    let [s, t] = two_digits(second % MINUTE_SECONDS);
    [h, i, colon, m, n, b':', s, t]
}

/// A number below 100 in two digits.
fn two_digits(n: u32) -> [u8; 2]
    requires { n < 100 }
    ensures { result ≡ two_digits n }
{
    [b'0' + (n / 10) as u8, b'0' + (n % 10) as u8]
}
