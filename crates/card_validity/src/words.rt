//! The words of a card's days that an insertion judges, beyond what any reader asks of the string.
ghost use Rattle.std.specs.Prelude.{◌≡◌, ◌≤◌, ◌<◌, ◌+◌, ◌^◌, List};
ghost use Rattle.card_image.specs.card_model.Days.{Day};
ghost use Rattle.card_image.specs.card_model.Image.{oldest_pointer};
ghost use Rattle.card_image.specs.card_model.Changes.{early, until, date_of, trimmed};
ghost use Rattle.card_image.specs.card_model.Checks.{first_failing};
ghost use Rattle.card_image.specs.card_model.Walk.{days_of};
ghost use Rattle.card_image.specs.Judging.{words_placed, rising_checks, newest_rises, word_checks};
ghost use Rattle.card_validity.specs.Words.{passes_after, first_of, limit_of};
ghost use Rattle.card_validity.specs.Walks.{IsInMemory, IsMet, IsLastOf};
ghost use Rattle.card_layout.specs.declared.files.TheConstants.{STRING_MOST};
ghost use Rattle.activity_codec.specs.declared.day.TheConstants.{LAST_MINUTE};

use crate::behind::date_of;
use crate::memory::word;
use crate::round::Round;
use crate::walk::{Met, walk};
use activity_codec::{DAY_MINUTES, WORD_MINUTES};
use card_days::Days;
use card_model::lengths::DAY_HEAD;

/// No minute of a word is later.
const ANY_MINUTE: u16 = 2047;

/// The place of the first word of a day, among those up to a minute of the day, that is not later than the one before
/// it.
fn first_not_later(days: &Days, image: &[u8], round: &Round, met: &Met, limit: u16) -> Option<u32>
    requires known { IsInMemory days.now.shape image.now }
    requires size { round.now.size ≡ days.now.shape.size }
    requires oldest { round.now.oldest ≡ oldest_pointer days.now.shape image.now }
    requires short { round.now.oldest < 2 ^ 24 }
    requires place { met.now.head.place < days.now.shape.size }
    requires near { met.now.so_far ≤ STRING_MOST }
    ensures { (older : List Day) (d : Day) → IsMet days.now.shape image.now older d met.now
        → result ≡ first_failing (rising_checks
        (words_placed days.now.shape.size (oldest_pointer days.now.shape image.now) (met.now.so_far + 12) d.date
        (early limit d.words))) }
{
    let mut before = None;
    for index in 0..met.head.words {
        let minute = word(days, image, &met.head, index) % WORD_MINUTES;
        if minute > limit {
            return None;
        }
        if !is_later(before, minute) {
            return Some(round.file_place(met.so_far + DAY_HEAD + 2 * index as u32));
        }
        before = Some(minute);
    }
    None
}

/// Whether a minute is later than the one before it, if there is one.
fn is_later(before: Option<u16>, minute: u16) -> bool
    ensures { result ≡ passes_after before minute }
{
    match before {
        None => true,
        Some(earlier) => earlier < minute,
    }
}

/// The place in the file of days of the first word that an insertion finds bad: where no session is open, of those
/// behind the end mark; then of the newest day up to the mark; and where no session is open, of the newest day.
pub fn first_bad_word(
    days: &Days,
    image: &[u8],
    round: &Round,
    mark: u32,
    session: u32,
) -> Option<u32>
    requires known { IsInMemory days.now.shape image.now }
    requires size { round.now.size ≡ days.now.shape.size }
    requires oldest { round.now.oldest ≡ oldest_pointer days.now.shape image.now }
    requires short { round.now.oldest < 2 ^ 24 }
    requires mark { mark ≤ LAST_MINUTE }
    ensures { result ≡ first_failing (word_checks days.now.shape.size (oldest_pointer days.now.shape image.now) mark
        session (days_of days.now.shape image.now)) }
{
    let walked = walk(days, image, round, mark);
    let cut = first_of_cut(days, image, round, mark, walked.cut);
    if session != 0 {
        return cut;
    }
    let newest = first_of_newest(days, image, round, walked.newest);
    let rising = first_of(cut, newest);
    first_of(walked.behind.answer(), rising)
}

/// The first of two, if there is one.
fn first_of(first: Option<u32>, second: Option<u32>) -> Option<u32>
    ensures { result ≡ first_of first second }
{
    match first {
        None => second,
        Some(place) => Some(place),
    }
}

/// The place of the first word of the newest day that is not later than the one before it.
fn first_of_newest(days: &Days, image: &[u8], round: &Round, newest: Option<Met>) -> Option<u32>
    requires known { IsInMemory days.now.shape image.now }
    requires size { round.now.size ≡ days.now.shape.size }
    requires oldest { round.now.oldest ≡ oldest_pointer days.now.shape image.now }
    requires short { round.now.oldest < 2 ^ 24 }
    requires newest { IsLastOf days.now.shape image.now (days_of days.now.shape image.now) newest }
    ensures { result ≡ first_failing (newest_rises days.now.shape.size (oldest_pointer days.now.shape image.now) 0
        (days_of days.now.shape image.now)) }
{
    match newest {
        None => None,
        Some(met) => first_not_later(days, image, round, &met, ANY_MINUTE),
    }
}

/// The same of the newest day up to the mark.
fn first_of_cut(
    days: &Days,
    image: &[u8],
    round: &Round,
    mark: u32,
    cut: Option<Met>,
) -> Option<u32>
    requires known { IsInMemory days.now.shape image.now }
    requires size { round.now.size ≡ days.now.shape.size }
    requires oldest { round.now.oldest ≡ oldest_pointer days.now.shape image.now }
    requires short { round.now.oldest < 2 ^ 24 }
    requires mark { mark ≤ LAST_MINUTE }
    requires cut { IsLastOf days.now.shape image.now (until (date_of mark) (days_of days.now.shape image.now)) cut }
    ensures { result ≡ first_failing (newest_rises days.now.shape.size (oldest_pointer days.now.shape image.now) 0
        (trimmed mark (days_of days.now.shape image.now))) }
{
    match cut {
        None => None,
        Some(met) => {
            let limit = limit_of(mark, met.head.date.0);
            first_not_later(days, image, round, &met, limit)
        }
    }
}

/// Up to which minute a day counts that is not later than the mark's: the mark's own up to the mark.
fn limit_of(mark: u32, date: u32) -> u16
    requires { mark ≤ LAST_MINUTE }
    ensures { result ≡ limit_of mark date }
{
    if date == date_of(mark) {
        (mark % DAY_MINUTES) as u16
    } else {
        ANY_MINUTE
    }
}
