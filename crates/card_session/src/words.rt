//! The change words of a session (Annex IB, Appendix 1, ActivityChangeInfo; when each is written: profile).
ghost use Rattle.std.specs.Prelude.{◌≡◌, ◌≤◌, ◌<◌, ◌+◌, ◌^◌, IfSome};
ghost use Rattle.card_session.specs.Books.{bare_word, km_after};
ghost use Rattle.card_session.specs.declared.words.TheConstants.{LATEST_MINUTE};
ghost use Rattle.card_session.specs.Telling.{closing_at, gap_word, is_newest_day, entry_change, km_told};

use activity_codec::{
    Activity, Change, DAY_MINUTES, Entry, LAST_MINUTE, Slot, WORD_MINUTES, decode_change,
    encode_change, entry_word,
};
use card_days::Tail;
use card_validity::date_of;
use tacho_types::Distance;

/// The latest minute that is kept: the closing word, a minute later, has a time in seconds still.
pub const LATEST_MINUTE: u32 = LAST_MINUTE - 1;

/// No distance of a day is told as more, in km.
const MOST_KM: u32 = 9999;

/// The word that begins a day before its first entry: the driver's slot, not inserted, unknown, rest.
pub fn bare_word() -> u16
    ensures { result ≡ bare_word }
{
    encode_change(&Change {
        slot: Slot::Driver,
        crew_or_known: false,
        absent: true,
        act: Activity::Rest,
        minute: 0,
    })
}

/// The word that closes with an activity at the minute after the end mark, where the latest word is an entry's and that
/// minute lies in the newest day.
pub fn closing(tail: Option<Tail>, mark: u32, act: Activity) -> Option<u16>
    requires { mark ≤ LATEST_MINUTE }
    ensures { result ≡ closing_at mark act tail }
{
    let next = mark + 1;
    let tail = tail?;
    let latest = decode_change(tail.latest).ok()?;
    if latest.absent || tail.head.date.0 != date_of(next) {
        return None;
    }
    Some(encode_change(&Change {
        slot: latest.slot,
        crew_or_known: false,
        absent: true,
        act,
        minute: (next % DAY_MINUTES) as u16,
    }))
}

/// The word that closes a gap before the minute of an entry, which there is where the entry does not come at once.
pub fn gap_word(tail: Option<Tail>, mark: u32, minute: u32) -> Option<u16>
    requires { mark ≤ LATEST_MINUTE }
    ensures { result ≡ gap_word mark minute tail }
{
    if minute == mark + 1 {
        return None;
    }
    closing(tail, mark, Activity::Rest)
}

/// Whether a minute lies in the newest day.
pub fn is_newest_day(tail: Option<Tail>, minute: u32) -> bool
    requires { minute ≤ LATEST_MINUTE + 1 }
    ensures { result ≡ is_newest_day minute tail }
{
    match tail {
        None => false,
        Some(tail) => tail.head.date.0 == date_of(minute),
    }
}

/// The word of an entry, where the latest word does not tell its state.
pub fn entry_change(tail: Option<Tail>, entry: &Entry) -> Option<u16>
    ensures { result ≡ entry_change entry.now tail }
{
    let word = entry_word(entry);
    match tail {
        Some(tail) if tail.latest / WORD_MINUTES == word / WORD_MINUTES => None,
        _ => Some(word),
    }
}

/// The distance of the newest day, so many km more.
pub fn distance(tail: Option<Tail>, more: u32) -> Distance
    requires { more < 2 ^ 24 }
    ensures { result.0 ≡ km_after more (km_told tail) }
{
    let km = match tail {
        None => 0,
        Some(tail) => u32::from(tail.head.km.0),
    };
    Distance((km + more).min(MOST_KM) as u16)
}
