//! The word of an entry by hand.
ghost use Rattle.std.specs.Prelude.{◌≡◌, ◌+◌, ◌/◌, ◌<◌, ◌≤◌, ◌^◌, Option, Some, None, true, if◌then◌else◌};
ghost use Rattle.activity_codec.specs.Words.{word_minute};
ghost use Rattle.hand_model.specs.Manual.{manual_word, is_by_hand, tells_by_hand};

use activity_codec::{Change, DAY_MINUTES, MINUTE_SECONDS, Manual, decode_change, encode_change};

/// The word of an entry by hand: not inserted, known.
pub fn manual_word(entry: &Manual) -> u16
    ensures { result ≡ manual_word entry.now }
{
    encode_change(&Change {
        slot: entry.slot,
        crew_or_known: true,
        absent: true,
        act: entry.act,
        minute: (entry.minute % DAY_MINUTES) as u16,
    })
}

/// The entry by hand that a word tells of a day with this date, in seconds, if it tells one. One whose minute is no
/// minute of a day tells none.
pub fn told_by_hand(date: u32, word: u16) -> Option<Manual>
    ensures told { word_minute word < 1440 → result
        ≡ (if is_by_hand word then Some (tells_by_hand date word) else None) }
    ensures none { 1440 ≤ word_minute word → result ≡ None }
{
    let change = decode_change(word).ok()?;
    if change.absent && change.crew_or_known {
        Some(Manual {
            minute: date / MINUTE_SECONDS + u32::from(change.minute),
            slot: change.slot,
            act: change.act,
        })
    } else {
        None
    }
}
