//! Laws of the words of entries by hand.
ghost use Rattle.std.specs.Prelude.{◌≡◌, ◌<◌, ◌≤◌, ℕ, true, None, Some, List};
ghost use Rattle.activity_codec.specs.Words.{word_absent, word_minute};
ghost use Rattle.card_image.specs.card_model.Days.{Day, AreDays};
ghost use Rattle.card_image.specs.card_model.Changes.{date_of, trimmed};
ghost use Rattle.card_image.specs.card_retention.Entries.{told_by, newest_word};
ghost use Rattle.activity_codec.specs.declared.entries.Manual.{Manual};
ghost use Rattle.hand_model.specs.Manual.{manual_word, is_by_hand, tells_by_hand};
ghost use Rattle.hand_model.specs.ByHand.{TellsHands, HandsUpTo};

/// The word of an entry by hand is one of its minute, and tells it.
pub fn a_word_by_hand_tells_its_entry()
    ensures known { (entry : Manual) → is_by_hand (manual_word entry) ≡ true }
    ensures minute { (entry : Manual) → word_minute (manual_word entry) < 1440 }
    ensures entry { (entry : Manual) → tells_by_hand (date_of entry.minute) (manual_word entry) ≡ entry }
{}

/// It tells no minute of the card as an entry.
pub fn a_word_by_hand_is_no_entry()
    ensures { (entry : Manual) (minute : ℕ) → told_by minute (Some (manual_word entry)) ≡ None }
{}

/// Of all entries by hand so far days tell up to a mark those whose day is there: so they do behind a cut to it, where
/// none of them is behind it, and up to any other mark that no word is behind.
pub fn days_tell_entries_by_hand_still()
    ensures cut { (mark : ℕ) (all : List Manual) (days : List Day) → AreDays 0 days → HandsUpTo mark all
        → TellsHands mark all days → TellsHands mark all (trimmed mark days) }
    ensures newest { (mark other : ℕ) (all : List Manual) (days : List Day) → AreDays 0 days → newest_word days ≤ mark
        → newest_word days ≤ other → TellsHands mark all days → TellsHands other all days }
{}
