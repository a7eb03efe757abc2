//! A walk over the days of a card in memory, from the oldest to the newest.
ghost use Rattle.std.specs.Prelude.{◌≡◌, ◌≤◌, ◌<◌, ◌+◌, ◌^◌, Some, ◌++◌, ◌∷◌, [], List, ◌||◌, if◌then◌else◌};
ghost use Rattle.card_image.specs.card_model.Days.{Day};
ghost use Rattle.card_image.specs.card_model.Image.{oldest_pointer};
ghost use Rattle.card_image.specs.card_model.Walk.{days_of};
ghost use Rattle.card_image.specs.Judging.{PlacedWord, words_placed};
ghost use Rattle.card_validity.specs.Walks.{IsInMemory, IsMet};
ghost use Rattle.card_validity.specs.Words.{IsBehind, HasMet};
ghost use Rattle.card_layout.specs.declared.files.TheConstants.{STRING_MOST};
ghost use Rattle.activity_codec.specs.declared.day.TheConstants.{LAST_MINUTE};

use crate::behind::{Behind, is_later_day};
use crate::memory::{after, first, word};
use crate::round::Round;
use card_days::{DayHead, Days};
use card_model::lengths::DAY_HEAD;

/// A day that was met: its head, and how many bytes the days before it have.
#[derive(Clone, Copy)]
pub struct Met {
    pub head: DayHead,
    pub so_far: u32,
}

/// What a walk has found.
#[derive(Clone, Copy)]
pub struct Walked {
    pub behind: Behind,
    /// a day later than the mark's was met
    pub past: bool,
    /// the last day before it, and the last of all
    pub cut: Option<Met>,
    pub newest: Option<Met>,
}

/// What was seen with the words of a day.
fn see_words(
    behind: Behind,
    days: &Days,
    image: &[u8],
    round: &Round,
    mark: u32,
    met: &Met,
) -> Behind
    requires known { IsInMemory days.now.shape image.now }
    requires size { round.now.size ≡ days.now.shape.size }
    requires oldest { round.now.oldest ≡ oldest_pointer days.now.shape image.now }
    requires short { round.now.oldest < 2 ^ 24 }
    requires mark { mark ≤ LAST_MINUTE }
    requires place { met.now.head.place < days.now.shape.size }
    requires near { met.now.so_far ≤ STRING_MOST }
    ensures { (older : List Day) (d : Day) → IsMet days.now.shape image.now older d met.now → (ws : List PlacedWord)
        → IsBehind mark ws behind
        → IsBehind mark (ws ++ words_placed days.now.shape.size (oldest_pointer days.now.shape image.now)
        (met.now.so_far + 12) d.date d.words) result }
{
    let mut seen = behind;
    for index in 0..met.head.words {
        let change = word(days, image, &met.head, index);
        let place = round.file_place(met.so_far + DAY_HEAD + 2 * index as u32);
        seen = seen.see(mark, met.head.date.0, change, place);
    }
    seen
}

/// The last day that counts, with one day more, where no later one was met.
fn last_counting(past: bool, cut: Option<Met>, met: Met) -> Option<Met>
    ensures { result ≡ (if past then cut else Some met) }
{
    if past { cut } else { Some(met) }
}

/// Whether one of two is so.
fn either(first: bool, second: bool) -> bool
    ensures { result ≡ (first || second) }
{
    first || second
}

impl Walked {
    /// What a walk has found with one day more.
    fn meet(self, days: &Days, image: &[u8], round: &Round, mark: u32, met: Met) -> Walked
        requires known { IsInMemory days.now.shape image.now }
        requires size { round.now.size ≡ days.now.shape.size }
        requires oldest { round.now.oldest ≡ oldest_pointer days.now.shape image.now }
        requires short { round.now.oldest < 2 ^ 24 }
        requires mark { mark ≤ LAST_MINUTE }
        requires place { met.head.place < days.now.shape.size }
        requires near { met.so_far ≤ STRING_MOST }
        ensures { (older : List Day) (d : Day) → IsMet days.now.shape image.now older d met
            → HasMet days.now.shape image.now mark older self
            → HasMet days.now.shape image.now mark (older ++ d ∷ []) result }
    {
        let behind = see_words(self.behind, days, image, round, mark, &met);
        let late = is_later_day(met.head.date.0, mark);
        let past = either(self.past, late);
        Walked {
            behind,
            past,
            cut: last_counting(past, self.cut, met),
            newest: Some(met),
        }
    }
}

/// What a walk over all days finds.
pub fn walk(days: &Days, image: &[u8], round: &Round, mark: u32) -> Walked
    requires known { IsInMemory days.now.shape image.now }
    requires size { round.now.size ≡ days.now.shape.size }
    requires oldest { round.now.oldest ≡ oldest_pointer days.now.shape image.now }
    requires short { round.now.oldest < 2 ^ 24 }
    requires mark { mark ≤ LAST_MINUTE }
    ensures { HasMet days.now.shape image.now mark (days_of days.now.shape image.now) result }
{
    let mut walked = Walked {
        behind: Behind::none(),
        past: false,
        cut: None,
        newest: None,
    };
    let mut so_far = 0;
    let mut next = first(days, image);
    while let Some(head) = next {
        walked = walked.meet(days, image, round, mark, Met { head, so_far });
        so_far += DAY_HEAD + 2 * head.words as u32;
        next = after(days, image, &head);
    }
    walked
}
