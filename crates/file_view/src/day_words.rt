//! Which change of a day decides each of its minutes.
ghost use Rattle.std.specs.Prelude.{◌≡◌, ◌<◌, ◌≤◌, ◌-◌, ℕ, List, [], ◌∷◌, length, drop, slice_index, option_map};
ghost use Rattle.std.specs.List.{AllByRecursion};
ghost use Rattle.activity_codec.specs.Words.{change_of, word_minute};
ghost use Rattle.file_view.specs.Kept.{word_before, first_minute};

use activity_codec::{Change, DAY_MINUTES, WORD_MINUTES, decode_change};

/// A place for each minute of a day.
const PLACES: usize = DAY_MINUTES as usize;

/// The words that decide the minutes of a day, as they come from the last one to the first: a minute is decided by the
/// last word, in their order, that is not later. So a word decides none where one that came is not later.
#[derive(Drop)]
pub struct DayWords {
    // those that decide stand at the end, in their order
    words: [u16; PLACES],
    // where the first of them stands
    from: usize,
    // its minute; 1440 where there is none
    first: usize,
    ghost inside: { from ≤ 1440 },
    ghost room: { first ≤ from },
}

/// Minutes of a day, from one on, that one change decides, or none.
#[derive(Clone, Copy, Debug, PartialEq, Eq)]
pub struct Run {
    pub change: Option<Change>,
    /// The minute behind the last of them.
    pub end: u32,
    /// The place of the run, from which the next one is found at once.
    pub place: usize,
}

impl DayWords {
    ghost use Rattle.file_view.specs.Deciding.{Decides, IsRun};

    /// No word came yet.
    pub fn new() -> DayWords
        ensures { Decides result [] }
    {
        DayWords {
            words: [0; PLACES],
            from: PLACES,
            first: PLACES,
        }
    }

    /// One word more, which stands before those that came. One whose minute is no minute of a day is passed over.
    pub fn put_word(&mut self, word: u16)
        ensures { (words : List ℕ) → Decides self.old words → Decides self.new (word ∷ words) }
    {
        let minute = minute_of(word) as usize;
        if minute >= self.first {
            return;
        }
        self.first = minute;
        self.from -= 1;
        self.words[self.from] = word;
    }

    /// The minutes from one on that the change decides which decides it. It is looked for from a place on, that of an
    /// earlier run; any place serves.
    pub fn run_at(&self, minute: u32, place: usize) -> Run
        requires { minute < 1440 }
        ensures some { minute < result.end }
        ensures run { (words : List ℕ) → Decides self.now words → IsRun words minute result }
    {
        let kept = &self.words[self.from..];
        let count = count_at(kept, minute, place);
        Run {
            change: change_before(kept, count),
            end: end_behind(kept, count),
            place: count,
        }
    }
}

/// The minute of the day that a word tells.
fn minute_of(word: u16) -> u32
    ensures { result ≡ word_minute word }
{
    u32::from(word % WORD_MINUTES)
}

/// How many words are not later than a minute, where each is at least as late as the one before it: a place where the
/// word before is not later, and the one behind is. It is looked for from a place on; any serves.
fn count_at(words: &[u16], minute: u32, place: usize) -> usize
    ensures most { result ≤ length words.now }
    ensures before { 0 < result → word_minute (slice_index words.now (result - 1)) ≤ minute }
    ensures behind { result < length words.now → minute < word_minute (slice_index words.now result) }
{
    let mut count = place_before(words, minute, place);
    while count < words.len() {
        if minute_of(words[count]) > minute {
            return count;
        }
        count += 1;
    }
    count
}

/// A place before which the word is not later than a minute: this one, where it is such, or that before all words.
fn place_before(words: &[u16], minute: u32, place: usize) -> usize
    ensures most { result ≤ length words.now }
    ensures before { 0 < result → word_minute (slice_index words.now (result - 1)) ≤ minute }
{
    if place == 0 {
        return 0;
    }
    if place > words.len() {
        return 0;
    }
    if minute_of(words[place - 1]) > minute {
        return 0;
    }
    place
}

/// The change of the last of so many words.
fn change_before(words: &[u16], count: usize) -> Option<Change>
    requires { count ≤ length words.now }
    ensures { AllByRecursion (λ w. word_minute w < 1440) words.now
        → result ≡ option_map change_of (word_before words.now count) }
{
    if count == 0 {
        return None;
    }
    decode_change(words[count - 1]).ok()
}

/// The minute of the first word behind so many, 1440 behind all.
fn end_behind(words: &[u16], count: usize) -> u32
    requires { count ≤ length words.now }
    ensures { result ≡ first_minute (drop count words.now) }
{
    if count == words.len() {
        return DAY_MINUTES;
    }
    minute_of(words[count])
}
