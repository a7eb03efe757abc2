//! The days of a card's string, which stands alone in a slice.
ghost use Rattle.std.specs.Prelude.{◌≡◌, ◌+◌, ◌*◌, ◌≤◌, ◌<◌, ◌^◌, ℕ, List, [], Some, length, IfOk, IfSome, slice_get};
ghost use Rattle.std.specs.Prelude.{slice_index};
ghost use Rattle.card_model.specs.Days.{Day};
ghost use Rattle.card_model.specs.Image.{HoldsDays, IsAt, IsStringShape};
ghost use Rattle.card_model.specs.Walk.{days_of};
ghost use Rattle.card_days.specs.Heads.{heads_of, IsAfter};
ghost use Rattle.file_view.specs.Deciding.{Decides};
ghost use Rattle.file_view.specs.Walking.{IsDayAt};

use crate::day_words::DayWords;
use card_days::{DayHead, Days};
use std::alloc::{AllocError, Global};
use tach_media::SliceMedium;

/// The heads of the days, oldest first.
///
/// # Errors
///
/// `AllocError` where memory runs out.
pub fn heads(alloc: Global, string: &Days, file: &[u8]) -> Result<Vec<DayHead>, AllocError>
    requires fits { 4 + string.now.shape.size ≤ length file.now }
    requires alone { string.now.shape.base ≡ 0 }
    requires short { length file.now < 2 ^ 32 }
    requires shape { IsStringShape string.now.shape }
    requires holds { HoldsDays string.now.shape file.now (days_of string.now.shape file.now) }
    ensures { IfOk result (λ heads. heads.items
        ≡ heads_of string.now.shape file.now (days_of string.now.shape file.now)) }
{
    let mut heads = Vec::new(alloc);
    let mut next = first_head(string, file);
    while let Some(head) = next {
        heads.push(head)?;
        next = head_after(string, file, &head);
    }
    Ok(heads)
}

/// The head of the oldest day.
fn first_head(string: &Days, file: &[u8]) -> Option<DayHead>
    requires fits { 4 + string.now.shape.size ≤ length file.now }
    requires alone { string.now.shape.base ≡ 0 }
    requires short { length file.now < 2 ^ 32 }
    ensures first { (days : List Day) → HoldsDays string.now.shape file.now days
        → result ≡ slice_get (heads_of string.now.shape file.now days) 0 }
    ensures place { IfSome result (λ h. h.place < string.now.shape.size) }
{
    let mut medium = SliceMedium::new(file);
    match string.first(&mut medium) {
        Ok(head) => head,
        Err(_) => None,
    }
}

/// The head of the day after one that is there.
fn head_after(string: &Days, file: &[u8], head: &DayHead) -> Option<DayHead>
    requires fits { 4 + string.now.shape.size ≤ length file.now }
    requires alone { string.now.shape.base ≡ 0 }
    requires short { length file.now < 2 ^ 32 }
    requires place { head.now.place < 4 + string.now.shape.size }
    ensures after { IsAfter string.now.shape file.now head.now result }
    ensures place { IfSome result (λ h. h.place < string.now.shape.size) }
{
    let mut medium = SliceMedium::new(file);
    match string.after(&mut medium, head) {
        Ok(head) => head,
        Err(_) => None,
    }
}

/// A word of a day that is there, counted from 0.
pub fn word(string: &Days, file: &[u8], head: &DayHead, index: u16) -> u16
    requires fits { 4 + string.now.shape.size ≤ length file.now }
    requires alone { string.now.shape.base ≡ 0 }
    requires short { length file.now < 2 ^ 32 }
    requires place { head.now.place < 4 + string.now.shape.size }
    requires there { index < head.now.words }
    ensures { (d : Day) → IsAt string.now.shape file.now head.now.place d → index < length d.words
        → result ≡ slice_index d.words index }
{
    let mut medium = SliceMedium::new(file);
    match string.word(&mut medium, head, index) {
        Ok(word) => word,
        Err(_) => 0,
    }
}

/// Which words of a day that is there decide its minutes.
pub fn words_of(string: &Days, file: &[u8], head: &DayHead) -> DayWords
    requires fits { 4 + string.now.shape.size ≤ length file.now }
    requires alone { string.now.shape.base ≡ 0 }
    requires short { length file.now < 2 ^ 32 }
    requires place { head.now.place < 4 + string.now.shape.size }
    ensures { (d : Day) → IsDayAt string.now.shape file.now head.now d → Decides result d.words }
{
    let mut words = DayWords::new();
    let mut left = head.words;
    while left > 0 {
        left -= 1;
        words.put_word(word(string, file, head, left));
    }
    words
}
