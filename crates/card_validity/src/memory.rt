//! The days of a string that lies in memory: reads of it do not fail.
ghost use Rattle.std.specs.Prelude.{◌≡◌, ◌≤◌, ◌<◌, ◌+◌, ◌^◌, length, slice_get, slice_index, IfSome};
ghost use Rattle.card_image.specs.card_model.Days.{Day};
ghost use Rattle.card_image.specs.card_model.Image.{IsAt};
ghost use Rattle.card_image.specs.card_model.Walk.{days_of};
ghost use Rattle.card_days.specs.Heads.{heads_of, IsAfter};
ghost use Rattle.card_validity.specs.Walks.{IsInMemory};

use card_days::{DayHead, Days};
use tach_media::SliceMedium;

/// The head of the oldest day, if there is one.
pub fn first(days: &Days, image: &[u8]) -> Option<DayHead>
    requires { IsInMemory days.now.shape image.now }
    ensures first { result ≡ slice_get (heads_of days.now.shape image.now (days_of days.now.shape image.now)) 0 }
    ensures place { IfSome result (λ h. h.place < days.now.shape.size) }
{
    let mut slice = SliceMedium::new(image);
    days.first(&mut slice).unwrap()
}

/// The head of the day after one that is there, if there is one.
pub fn after(days: &Days, image: &[u8], head: &DayHead) -> Option<DayHead>
    requires known { IsInMemory days.now.shape image.now }
    requires place { head.now.place < 4 + days.now.shape.size }
    ensures after { IsAfter days.now.shape image.now head.now result }
    ensures place { IfSome result (λ h. h.place < days.now.shape.size) }
{
    let mut slice = SliceMedium::new(image);
    days.after(&mut slice, head).unwrap()
}

/// A word of a day that is there, counted from 0.
pub fn word(days: &Days, image: &[u8], head: &DayHead, index: u16) -> u16
    requires known { IsInMemory days.now.shape image.now }
    requires place { head.now.place < 4 + days.now.shape.size }
    requires there { index < head.now.words }
    ensures { (d : Day) → IsAt days.now.shape image.now head.now.place d → index < length d.words
        → result ≡ slice_index d.words index }
{
    let mut slice = SliceMedium::new(image);
    days.word(&mut slice, head, index).unwrap()
}
