//! What a journal remembers of the image.
ghost use Rattle.std.specs.Prelude.{◌≡◌, ◌≤◌, ◌+◌, min, None};
ghost use Rattle.unit_model.specs.declared.layout.TheConstants.{DAY_SLOTS};
ghost use Rattle.unit_minutes.specs.Minute.{notes_by};

use crate::bits::SlotBits;
use crate::coming::Coming;
use unit_model::layout::DAY_SLOTS;

/// What a journal keeps of the image: the last-kept minute, the odometer, and of the last-kept minute's day its slot's
/// index, how many words it has, and the bits of the states after them. As it was found: the index of a later day, and
/// the stored count. And how many days are recorded, that day with them.
#[derive(Clone, Copy, Debug, PartialEq, Eq)]
pub struct Notes {
    pub kept: u32,
    pub odometer: u32,
    pub index: u32,
    pub count: u32,
    pub bits: SlotBits,
    pub stray: Option<u32>,
    pub stored: u32,
    pub day_count: u32,
}

impl Notes {
    /// After a minute on the same day, which has so many words then.
    pub fn on_day(&self, coming: Coming, count: u32) -> Notes
        ensures { result ≡ notes_by self.now.index self.now.day_count coming count }
    {
        Notes {
            kept: coming.minute,
            odometer: coming.odometer,
            index: self.index,
            count,
            bits: coming.bits,
            stray: None,
            stored: count,
            day_count: self.day_count,
        }
    }

    /// After a minute on a new day, whose slot has this index and which has so many words.
    pub fn on_new_day(&self, index: u32, coming: Coming, count: u32) -> Notes
        requires { self.now.day_count ≤ DAY_SLOTS }
        ensures { result ≡ notes_by index (min (self.now.day_count + 1) DAY_SLOTS) coming count }
    {
        let day_count = (self.day_count + 1).min(DAY_SLOTS);
        Notes {
            kept: coming.minute,
            odometer: coming.odometer,
            index,
            count,
            bits: coming.bits,
            stray: None,
            stored: count,
            day_count,
        }
    }
}
