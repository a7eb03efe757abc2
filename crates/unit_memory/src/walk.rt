//! The day slots of an image, one after another.
ghost use Rattle.std.specs.Prelude.{◌≡◌, ◌≤◌, ◌<◌, ◌+◌};
ghost use Rattle.unit_model.specs.declared.layout.TheConstants.{DAY_SLOTS};
ghost use Rattle.unit_memory.specs.Walks.{after_day, after_gap, next_walk};

use activity_codec::DAY_SECONDS;

/// How the day slots that are there stand so far, from the oldest place on.
#[derive(Clone, Copy, Debug, PartialEq, Eq)]
pub enum Density {
    /// None is there.
    Empty,
    /// They stand one after the other, up to the last place.
    Filled,
    /// They stand one after the other, up to the place before the last one.
    Ended,
    /// They don't.
    Broken,
}

/// What the dates of day slots say, as far as they were read: the latest date, the index and the date of the last slot
/// that is there, the index of the last-kept minute's day, how many are there, and how they stand. A date is 0 where
/// none is there.
#[derive(Clone, Copy, Debug, PartialEq, Eq)]
pub struct Walk {
    pub latest: u32,
    pub last_index: u32,
    pub last_date: u32,
    pub today: Option<u32>,
    pub there: u32,
    pub density: Density,
}

impl Walk {
    /// Before the first slot.
    pub const START: Walk = Walk {
        latest: 0,
        last_index: 0,
        last_date: 0,
        today: None,
        there: 0,
        density: Density::Empty,
    };
}

impl Density {
    /// With one slot more that is there.
    fn after_day(self) -> Density
        ensures { result ≡ after_day self }
    {
        match self {
            Density::Empty => Density::Filled,
            Density::Filled => Density::Filled,
            Density::Ended => Density::Broken,
            Density::Broken => Density::Broken,
        }
    }

    /// With one empty slot more.
    fn after_gap(self) -> Density
        ensures { result ≡ after_gap self }
    {
        match self {
            Density::Empty => Density::Empty,
            Density::Filled => Density::Ended,
            Density::Ended => Density::Broken,
            Density::Broken => Density::Broken,
        }
    }
}

/// With the slot of one index more, whose date this is.
pub fn next_walk(day: u32, walk: Walk, index: u32, date: u32) -> Walk
    requires { walk.there < DAY_SLOTS }
    ensures next { result ≡ next_walk day walk index date }
    ensures few { result.there ≤ walk.there + 1 }
{
    if date == 0 {
        return Walk {
            latest: walk.latest,
            last_index: walk.last_index,
            last_date: walk.last_date,
            today: walk.today,
            there: walk.there,
            density: walk.density.after_gap(),
        };
    }
    Walk {
        latest: walk.latest.max(date),
        last_index: index,
        last_date: date,
        today: if date / DAY_SECONDS == day {
            Some(index)
        } else {
            walk.today
        },
        there: walk.there + 1,
        density: walk.density.after_day(),
    }
}
