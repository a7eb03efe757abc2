//! The lines of a view (profile), as definitions over lists of minutes (specs/): which minutes stand on one line, and
//! the line's text. Here stand the values that they speak of.
#![tactic(auto)]

mod marks;

use activity_codec::{Activity, Slot};
pub use marks::{Distance, Gap, Mark, Sign};

/// What a minute knows of one slot.
#[derive(Clone, Copy, Debug, Default, PartialEq, Eq)]
pub struct State {
    /// The activity.
    pub act: Activity,
    /// Whether a card was present.
    pub present: bool,
}

/// What the view of a unit shows of a minute.
#[derive(Clone, Copy, Debug, Default, PartialEq, Eq)]
pub struct UnitShown {
    /// The driver slot.
    pub driver: State,
    /// The co-driver slot.
    pub codriver: State,
    /// Whether the minute is CREW; any other minute is SINGLE.
    pub crew: bool,
}

/// What the view of a card shows of a minute.
#[derive(Clone, Copy, Debug, Default, PartialEq, Eq)]
pub struct CardShown {
    /// The slot that the card was in.
    pub slot: Slot,
    /// The activity.
    pub act: Activity,
    /// Whether the minute is CREW; any other minute is SINGLE.
    pub crew: bool,
}

/// A minute of a view.
#[derive(Clone, Copy, Debug, Default, PartialEq, Eq)]
pub struct Viewed<T> {
    /// Its number: seconds since 1970-01-01 00:00 GMT, divided by 60.
    pub minute: u32,
    /// What is shown of it.
    pub shown: T,
}

/// A line of a view: minutes in a row, within a day, of which the same is shown.
#[derive(Clone, Copy, Debug, Default, PartialEq, Eq)]
pub struct Line<T> {
    /// The number of the first minute.
    pub first: u32,
    /// The number of the last minute.
    pub last: u32,
    /// What is shown of each.
    pub shown: T,
}
