//! What stands in a view beside its minutes: marks, gaps and distances of days.
use activity_codec::Activity;

/// What a mark tells of.
#[derive(Clone, Copy, Debug, PartialEq, Eq)]
pub enum Sign {
    /// A daily work period begins.
    Begin,
    /// A daily work period ends.
    End,
    /// An event.
    Event,
    /// A fault.
    Fault,
    /// A driver has entered by hand what he did without his card.
    ByHand(Activity),
}

/// A mark: a place that was entered, an event, a fault or an entry by hand.
#[derive(Clone, Copy, Debug, PartialEq, Eq)]
pub struct Mark {
    pub sign: Sign,
    /// Of a place its country, of an event or a fault its type, of an entry by hand 0.
    pub code: u8,
    /// When the place was entered, or the event or what was entered by hand began, in seconds since 1970-01-01 00:00
    /// GMT.
    pub second: u32,
}

/// Minutes in a row without power: the first, and the one behind the last, by their numbers since 1970-01-01 00:00 GMT.
#[derive(Clone, Copy, Debug, Default, PartialEq, Eq)]
pub struct Gap {
    pub first: u32,
    pub behind: u32,
}

/// The distance of a day.
#[derive(Clone, Copy, Debug, Default, PartialEq, Eq)]
pub struct Distance {
    /// The day's number since 1970-01-01.
    pub day: u32,
    /// Kilometres.
    pub km: u32,
}
