//! What events tell. A second is counted from 1970-01-01 00:00 GMT.

/// From one second to another, both included.
#[derive(Clone, Copy, Debug, PartialEq, Eq)]
pub struct Span {
    /// Its first second.
    pub begin: u32,
    /// Its last second.
    pub end: u32,
}

/// An over speeding.
#[derive(Clone, Copy, Debug, PartialEq, Eq)]
pub struct Over {
    /// Its first second.
    pub begin: u32,
    /// Its last second.
    pub end: u32,
    /// The highest speed, in km/h.
    pub most: u8,
    /// The average speed, in km/h, rounded down.
    pub average: u8,
}

/// What decides on the place of an event: a place for events is empty where `begin` is 0.
#[derive(Clone, Copy, Debug, Default, PartialEq, Eq)]
pub struct Held {
    /// Its first second.
    pub begin: u32,
    /// Its last second.
    pub end: u32,
    /// The average speed of an over speeding, in km/h; not looked at for other types.
    pub weight: u8,
}
