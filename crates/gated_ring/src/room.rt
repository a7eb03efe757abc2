//! Where the next entry goes.

/// Where a ring has room for the next entry.
#[derive(Clone, Copy, Debug, PartialEq, Eq)]
pub struct Room {
    /// The pointer: the index of the newest entry.
    pub last: u32,
    /// The index that the next entry takes.
    pub index: u32,
    /// Whether an entry is there, which makes room.
    pub used: bool,
}
