//! What was seen behind an image.

/// The bytes around a border of two sectors that a record is to write: three before it, and three behind it.
#[derive(Clone, Copy, Debug, PartialEq, Eq)]
pub struct Redo {
    pub place: u32,
    pub bytes: [u8; 6],
}

/// What stands behind an image.
#[derive(Clone, Copy, Debug, PartialEq, Eq)]
pub enum Found {
    /// It was not looked at since the last call that failed.
    Unknown,
    /// The gate is shut.
    Closed,
    /// The gate names a border, and around it stands neither what the record writes nor what was there before.
    Stale,
    /// A write that is to be done again.
    Open(Redo),
}
