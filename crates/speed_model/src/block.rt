//! A minute's speeds.
use message_model::sizes::SPEED_BLOCK;
use unit_model::layout::SPEED_SLOTS;

/// A minute's speeds in km/h, second by second, and the number of its first second.
#[derive(Clone, Copy, Debug, PartialEq, Eq)]
pub struct Block {
    /// The number of its first second, from 1970-01-01 00:00 GMT: a multiple of 60.
    pub time: u32,
    /// The speeds in km/h, 0 to 255.
    pub speeds: [u8; 60],
}

/// The size of a block in bytes (Annex IB, Appendix 1, VuDetailedSpeedBlock).
pub const BLOCK_SIZE: u32 = SPEED_BLOCK;

/// How many blocks a unit has room for.
pub const BLOCK_SLOTS: u32 = SPEED_SLOTS;
