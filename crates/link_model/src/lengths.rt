//! How many bytes go in a frame (Annex IB, Appendix 7).

/// The most bytes of data that a frame has: its length is a byte.
pub const FRAME_MOST: u32 = 255;
/// How many bytes stand before a message's content: 76 and the message's number.
pub const MESSAGE_HEADER: u32 = 2;
/// The most bytes of a message's content that go in one frame (profile).
pub const WHOLE_MOST: u32 = 252;
/// The most bytes of a message's content that go in a piece (profile): 76, the number and the counter stand before
/// them.
pub const PIECE_MOST: u32 = 251;
