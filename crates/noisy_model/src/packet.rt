//! What goes over a noisy link, and the bytes of it (profile).
use link_frames::Frame;

/// The first byte of a packet.
pub const PACKET_START: u8 = 0x4E;
/// How many bytes stand before a packet's data: 4E, and its number in eight bytes.
pub const PACKET_HEADER: u32 = 9;
/// How many bytes a packet has at most: behind its header stand up to 255 of a frame.
pub const PACKET_MOST: u32 = 264;

/// What goes over a noisy link: a frame's data behind a number, or the number alone.
#[derive(Drop)]
pub struct Packet {
    /// Its number: requests are numbered from 1 on, and an answer has the number of its request.
    pub number: u64,
    /// The frame's data; none where a request has no answer.
    pub frame: Option<Frame>,
}
