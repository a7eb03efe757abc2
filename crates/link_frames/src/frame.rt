//! A frame by its data, and what is heard of one.
ghost use Rattle.std.specs.Prelude.{◌≡◌, ◌<◌, ◌≤◌, length};
ghost use Rattle.link_model.specs.declared.lengths.TheConstants.{FRAME_MOST};

use arrayvec::ArrayVec;
use link_model::lengths::FRAME_MOST;
use std::marker::Model;

/// For how many bytes of data a frame has room.
pub const ROOM: usize = FRAME_MOST as usize;

/// The data of a frame: 1 to 255 bytes.
#[derive(Drop)]
pub struct Frame {
    bytes: ArrayVec<u8, ROOM>,
}

impl Model for Frame {
    ghost use Rattle.std.specs.Prelude.{ℕ, List, ◌<◌, ◌≤◌, length};
    ghost use Rattle.link_model.specs.declared.lengths.TheConstants.{FRAME_MOST};

    ghost Value = { List ℕ };

    ghost view = { λ f. f.bytes.items };

    ghost invariant = { λ f. (0 < length f.bytes.items) × (length f.bytes.items ≤ FRAME_MOST) };
}

impl Frame {
    /// A frame with this data.
    pub fn new(bytes: &[u8]) -> Frame
        requires some { 0 < length bytes.now }
        requires few { length bytes.now ≤ FRAME_MOST }
        ensures { result ≡ bytes.now }
    {
        Frame { bytes: held(bytes) }
    }

    /// The data.
    pub fn bytes(&self) -> &[u8]
        ensures value { result.now ≡ self.now }
        ensures some { 0 < length result.now }
        ensures few { length result.now ≤ FRAME_MOST }
    {
        self.bytes.as_slice()
    }
}

/// These bytes, for which there is room.
fn held(bytes: &[u8]) -> ArrayVec<u8, ROOM>
    requires { length bytes.now ≤ FRAME_MOST }
    ensures { result.items ≡ bytes.now }
{
    let mut room = ArrayVec::new();
    let _ = room.try_extend_from_slice(bytes);
    room
}

/// What is heard of a frame.
#[derive(Drop)]
pub enum Seen {
    /// A frame whose sum is right.
    Whole(Frame),
    /// The sum is wrong; this is the first data byte.
    BadSum(u8),
}
