//! Packets out of a stream of bytes, each behind its length in two bytes, the highest first.
ghost use Rattle.std.specs.Prelude.{◌≡◌, ◌<◌, ◌≤◌, ◌++◌, ◌==◌, [], ◌∷◌, drop, length};
ghost use Rattle.card_service.specs.Packets.{is_whole, packet, IsPart};

use arrayvec::ArrayVec;
use byteorder::{BigEndian, ByteOrder};
use std::marker::Model;

/// How many bytes a packet has at most: as many as its length can tell.
pub const LONGEST: usize = 65535;

/// For how many bytes there is room: those of the longest packet, behind its length.
pub const ROOM: usize = 65537;

/// How many bytes an answer has at most: 256 of data, and the status word.
pub const ANSWER_MOST: usize = 258;

/// What has come of the next packet, with its length.
#[derive(Drop)]
pub struct Gathering {
    kept: ArrayVec<u8, ROOM>,
}

impl Model for Gathering {
    ghost use Rattle.std.specs.Prelude.{List, ℕ};

    ghost Value = { List ℕ };

    ghost view = { λ g. g.kept.items };
}

impl Gathering {
    /// Nothing has come.
    pub fn new() -> Gathering
        ensures { result ≡ [] }
    {
        Gathering {
            kept: ArrayVec::new(),
        }
    }

    /// A byte more comes. It tells whether the packet is whole.
    pub fn take(&mut self, byte: u8) -> bool
        requires { length self.old < ROOM }
        ensures grown { self.new ≡ self.old ++ byte ∷ [] }
        ensures whole { result ≡ is_whole self.new }
    {
        self.kept.push(byte);
        is_whole(self.kept.as_slice())
    }

    /// Whether nothing has come.
    pub fn is_empty(&self) -> bool
        ensures { result ≡ (length self.now == 0) }
    {
        self.kept.is_empty()
    }

    /// The bytes behind the length.
    pub fn bytes(&self) -> &[u8]
        ensures { result.now ≡ drop 2 self.now }
    {
        let kept = self.kept.as_slice();
        if kept.len() < 2 {
            return &[];
        }
        &kept[2..]
    }

    /// The next packet begins.
    pub fn clear(&mut self)
        ensures { self.new ≡ [] }
    {
        self.kept.clear();
    }
}

/// Whether bytes are a whole packet, of which all but the last were a part.
fn is_whole(kept: &[u8]) -> bool
    ensures { result ≡ is_whole kept.now }
{
    if kept.len() < 2 {
        return false;
    }
    let size = BigEndian::read_u16(kept);
    kept.len() - 2 == size as usize
}

/// A packet of at most 258 bytes, behind its length.
pub fn write_packet(bytes: &[u8]) -> ArrayVec<u8, 260>
    requires { length bytes.now ≤ ANSWER_MOST }
    ensures { result.items ≡ packet bytes.now }
{
    let [high, low] = (bytes.len() as u16).to_be_bytes();
    let mut whole = ArrayVec::new();
    whole.push(high);
    whole.push(low);
    let _ = whole.try_extend_from_slice(bytes);
    whole
}
