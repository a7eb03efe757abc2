//! Datagrams out of a stream of bytes.
ghost use Rattle.std.specs.Prelude.{◌≡◌, ◌<◌, ◌≤◌, ◌++◌, [], ◌∷◌, drop, length};
ghost use Rattle.packet_service.specs.Datagrams.{gathered, gathered_by, datagram};

use arrayvec::ArrayVec;
use byteorder::{BigEndian, ByteOrder};
use noisy_model::PACKET_MOST;
use std::marker::Model;

/// How many bytes a datagram has at most: those of the longest packet.
pub const LONGEST: usize = PACKET_MOST as usize;

/// For how many bytes there is room: those of the longest datagram, behind its length.
pub const ROOM: usize = LONGEST + 2;

/// What a datagram is with a byte more.
#[derive(Clone, Copy, Debug, PartialEq, Eq)]
pub enum Gathered {
    /// Some of it are still to come.
    More,
    /// It is whole.
    Whole,
    /// Its length is more than 264.
    TooLong,
}

/// What has come of the next datagram, with its length.
#[derive(Drop)]
pub struct Gathering {
    kept: ArrayVec<u8, ROOM>,
}

impl Model for Gathering {
    ghost use Rattle.std.specs.Prelude.{List, ℕ};

    ghost Value = { List ℕ };

    ghost view = { λ g. g.kept.items };
}

impl Gathering {
    /// Nothing has come.
    pub fn new() -> Gathering
        ensures { result ≡ [] }
    {
        Gathering {
            kept: ArrayVec::new(),
        }
    }

    /// A byte more comes.
    pub fn take(&mut self, byte: u8) -> Gathered
        requires { length self.old < ROOM }
        ensures grown { self.new ≡ self.old ++ byte ∷ [] }
        ensures gathered { result ≡ gathered self.new }
    {
        self.kept.push(byte);
        told_by(self.kept.as_slice())
    }

    /// The bytes behind the length.
    pub fn bytes(&self) -> &[u8]
        ensures { result.now ≡ drop 2 self.now }
    {
        let kept = self.kept.as_slice();
        if kept.len() < 2 {
            return &[];
        }
        &kept[2..]
    }

    /// The next datagram begins.
    pub fn clear(&mut self)
        ensures { self.new ≡ [] }
    {
        self.kept.clear();
    }
}

/// What bytes are, of which all but the last were a part.
fn told_by(kept: &[u8]) -> Gathered
    ensures { result ≡ gathered kept.now }
{
    if kept.len() < 2 {
        return Gathered::More;
    }
    let size = BigEndian::read_u16(kept);
    gathered_by(size as usize, kept.len() - 2)
}

/// By the length that is told, and how many bytes are there.
fn gathered_by(size: usize, count: usize) -> Gathered
    ensures { result ≡ gathered_by size count }
{
    if size > LONGEST {
        return Gathered::TooLong;
    }
    if count == size {
        return Gathered::Whole;
    }
    Gathered::More
}

/// A datagram behind its length in two bytes, the highest first.
pub fn write_datagram(bytes: &[u8]) -> ArrayVec<u8, ROOM>
    requires { length bytes.now ≤ LONGEST }
    ensures { result.items ≡ datagram bytes.now }
{
    let [high, low] = (bytes.len() as u16).to_be_bytes();
    let mut whole = ArrayVec::new();
    whole.push(high);
    whole.push(low);
    let _ = whole.try_extend_from_slice(bytes);
    whole
}
