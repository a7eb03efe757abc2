//! Packets as bytes.
ghost use Rattle.std.specs.Prelude.{◌≡◌, ◌≤◌, IfSome, Some, length};
ghost use Rattle.link_model.specs.declared.lengths.TheConstants.{FRAME_MOST};
ghost use Rattle.noisy_model.specs.Packets.{packet_bytes, packet_in, frame_in, data_of, number_bytes, number_in};

use arrayvec::ArrayVec;
use byteorder::{BigEndian, ByteOrder};
use link_frames::Frame;
use noisy_model::{PACKET_HEADER, PACKET_MOST, PACKET_START, Packet};

// How many bytes stand before a packet's data.
const HEADER: usize = PACKET_HEADER as usize;

/// For how many bytes of a packet there is room.
pub const ROOM: usize = PACKET_MOST as usize;

/// The bytes of a packet: 4E, its number, and the data of its frame, if it has one.
pub fn write_packet(packet: &Packet) -> ArrayVec<u8, ROOM>
    ensures { result.items ≡ packet_bytes packet.now }
{
    let mut bytes = ArrayVec::new();
    bytes.push(PACKET_START);
    let _ = bytes.try_extend_from_slice(&number_bytes(packet.number));
    let _ = bytes.try_extend_from_slice(data_of(&packet.frame));
    bytes
}

/// The packet that these bytes are; `None` exactly where they are none.
pub fn read_packet(bytes: &[u8]) -> Option<Packet>
    ensures { result ≡ packet_in bytes.now }
{
    if bytes.len() < HEADER || bytes.len() > ROOM || bytes[0] != PACKET_START {
        return None;
    }
    let number = number_in(&bytes[1..]);
    let frame = frame_in(&bytes[HEADER..]);
    Some(Packet { number, frame })
}

/// A number as eight bytes.
fn number_bytes(number: u64) -> [u8; 8]
    ensures value { result ≡ number_bytes number }
    ensures eight { length result ≡ 8 }
{
    let mut bytes = [0u8; 8];
    BigEndian::write_u64(&mut bytes, number);
    bytes
}

/// The number in the first eight bytes.
fn number_in(bytes: &[u8]) -> u64
    requires { 8 ≤ length bytes.now }
    ensures { result ≡ number_in bytes.now }
{
    BigEndian::read_u64(bytes)
}

/// The data of a frame, if there is one.
fn data_of(frame: &Option<Frame>) -> &[u8]
    ensures value { result.now ≡ data_of frame.now }
    ensures few { length result.now ≤ FRAME_MOST }
{
    match frame {
        Some(frame) => frame.bytes(),
        None => &[],
    }
}

/// The frame with this data, if there is any.
fn frame_in(bytes: &[u8]) -> Option<Frame>
    requires { length bytes.now ≤ FRAME_MOST }
    ensures { result ≡ frame_in bytes.now }
{
    if bytes.is_empty() {
        return None;
    }
    Some(Frame::new(bytes))
}
