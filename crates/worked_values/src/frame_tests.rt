ghost use Rattle.std.specs.Prelude.{◌<◌};

use crate::checks::{same, same_bytes};
use link_frames::{End, Frame, Scanner, Seen, write_frame};
use std::alloc::Global;
use std::test::*;

// What one side hears of a stream that comes in pieces of so many bytes: each frame with its length before it, and 0
// with the first byte where the sum is wrong.
fn heard(alloc: Global, end: End, bytes: &[u8], piece: usize) -> Vec<u8>
    requires { 0 < piece }
{
    let mut scanner = Scanner::new(end);
    let mut heard = Vec::new(alloc);
    for part in bytes.chunks(piece) {
        let mut rest = part;
        for _ in 0..part.len() {
            let (taken, seen) = scanner.feed(rest);
            rest = &rest[taken..];
            match seen {
                Some(Seen::Whole(frame)) => {
                    let bytes = frame.bytes();
                    let _ = heard.push(bytes.len() as u8);
                    let _ = heard.extend_from_slice(bytes);
                }
                Some(Seen::BadSum(byte)) => {
                    let _ = heard.extend_from_slice(&[0, byte]);
                }
                None => break,
            }
        }
    }
    heard
}

// Bytes that are passed over, the start of communication, a frame with a wrong sum, a length of 0, and the end of
// communication at the second of two bytes 80.
const STREAM: [u8; 25] = [
    0x00, 0xEE, 0x81, 0xEE, 0xF0, 0x81, 0xE0, 0x80, 0xEE, 0xF0, 0x01, 0x82, 0xE2, 0x80, 0xEE, 0xF0,
    0x00, 0x5E, 0x80, 0x80, 0xEE, 0xF0, 0x01, 0x82, 0xE1,
];

#[test]
fn hears_in_any_pieces(rt: HostRuntime) {
    for piece in 1..26usize {
        let heard = heard(rt.alloc(), End::Unit, &STREAM, piece);
        same_bytes(&rt, heard.as_slice(), &[1, 0x81, 0, 0x82, 1, 0x82][..]);
    }
}

#[test]
fn writes_the_fixed_frames(rt: HostRuntime) {
    let start = write_frame(End::Loader, &Frame::new(&[0x81]));
    same_bytes(&rt, start.as_slice(), &[0x81, 0xEE, 0xF0, 0x81, 0xE0][..]);
    let answer = write_frame(End::Unit, &Frame::new(&[0xC1, 0xEA, 0x8F]));
    same_bytes(
        &rt,
        answer.as_slice(),
        &[0x80, 0xF0, 0xEE, 0x03, 0xC1, 0xEA, 0x8F, 0x9B][..],
    );
    let end = write_frame(End::Loader, &Frame::new(&[0x82]));
    same_bytes(
        &rt,
        end.as_slice(),
        &[0x80, 0xEE, 0xF0, 0x01, 0x82, 0xE1][..],
    );
}

#[test]
fn hears_the_longest_frame(rt: HostRuntime) {
    let longest = write_frame(End::Unit, &Frame::new(&[0xFF; 255]));
    let heard = heard(rt.alloc(), End::Loader, longest.as_slice(), 260);
    same(&rt, &heard.len(), &256);
}
