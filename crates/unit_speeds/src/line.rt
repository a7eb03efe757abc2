//! What is told of a minute's speeds.
ghost use Rattle.std.specs.Prelude.{◌≡◌, ◌≤◌, length, sum, count_by, nat_lt};
ghost use Rattle.unit_speeds.specs.Speeds.{greater, most_of, line_of};

use byteorder::{BigEndian, ByteOrder};
use message_model::sizes::SPEED_BLOCK;

/// Where a block has its speeds, behind the number of its first second.
pub const SPEEDS: usize = 4;

/// What is told of a minute's speeds: its first second, the greatest and the mean one in km/h, and the seconds above 0.
#[derive(Clone, Copy, Debug, Default, PartialEq, Eq)]
pub struct SpeedLine {
    pub time: u32,
    pub most: usize,
    pub mean: usize,
    pub moving: usize,
}

/// What is told of a block.
pub(crate) fn line_of(block: &[u8]) -> SpeedLine
    requires { length block.now ≡ 64 }
    ensures { result ≡ line_of block.now }
{
    let speeds = &block[SPEEDS..SPEED_BLOCK as usize];
    SpeedLine {
        time: BigEndian::read_u32(&block[0..SPEEDS]),
        most: most_of(speeds) as usize,
        mean: sum_of(speeds) as usize / 60,
        moving: moving_in(speeds),
    }
}

/// The greatest of speeds, 0 where there is none.
fn most_of(speeds: &[u8]) -> u8
    ensures { result ≡ most_of speeds.now }
{
    let mut most = 0;
    for speed in speeds {
        most = greater(most, *speed);
    }
    most
}

/// The greater of two speeds.
fn greater(one: u8, other: u8) -> u8
    ensures { result ≡ greater one other }
{
    if one < other { other } else { one }
}

/// The sum of speeds.
fn sum_of(speeds: &[u8]) -> u32
    requires { length speeds.now ≤ 60 }
    ensures { result ≡ sum speeds.now }
{
    let total: u32 = speeds.iter().map(|speed| *speed as u32).sum();
    total
}

/// How many speeds are above 0.
fn moving_in(speeds: &[u8]) -> usize
    ensures { result ≡ count_by (λ speed. nat_lt 0 speed) speeds.now }
{
    speeds.iter().filter(|speed| **speed > 0).count()
}
