//! Times, odometer values and distances.
ghost use Rattle.std.specs.Prelude.{◌≡◌, ◌^◌, ◌<◌, length};
ghost use Rattle.tacho_types.specs.Numbers.{time_bytes, time_of, odometer_bytes, odometer_of, distance_bytes};
ghost use Rattle.tacho_types.specs.Numbers.{distance_of};

use byteorder::{BigEndian, ByteOrder};

/// A time: seconds since 1970-01-01 00:00:00 GMT (Appendix 1, TimeReal).
#[derive(Clone, Copy, Debug, Default, PartialEq, Eq)]
pub struct TimeReal(pub u32);

impl TimeReal {
    /// Its size in bytes.
    pub const SIZE: usize = 4;
}

/// An odometer value in kilometres, below 2^24 (Appendix 1, OdometerShort).
#[derive(Clone, Copy, Debug, Default, PartialEq, Eq)]
pub struct Odometer(pub u32);

impl Odometer {
    /// Its size in bytes.
    pub const SIZE: usize = 3;
}

/// A distance in kilometres (Appendix 1, Distance).
#[derive(Clone, Copy, Debug, Default, PartialEq, Eq)]
pub struct Distance(pub u16);

impl Distance {
    /// Its size in bytes.
    pub const SIZE: usize = 2;
}

/// The time in four bytes.
pub fn read_time(b: &[u8]) -> TimeReal
    requires { length b.now ≡ 4 }
    ensures value { result ≡ time_of b.now }
    ensures bytes { time_bytes result ≡ b.now }
{
    TimeReal(BigEndian::read_u32(b))
}

/// Writes a time into four bytes.
pub fn write_time(v: TimeReal, out: &mut [u8])
    requires { length out.old ≡ 4 }
    ensures bytes { out.new ≡ time_bytes v }
    ensures reads_back { time_of out.new ≡ v }
{
    BigEndian::write_u32(out, v.0);
}

/// The odometer value in three bytes.
pub fn read_odometer(b: &[u8]) -> Odometer
    requires { length b.now ≡ 3 }
    ensures value { result ≡ odometer_of b.now }
    ensures bytes { odometer_bytes result ≡ b.now }
    ensures fits { result.0 < 2 ^ 24 }
{
    Odometer(BigEndian::read_u24(b))
}

/// Writes an odometer value into three bytes.
pub fn write_odometer(v: Odometer, out: &mut [u8])
    requires fits { v.0 < 2 ^ 24 }
    requires size { length out.old ≡ 3 }
    ensures bytes { out.new ≡ odometer_bytes v }
    ensures reads_back { odometer_of out.new ≡ v }
{
    BigEndian::write_u24(out, v.0);
}

/// The distance in two bytes.
pub fn read_distance(b: &[u8]) -> Distance
    requires { length b.now ≡ 2 }
    ensures value { result ≡ distance_of b.now }
    ensures bytes { distance_bytes result ≡ b.now }
{
    Distance(BigEndian::read_u16(b))
}

/// Writes a distance into two bytes.
pub fn write_distance(v: Distance, out: &mut [u8])
    requires { length out.old ≡ 2 }
    ensures bytes { out.new ≡ distance_bytes v }
    ensures reads_back { distance_of out.new ≡ v }
{
    BigEndian::write_u16(out, v.0);
}
