//! Entries of places where a daily work period begins or ends.
ghost use Rattle.std.specs.Prelude.{◌≡◌, ◌^◌, ◌<◌, length};
ghost use Rattle.tacho_types.specs.Places.{place_bytes, place_of};

use crate::card_number::Nation;
use crate::numbers::{Odometer, TimeReal, read_odometer, read_time, write_odometer, write_time};

/// The place where a daily work period begins or ends (Appendix 1, PlaceRecord).
#[derive(Clone, Copy, Debug, Default, PartialEq, Eq)]
pub struct PlaceEntry {
    pub time: TimeReal,
    /// 0 begin, 1 end; 2 begin and 3 end entered by hand; 4 begin and 5 end assumed by the unit.
    pub kind: u8,
    pub country: Nation,
    pub region: u8,
    pub odometer: Odometer,
}

impl PlaceEntry {
    /// Its size in bytes.
    pub const SIZE: usize = 10;
}

/// The place entry in 10 bytes.
pub fn read_place(b: &[u8]) -> PlaceEntry
    requires { length b.now ≡ 10 }
    ensures value { result ≡ place_of b.now }
    ensures bytes { place_bytes result ≡ b.now }
    ensures fits { result.odometer.0 < 2 ^ 24 }
{
    let (time, b) = b.split_at(TimeReal::SIZE);
    let (kinds, odometer) = b.split_at(3);
    PlaceEntry {
        time: read_time(time),
        kind: kinds[0],
        country: Nation(kinds[1]),
        region: kinds[2],
        odometer: read_odometer(odometer),
    }
}

/// Writes a place entry into 10 bytes.
pub fn write_place(v: &PlaceEntry, out: &mut [u8])
    requires fits { v.now.odometer.0 < 2 ^ 24 }
    requires size { length out.old ≡ 10 }
    ensures bytes { out.new ≡ place_bytes v.now }
    ensures reads_back { place_of out.new ≡ v.now }
{
    let (time, out) = out.split_at_mut(TimeReal::SIZE);
    write_time(v.time, time);
    let (kinds, odometer) = out.split_at_mut(3);
    kinds[0] = v.kind;
    kinds[1] = v.country.0;
    kinds[2] = v.region;
    write_odometer(v.odometer, odometer);
}
