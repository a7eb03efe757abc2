//! Entries of Vehicles_Used.
ghost use Rattle.std.specs.Prelude.{◌≡◌, ◌^◌, ◌<◌, length};
ghost use Rattle.card_files.specs.Vehicles.{vehicle_bytes, vehicle_of};

use tacho_types::{
    Odometer, Registration, TimeReal, read_odometer, read_registration, read_time, write_odometer,
    write_registration, write_time,
};

/// A use of a vehicle (Appendix 1, CardVehicleRecord).
#[derive(Clone, Copy, Debug, Default, PartialEq, Eq)]
pub struct Vehicle {
    pub odometer_begin: Odometer,
    pub odometer_end: Odometer,
    pub first_use: TimeReal,
    pub last_use: TimeReal,
    pub registration: Registration,
    /// The counter of the unit's data blocks, two bytes of decimal digits, as it is read unjudged.
    pub counter: [u8; 2],
}

impl Vehicle {
    /// Its size in bytes.
    pub const SIZE: usize = 31;
}

/// The vehicle entry in 31 bytes.
#[tactic(auto, unfolding(crate::specs::Vehicles::vehicle_bytes, crate::specs::Vehicles::vehicle_of))]
pub fn read_vehicle(b: &[u8]) -> Vehicle
    requires { length b.now ≡ 31 }
    ensures value { result ≡ vehicle_of b.now }
    ensures bytes { vehicle_bytes result ≡ b.now }
    ensures begin_fits { result.odometer_begin.0 < 2 ^ 24 }
    ensures end_fits { result.odometer_end.0 < 2 ^ 24 }
{
    let (odometer_begin, b) = b.split_at(Odometer::SIZE);
    let (odometer_end, b) = b.split_at(Odometer::SIZE);
    let (first_use, b) = b.split_at(TimeReal::SIZE);
    let (last_use, b) = b.split_at(TimeReal::SIZE);
    let (registration, rest) = b.split_at(Registration::SIZE);
    let mut counter = [0; 2];
    counter.copy_from_slice(rest);
    Vehicle {
        odometer_begin: read_odometer(odometer_begin),
        odometer_end: read_odometer(odometer_end),
        first_use: read_time(first_use),
        last_use: read_time(last_use),
        registration: read_registration(registration),
        counter,
    }
}

/// Writes a vehicle entry into 31 bytes.
#[tactic(auto, unfolding(crate::specs::Vehicles::vehicle_bytes, crate::specs::Vehicles::vehicle_of))]
pub fn write_vehicle(v: &Vehicle, out: &mut [u8])
    requires begin_fits { v.now.odometer_begin.0 < 2 ^ 24 }
    requires end_fits { v.now.odometer_end.0 < 2 ^ 24 }
    requires size { length out.old ≡ 31 }
    ensures bytes { out.new ≡ vehicle_bytes v.now }
    ensures reads_back { vehicle_of out.new ≡ v.now }
{
    let (odometer_begin, out) = out.split_at_mut(Odometer::SIZE);
    write_odometer(v.odometer_begin, odometer_begin);
    let (odometer_end, out) = out.split_at_mut(Odometer::SIZE);
    write_odometer(v.odometer_end, odometer_end);
    let (first_use, out) = out.split_at_mut(TimeReal::SIZE);
    write_time(v.first_use, first_use);
    let (last_use, out) = out.split_at_mut(TimeReal::SIZE);
    write_time(v.last_use, last_use);
    let (registration, counter) = out.split_at_mut(Registration::SIZE);
    write_registration(&v.registration, registration);
    counter.copy_from_slice(&v.counter);
}
