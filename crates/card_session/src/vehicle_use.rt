//! What a session writes of the use of a vehicle (Annex IB, Appendix 1, CardVehicleRecord; when an entry goes on:
//! profile).
ghost use Rattle.std.specs.Prelude.{◌≡◌, ◌*◌, ◌≤◌};
ghost use Rattle.card_session.specs.Books.{goes_on_in, next_count, vehicle_counter, begun_vehicle, measured, used};
ghost use Rattle.card_validity.specs.card_image.Fields.{last_use_of};
ghost use Rattle.card_session.specs.declared.words.TheConstants.{LATEST_MINUTE};

use activity_codec::{DAY_MINUTES, DAY_SECONDS, MINUTE_SECONDS};
use card_files::Vehicle;
use tacho_types::{Bcd2, Odometer, Registration, TimeReal, read_bcd2, write_bcd2};

/// When a vehicle was last used, in seconds since 1970-01-01; 0 without one.
pub fn last_use(vehicle: &Option<Vehicle>) -> u32
    ensures { result ≡ last_use_of vehicle.now }
{
    match vehicle {
        None => 0,
        Some(vehicle) => vehicle.last_use.0,
    }
}

/// Whether a vehicle entry goes on with a minute: it has this registration, and begins in the minute's day.
pub fn goes_on(vehicle: &Vehicle, registration: &Registration, minute: u32) -> bool
    ensures { result ≡ goes_on_in registration.now minute vehicle.now }
{
    vehicle.registration == *registration
        && vehicle.first_use.0 / DAY_SECONDS == minute / DAY_MINUTES
}

/// The counter behind that of the newest vehicle entry: 1 without one, or where that is not decimal; 9999 is followed
/// by 0.
pub fn counter_behind(newest: &Option<Vehicle>) -> [u8; 2]
    ensures { result ≡ vehicle_counter newest.now }
{
    let mut bytes = [0; 2];
    write_bcd2(Bcd2(next_count(newest)), &mut bytes);
    bytes
}

fn next_count(newest: &Option<Vehicle>) -> u16
    ensures count { result ≡ next_count newest.now }
    ensures few { result ≤ 9999 }
{
    let Some(vehicle) = newest else {
        return 1;
    };
    match read_bcd2(&vehicle.counter) {
        Err(_) => 1,
        Ok(count) if count.0 == 9999 => 0,
        Ok(count) => count.0 + 1,
    }
}

/// A vehicle entry that begins with a minute.
pub fn begun(
    registration: Registration,
    odometer: Odometer,
    minute: u32,
    counter: [u8; 2],
) -> Vehicle
    requires { minute ≤ LATEST_MINUTE }
    ensures { result ≡ begun_vehicle registration odometer.0 minute counter }
{
    let time = TimeReal(MINUTE_SECONDS * minute);
    Vehicle {
        odometer_begin: odometer,
        odometer_end: odometer,
        first_use: time,
        last_use: time,
        registration,
        counter,
    }
}

/// A vehicle entry with another odometer value at its end.
pub fn measured(vehicle: Vehicle, odometer: Odometer) -> Vehicle
    ensures { result ≡ measured odometer.0 vehicle }
{
    Vehicle {
        odometer_end: odometer,
        ..vehicle
    }
}

/// A vehicle entry with another last use.
pub fn used(vehicle: Vehicle, seconds: u32) -> Vehicle
    ensures { result ≡ used seconds vehicle }
{
    Vehicle {
        last_use: TimeReal(seconds),
        ..vehicle
    }
}
