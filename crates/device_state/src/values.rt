//! Values that may be none.
ghost use Rattle.std.specs.Prelude.{◌≡◌};
ghost use Rattle.device_state.specs.Values as spec;

use activity_codec::DAY_SECONDS;
use card_files::Vehicle;
use state_text::{Value, day_of};
use tacho_types::DAYS;

/// The least second with which a trace may begin.
const FIRST_START: u32 = DAY_SECONDS;

/// The greatest one.
const LAST_START: u32 = 4294880895;

/// A value on a day that a time of four bytes can name; any other is not told.
fn dated(value: Value) -> Value
    ensures { result ≡ spec.dated value }
{
    if day_of(&value) < DAYS {
        value
    } else {
        Value::Nothing
    }
}

/// A minute, of which 0 is none.
pub(crate) fn minute_value(minute: u32) -> Value
    ensures { result ≡ spec.minute_value minute }
{
    if minute == 0 {
        return Value::Nothing;
    }
    dated(Value::Minute(minute))
}

/// A second, of which 0 is none.
pub(crate) fn second_value(second: u32) -> Value
    ensures { result ≡ spec.second_value second }
{
    if second == 0 {
        return Value::Nothing;
    }
    dated(Value::Second(second))
}

/// A day by its first second, if there is one.
pub(crate) fn day_value(date: Option<u32>) -> Value
    ensures { result ≡ spec.day_value date }
{
    match date {
        None => Value::Nothing,
        Some(second) => dated(Value::Day(second / DAY_SECONDS)),
    }
}

/// The earliest second with which a next trace may begin: that of the minute behind the last-kept one.
pub(crate) fn start_value(kept: u32) -> Value
    ensures { result ≡ spec.start_value kept }
{
    let start = u64::from(FIRST_START).max(60 * (u64::from(kept) + 1));
    if start > u64::from(LAST_START) {
        return Value::Nothing;
    }
    Value::Count(start as u32)
}

/// When the vehicle of the newest use was used last.
pub(crate) fn use_value(vehicle: Option<Vehicle>) -> Value
    ensures { result ≡ spec.use_value vehicle }
{
    match vehicle {
        None => Value::Nothing,
        Some(vehicle) => second_value(vehicle.last_use.0),
    }
}

/// Its registration.
pub(crate) fn vehicle_value(vehicle: Option<Vehicle>) -> Value
    ensures { result ≡ spec.vehicle_value vehicle }
{
    match vehicle {
        None => Value::Nothing,
        Some(vehicle) => Value::Plate(vehicle.registration),
    }
}
