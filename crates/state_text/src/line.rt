//! The lines that are told of a device.
ghost use Rattle.std.specs.Prelude.{◌≡◌};
ghost use Rattle.run_model.specs.Names.{device_name};
ghost use Rattle.state_text.specs.Lines.{name_text, rule_name, day_of};

use activity_codec::{DAY_MINUTES, DAY_SECONDS};
use minute_model::Rule;
use run_model::Device;
use tacho_types::{FullCardNumber, Name36, Registration};

/// What is told of a device.
#[derive(Clone, Copy, Debug)]
pub struct Line {
    pub device: Device,
    pub name: Name,
    pub value: Value,
}

/// What a line tells of.
#[derive(Clone, Copy, Debug)]
pub enum Name {
    /// The device itself: whether it can be read, and whether it is valid.
    Whole,
    /// The version of a unit's image.
    Version,
    /// The rule of minutes by which a run of a unit goes.
    RuleOfMinutes,
    /// The vehicle's identification number.
    VehicleNumber,
    /// The registration of a unit's vehicle.
    Plate,
    /// The speed limit, in km/h.
    Limit,
    /// The odometer, in kilometres.
    Odometer,
    /// A unit's last-kept minute.
    LastKept,
    /// The earliest `start` of a next trace, in seconds since 1970-01-01 00:00 GMT.
    NextStart,
    /// The first day that a unit has.
    FirstDay,
    /// The last one.
    LastDay,
    /// How many days it has.
    Days,
    /// What a unit owes to a card.
    Owed,
    /// A card's number.
    Number,
    /// The holder's surname.
    Surname,
    /// The holder's first names.
    FirstNames,
    /// When a card was used last.
    LastUse,
    /// The registration of the vehicle of a card's newest use.
    Vehicle,
    /// When a card's open session began.
    Session,
    /// A card's newest minute.
    Newest,
}

/// How many minutes a unit owes to the card of a number.
#[derive(Clone, Copy, Debug)]
pub struct OwedTo {
    pub card: FullCardNumber,
    pub minutes: u32,
}

/// What a line tells.
#[derive(Clone, Copy, Debug)]
pub enum Value {
    /// The device is valid.
    Valid,
    /// It is not there, or can't be read.
    Unread,
    /// A unit whose image does not decode: the place of the first field, in order of places, that fails.
    BadAt(u32),
    /// A card of which this field of Application_Identification, from 1, is the first that is out of its range.
    BadField(u8),
    /// A card that is not valid: the file that first fails its checks, and the place in it.
    BadFile { fid: u16, place: u32 },
    /// There is none.
    Nothing,
    Count(u32),
    ByRule(Rule),
    Vin([u8; 17]),
    Plate(Registration),
    Card(FullCardNumber),
    Holder(Name36),
    Owed(OwedTo),
    /// A day, by its number since 1970-01-01.
    Day(u32),
    /// A minute, by its number since 1970-01-01 00:00 GMT.
    Minute(u32),
    /// A second since then.
    Second(u32),
}

/// What a device is called.
pub(crate) fn device_name(device: Device) -> &'static [u8]
    ensures { result.now ≡ device_name device }
{
    match device {
        Device::Unit => b"unit",
        Device::CardA => b"card-a",
        Device::CardB => b"card-b",
    }
}

/// What stands behind a device's name.
pub(crate) fn name_text(name: Name) -> &'static [u8]
    ensures { result.now ≡ name_text name }
{
    match name {
        Name::Whole => b"",
        Name::Version => b"-version",
        Name::RuleOfMinutes => b"-rule",
        Name::VehicleNumber => b"-vin",
        Name::Plate => b"-plate",
        Name::Limit => b"-limit",
        Name::Odometer => b"-odometer",
        Name::LastKept => b"-last-kept",
        Name::NextStart => b"-next-start",
        Name::FirstDay => b"-first-day",
        Name::LastDay => b"-last-day",
        Name::Days => b"-days",
        Name::Owed => b"-owed",
        Name::Number => b"-number",
        Name::Surname => b"-surname",
        Name::FirstNames => b"-first-names",
        Name::LastUse => b"-last-use",
        Name::Vehicle => b"-vehicle",
        Name::Session => b"-session",
        Name::Newest => b"-newest",
    }
}

/// What a rule is called.
pub(crate) fn rule_name(rule: Rule) -> &'static [u8]
    ensures { result.now ≡ rule_name rule }
{
    match rule {
        Rule::Original => b"original",
        Rule::Amended => b"amended",
    }
}

/// The day on which a value lies, by its number since 1970-01-01; 0 where it lies on none.
pub fn day_of(value: &Value) -> u32
    ensures { result ≡ day_of value.now }
{
    match value {
        Value::Day(day) => *day,
        Value::Minute(minute) => *minute / DAY_MINUTES,
        Value::Second(second) => *second / DAY_SECONDS,
        _ => 0,
    }
}
