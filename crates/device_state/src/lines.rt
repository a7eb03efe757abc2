//! The lines of what devices tell.
ghost use Rattle.std.specs.Prelude.{◌≡◌, ◌++◌, IfOk, OnOk};
ghost use Rattle.std.specs.List.{flat_map};
ghost use Rattle.state_text.specs.Lines.{AreDated};
ghost use Rattle.state_text.specs.Text.{AreLinesText};
ghost use Rattle.device_state.specs.Lines as spec;

use crate::card::CardFault;
use crate::devices::DevicesTold;
use crate::unit::UnitTold;
use crate::values::{day_value, minute_value, second_value, start_value, use_value, vehicle_value};
use card_validity::CardLook;
use run_model::Device;
use state_text::{Line, Name, OwedTo, Value, lines_text};
use std::alloc::{AllocError, Global};
use unit_memory::UnitFault;

/// The text of what the three devices tell.
///
/// # Errors
///
/// `AllocError` where memory runs out.
pub fn state_text(alloc: Global, told: &DevicesTold) -> Result<Vec<u8>, AllocError>
    ensures { IfOk result (λ text. AreLinesText (spec.state_lines told.now) text.items) }
{
    let lines = state_lines(alloc, told)?;
    lines_text(alloc, lines.as_slice())
}

/// The lines of what they tell: of the unit, of card a and of card b.
fn state_lines(alloc: Global, told: &DevicesTold) -> Result<Vec<Line>, AllocError>
    ensures lines { IfOk result (λ lines. lines.items ≡ spec.state_lines told.now) }
    ensures dated { IfOk result (λ lines. AreDated lines.items) }
{
    let mut lines = Vec::new(alloc);
    add_unit(&mut lines, &told.unit)?;
    add_card(&mut lines, Device::CardA, &told.card_a)?;
    add_card(&mut lines, Device::CardB, &told.card_b)?;
    Ok(lines)
}

/// Adds the lines of what a unit tells, or the one that says why it tells nothing.
fn add_unit(lines: &mut Vec<Line>, unit: &Result<UnitTold, UnitFault>) -> Result<(), AllocError>
    ensures { OnOk result (lines.new.items ≡ lines.old.items ++ spec.lines_of_unit unit.now) }
{
    match unit {
        Ok(told) => add_told(lines, told),
        Err(UnitFault::Failed) => add_whole(lines, Device::Unit, Value::Unread),
        Err(UnitFault::BadUnit(place)) => add_whole(lines, Device::Unit, Value::BadAt(*place)),
    }
}

/// Adds the lines of what a card tells, or the one that says why it tells nothing.
fn add_card(
    lines: &mut Vec<Line>,
    device: Device,
    card: &Result<CardLook, CardFault>,
) -> Result<(), AllocError>
    ensures { OnOk result (lines.new.items ≡ lines.old.items ++ spec.lines_of_card device card.now) }
{
    match card {
        Ok(look) => add_look(lines, device, look),
        Err(CardFault::Failed) => add_whole(lines, device, Value::Unread),
        Err(CardFault::BadField(field)) => add_whole(lines, device, Value::BadField(*field)),
        Err(CardFault::BadFile { fid, place }) => {
            add_whole(
                lines,
                device,
                Value::BadFile {
                    fid: fid.0,
                    place: *place,
                },
            )
        }
    }
}

/// Adds the line of a whole device.
fn add_whole(lines: &mut Vec<Line>, device: Device, value: Value) -> Result<(), AllocError>
    ensures { OnOk result (lines.new.items ≡ lines.old.items ++ spec.whole device value) }
{
    lines.push(line(device, Name::Whole, value))?;
    Ok(())
}

/// A line.
fn line(device: Device, name: Name, value: Value) -> Line
    ensures { result ≡ spec.line device name value }
{
    Line {
        device,
        name,
        value,
    }
}

/// Adds the lines of a unit that tells.
fn add_told(lines: &mut Vec<Line>, told: &UnitTold) -> Result<(), AllocError>
    ensures { OnOk result (lines.new.items ≡ lines.old.items ++ spec.unit_lines told.now) }
{
    lines.extend_from_slice(&vehicle_lines(told))?;
    lines.extend_from_slice(&time_lines(told))?;
    add_rows(lines, &told.owed)?;
    Ok(())
}

/// Adds the lines of what is owed.
fn add_rows(lines: &mut Vec<Line>, rows: &[Option<OwedTo>]) -> Result<(), AllocError>
    ensures { OnOk result (lines.new.items ≡ lines.old.items ++ flat_map spec.owed_line rows.now) }
{
    for row in rows {
        add_owed(lines, row)?;
    }
    Ok(())
}

/// The lines of a unit and its vehicle.
fn vehicle_lines(told: &UnitTold) -> [Line; 7]
    ensures { result ≡ spec.vehicle_lines told.now }
{
    [
        line(Device::Unit, Name::Whole, Value::Valid),
        line(
            Device::Unit,
            Name::Version,
            Value::Count(told.version as u32),
        ),
        line(Device::Unit, Name::RuleOfMinutes, Value::ByRule(told.rule)),
        line(
            Device::Unit,
            Name::VehicleNumber,
            Value::Vin(told.identity.vin),
        ),
        line(
            Device::Unit,
            Name::Plate,
            Value::Plate(told.identity.registration),
        ),
        line(
            Device::Unit,
            Name::Limit,
            Value::Count(told.identity.limit as u32),
        ),
        line(Device::Unit, Name::Odometer, Value::Count(told.odometer)),
    ]
}

/// The lines of a unit's minutes and days.
fn time_lines(told: &UnitTold) -> [Line; 5]
    ensures { result ≡ spec.time_lines told.now }
{
    [
        line(Device::Unit, Name::LastKept, minute_value(told.kept)),
        line(Device::Unit, Name::NextStart, start_value(told.kept)),
        line(Device::Unit, Name::FirstDay, day_value(told.days.first)),
        line(Device::Unit, Name::LastDay, day_value(told.days.last)),
        line(
            Device::Unit,
            Name::Days,
            Value::Count(told.days.count as u32),
        ),
    ]
}

/// Adds the line of what is owed to a card, if there is one.
fn add_owed(lines: &mut Vec<Line>, owed: &Option<OwedTo>) -> Result<(), AllocError>
    ensures { OnOk result (lines.new.items ≡ lines.old.items ++ spec.owed_line owed.now) }
{
    let Some(owed) = owed else {
        return Ok(());
    };
    lines.push(line(Device::Unit, Name::Owed, Value::Owed(*owed)))?;
    Ok(())
}

/// Adds the lines of a card that tells.
fn add_look(lines: &mut Vec<Line>, device: Device, look: &CardLook) -> Result<(), AllocError>
    ensures { OnOk result (lines.new.items ≡ lines.old.items ++ spec.card_lines device look.now) }
{
    lines.extend_from_slice(&look_lines(device, look))?;
    Ok(())
}

/// The lines of a card.
fn look_lines(device: Device, look: &CardLook) -> [Line; 8]
    ensures { result ≡ spec.card_lines device look.now }
{
    [
        line(device, Name::Whole, Value::Valid),
        line(device, Name::Number, Value::Card(look.number)),
        line(device, Name::Surname, Value::Holder(look.surname)),
        line(device, Name::FirstNames, Value::Holder(look.first)),
        line(device, Name::LastUse, use_value(look.previous)),
        line(device, Name::Vehicle, vehicle_value(look.previous)),
        line(device, Name::Session, second_value(look.session)),
        line(device, Name::Newest, minute_value(look.newest_minute)),
    ]
}
