ghost use Rattle.std.specs.Prelude.{◌≡◌};
ghost use Rattle.state_text.specs.Lines.{day_of};

use minute_model::Rule;
use run_model::Device;
use state_text::{Line, Name, OwedTo, Value, lines_text};
use std::process::Abort;
use std::test::Fail;
use tacho_types::{FullCardNumber, Name36, Nation, Registration};

fn line(device: Device, name: Name, value: Value) -> Line
    ensures { result ≡ record { device = device; name = name; value = value } }
{
    Line {
        device,
        name,
        value,
    }
}

// A card to which three minutes are owed.
fn owed() -> Value
    ensures { day_of result ≡ 0 }
{
    Value::Owed(OwedTo {
        card: FullCardNumber {
            kind: 1,
            state: Nation(17),
            number: *b"0123456789ABCDEF",
        },
        minutes: 3,
    })
}

// A name in the first code page, with a backslash.
fn holder() -> Value
    ensures { day_of result ≡ 0 }
{
    let mut name = [b' '; 36];
    name[0] = 1;
    name[1] = b'D';
    name[2] = b'\\';
    Value::Holder(Name36(name))
}

fn plate() -> Value
    ensures { day_of result ≡ 0 }
{
    Value::Plate(Registration(*b"\x0d\x01M-AB-1       "))
}

#[test]
fn lines_of_each_kind(rt: HostRuntime) -> Result<(), Fail> {
    let amended = Value::ByRule(Rule::Amended);
    let lines = [
        line(Device::Unit, Name::Whole, Value::Valid),
        line(Device::Unit, Name::RuleOfMinutes, amended),
        line(Device::Unit, Name::Owed, owed()),
        line(Device::CardA, Name::Surname, holder()),
        line(Device::CardB, Name::LastUse, Value::Second(1267428599)),
        line(Device::CardB, Name::Vehicle, plate()),
    ];
    let text = lines_text(rt.alloc(), &lines)?;
    let told =
        b"unit valid\nunit-rule amended\nunit-owed 17 0123456789ABCDEF 3\ncard-a-surname D\\x5c\ncard-b-last-use 2010-03-01T07:29:59Z\ncard-b-vehicle 13 M-AB-1\n";
    assert!(rt; text.as_slice() == told.as_slice());
    Ok(())
}
