//! Application_Identification.
ghost use Rattle.std.specs.Prelude.{◌≡◌, ◌^◌, ◌<◌, length, IfOk, Ok};
ghost use Rattle.card_layout.specs.declared.files.Application.{Application};
ghost use Rattle.card_layout.specs.Application.{application_bytes, IsApplication};
ghost use Rattle.card_files.specs.Reading.{IsReading};

use byteorder::{BigEndian, ByteOrder};
use card_layout::{Application, STRING_LEAST, STRING_MOST};

/// The number, from 1, of the first field of Application_Identification that is out of its range: card type 1;
/// events of each type 3; faults of each type 4; length of the string of days 5; vehicle entries 6; place entries 7.
#[derive(Clone, Copy, Debug, Default, PartialEq, Eq)]
pub struct BadApplication(pub u8);

/// What the ten bytes of Application_Identification tell.
///
/// # Errors
///
/// `BadApplication` exactly where a field is out of its range, with the number of the first such field.
pub fn read_application(b: &[u8]) -> Result<Application, BadApplication>
    requires { length b.now ≡ 10 }
    ensures value { IsReading b.now result }
    ensures good { IfOk result IsApplication }

    // Writing what was read gives the bytes, and reading what was written gives the sizes.
    ensures bytes { IfOk result (λ app. application_bytes app ≡ b.now) }
    ensures reads_back { (app : Application) → app.structure < 2 ^ 16 → IsApplication app
        → b.now ≡ application_bytes app → result ≡ Ok app }
{
    judged(b)
}

/// Its fields, judged in their order.
#[tactic(auto, unfolding(card_layout::specs::Application::first_bad_field, card_layout::specs::Application::application_of))]
fn judged(b: &[u8]) -> Result<Application, BadApplication>
    requires { length b.now ≡ 10 }
    ensures value { IsReading b.now result }
    ensures good { IfOk result IsApplication }
{
    let (kind, b) = b.split_at(1);
    let (structure, b) = b.split_at(2);
    let (events, b) = b.split_at(1);
    let (faults, b) = b.split_at(1);
    let (activity, b) = b.split_at(2);
    let (vehicles, places) = b.split_at(2);
    let app = Application {
        structure: BigEndian::read_u16(structure),
        events: events[0],
        faults: faults[0],
        activity: BigEndian::read_u16(activity),
        vehicles: BigEndian::read_u16(vehicles),
        places: places[0],
    };
    if kind[0] != 1 {
        return Err(BadApplication(1));
    }
    if app.events < 6 || app.events > 12 {
        return Err(BadApplication(3));
    }
    if app.faults < 12 || app.faults > 24 {
        return Err(BadApplication(4));
    }
    if app.activity < STRING_LEAST || app.activity > STRING_MOST || app.activity % 2 != 0 {
        return Err(BadApplication(5));
    }
    if app.vehicles < 84 || app.vehicles > 200 {
        return Err(BadApplication(6));
    }
    if app.places < 84 || app.places > 112 {
        return Err(BadApplication(7));
    }
    Ok(app)
}
