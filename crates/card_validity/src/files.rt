//! The files of a card whose image lies in memory.
ghost use Rattle.std.specs.Prelude.{◌≡◌, ◌≤◌, ◌<◌, ◌+◌, ◌^◌, length, Some, None, IfOk, IfErr, IfSome, IfNone, IsTrue};
ghost use Rattle.std.specs.Prelude.{IsFalse};
ghost use Rattle.card_layout.specs.Application.{IsApplication};
ghost use Rattle.card_layout.specs.Files.{image_size_of};
ghost use Rattle.gated_ring.specs.Ring.{pointer, PointsInside, IsNewest, entry_at};
ghost use Rattle.card_image.specs.card_model.Checks.{first_bad};
ghost use Rattle.card_image.specs.card_model.Image.{oldest_pointer};
ghost use Rattle.card_image.specs.card_model.Walk.{days_of};
ghost use Rattle.card_days.specs.Held.{Knows};
ghost use Rattle.card_files.specs.Vehicles.{vehicle_of};
ghost use Rattle.card_image.specs.Fields.{day_string, vehicle_ring, place_ring, newest_vehicle, current_use};
ghost use Rattle.card_image.specs.Fields.{last_use_of};
ghost use Rattle.card_validity.specs.Judged.{first_bad_behind, IsSized, IsKnown};

use crate::BadFile;
use crate::round::Round;
use crate::words::first_bad_word;
use activity_codec::MINUTE_SECONDS;
use byteorder::{BigEndian, ByteOrder};
use card_days::{Days, DaysFault};
use card_files::{CurrentUse, Vehicle, file_of, places, read_current_use, read_vehicle, vehicles};
use card_layout::{Application, Fid};
use gated_ring::{Ring, RingFault};
use tach_media::SliceMedium;
use tacho_types::TimeReal;

/// What is known of a card that passed: its days, its vehicle entries, the newest of them, and its current use, in
/// which the session time is 0 where no session is open. It knows no card.
#[derive(Drop)]
pub struct Judged {
    pub days: Days,
    pub vehicles: Ring,
    pub newest: Option<u32>,
    pub vehicle: Option<Vehicle>,
    pub current: CurrentUse,
}

/// The string of days, or the place in its file where it first fails.
fn load_days(image: &[u8], app: &Application) -> Result<Days, u32>
    requires sizes { IsApplication app.now }
    requires inside { image_size_of app.now ≤ length image.now }
    requires short { length image.now < 2 ^ 32 }
    ensures shape { IfOk result (λ days. days.shape ≡ day_string app.now) }
    ensures days { IfOk result (λ days. Knows days image.now (days_of (day_string app.now) image.now)) }
    ensures bad { IfErr result (λ place. first_bad (day_string app.now) image.now ≡ Some place) }
{
    let mut slice = SliceMedium::new(image);
    match Days::load(&mut slice, file_of(app, Fid::ACTIVITY)) {
        Ok(days) => Ok(days),
        Err(DaysFault::BadDays(place)) => Err(place),
        Err(DaysFault::Failed) => Err(0),
    }
}

/// The vehicle entries, where their pointer is an index.
fn load_vehicles(image: &[u8], app: &Application) -> Option<Ring>
    requires sizes { IsApplication app.now }
    requires inside { image_size_of app.now ≤ length image.now }
    requires short { length image.now < 2 ^ 32 }
    ensures ring { IfSome result (λ ring. ring ≡ vehicle_ring app.now) }
    ensures good { IfSome result (λ ring. PointsInside (vehicle_ring app.now) image.now) }
    ensures bad { IfNone result (app.now.vehicles ≤ pointer (vehicle_ring app.now) image.now) }
{
    let mut slice = SliceMedium::new(image);
    match vehicles(&mut slice, app) {
        Ok(ring) => Some(ring),
        Err(RingFault::BadPointer(_)) => None,
        Err(RingFault::Failed) => None,
    }
}

/// Whether the pointer of the place entries is an index.
fn places_point(image: &[u8], app: &Application) -> bool
    requires sizes { IsApplication app.now }
    requires inside { image_size_of app.now ≤ length image.now }
    requires short { length image.now < 2 ^ 32 }
    ensures good { IsTrue result → PointsInside (place_ring app.now) image.now }
    ensures bad { IsFalse result → app.now.places ≤ pointer (place_ring app.now) image.now }
{
    let mut slice = SliceMedium::new(image);
    match places(&mut slice, app) {
        Ok(_) => true,
        Err(RingFault::BadPointer(_)) => false,
        Err(RingFault::Failed) => false,
    }
}

/// The index of the newest vehicle entry, if there is one.
fn newest_of(image: &[u8], app: &Application, ring: &Ring) -> Option<u32>
    requires sizes { IsApplication app.now }
    requires inside { image_size_of app.now ≤ length image.now }
    requires short { length image.now < 2 ^ 32 }
    requires ring { ring.now ≡ vehicle_ring app.now }
    requires points { PointsInside (vehicle_ring app.now) image.now }
    ensures newest { IsNewest (vehicle_ring app.now) image.now result }
    ensures below { IfSome result (λ i. i < app.now.vehicles) }
{
    let mut slice = SliceMedium::new(image);
    ring.newest(&mut slice).unwrap()
}

/// A vehicle entry that is there.
fn vehicle_in(image: &[u8], app: &Application, ring: &Ring, index: u32) -> Vehicle
    requires sizes { IsApplication app.now }
    requires inside { image_size_of app.now ≤ length image.now }
    requires short { length image.now < 2 ^ 32 }
    requires ring { ring.now ≡ vehicle_ring app.now }
    requires newest { IsNewest (vehicle_ring app.now) image.now (Some index) }
    ensures { result ≡ vehicle_of (entry_at (vehicle_ring app.now) image.now index) }
{
    let mut slice = SliceMedium::new(image);
    let mut bytes = [0; Vehicle::SIZE];
    // the newest entry is there, so the answer is true
    ring.entry(&mut slice, index, &mut bytes).unwrap();
    read_vehicle(&bytes)
}

/// The newest vehicle, if there is one.
fn newest_vehicle(
    image: &[u8],
    app: &Application,
    ring: &Ring,
    newest: Option<u32>,
) -> Option<Vehicle>
    requires sizes { IsApplication app.now }
    requires inside { image_size_of app.now ≤ length image.now }
    requires short { length image.now < 2 ^ 32 }
    requires ring { ring.now ≡ vehicle_ring app.now }
    requires newest { IsNewest (vehicle_ring app.now) image.now newest }
    ensures { result ≡ newest_vehicle app.now image.now }
{
    match newest {
        None => None,
        Some(index) => Some(vehicle_in(image, app, ring, index)),
    }
}

/// The current use.
fn current_use(image: &[u8], app: &Application) -> CurrentUse
    requires sizes { IsApplication app.now }
    requires inside { image_size_of app.now ≤ length image.now }
    ensures { result ≡ current_use app.now image.now }
{
    let place = file_of(app, Fid::CURRENT_USE).base as usize;
    read_current_use(&image[place..place + CurrentUse::SIZE])
}

/// When a vehicle was last used, in seconds since 1970-01-01; 0 without one.
pub fn last_use(vehicle: &Option<Vehicle>) -> TimeReal
    ensures { result.0 ≡ last_use_of vehicle.now }
{
    match vehicle {
        None => TimeReal(0),
        Some(vehicle) => vehicle.last_use,
    }
}

/// Where the string of days lies.
fn round_of(image: &[u8], app: &Application) -> Round
    requires sizes { IsApplication app.now }
    requires inside { image_size_of app.now ≤ length image.now }
    ensures size { result.size ≡ app.now.activity }
    ensures oldest { result.oldest ≡ oldest_pointer (day_string app.now) image.now }
    ensures short { result.oldest < 2 ^ 24 }
{
    let base = file_of(app, Fid::ACTIVITY).base;
    let place = base as usize;
    Round {
        size: u32::from(app.activity),
        oldest: u32::from(BigEndian::read_u16(&image[place..place + 2])),
    }
}

/// Judges the words of the days of an image whose files pass else, and tells what is known of it.
fn judge_words(
    image: &[u8],
    app: &Application,
    days: Days,
    vehicles: Ring,
) -> Result<Judged, BadFile>
    requires sizes { IsApplication app.now }
    requires inside { image_size_of app.now ≤ length image.now }
    requires short { length image.now < 2 ^ 32 }
    requires shape { days.shape ≡ day_string app.now }
    requires days { Knows days image.now (days_of (day_string app.now) image.now) }
    requires ring { vehicles ≡ vehicle_ring app.now }
    requires points { PointsInside (vehicle_ring app.now) image.now }
    requires places { PointsInside (place_ring app.now) image.now }
    ensures sized { IfOk result (IsSized app.now) }
    ensures known { IfOk result (IsKnown app.now image.now) }
    ensures bad { IfErr result (λ bad. first_bad_behind app.now image.now ≡ Some (bad.fid, bad.place)) }
{
    let newest = newest_of(image, app, &vehicles);
    let vehicle = newest_vehicle(image, app, &vehicles, newest);
    let current = current_use(image, app);
    let mark = last_use(&vehicle).0 / MINUTE_SECONDS;
    let round = round_of(image, app);
    match first_bad_word(&days, image, &round, mark, current.session.0) {
        Some(place) => Err(BadFile {
            fid: Fid::ACTIVITY,
            place,
        }),
        None => Ok(Judged {
            days,
            vehicles,
            newest,
            vehicle,
            current,
        }),
    }
}

/// Judges the image of a card of these sizes: the string of days, the two rings, and the words of the days.
///
/// # Errors
///
/// `BadFile` exactly where one of these fails, with the file that first fails and the place in it.
pub fn judge_image(image: &[u8], app: &Application) -> Result<Judged, BadFile>
    requires sizes { IsApplication app.now }
    requires inside { image_size_of app.now ≤ length image.now }
    requires short { length image.now < 2 ^ 32 }
    ensures sized { IfOk result (IsSized app.now) }
    ensures known { IfOk result (IsKnown app.now image.now) }
    ensures bad { IfErr result (λ bad. first_bad_behind app.now image.now ≡ Some (bad.fid, bad.place)) }
{
    let days = match load_days(image, app) {
        Ok(days) => days,
        Err(place) => {
            return Err(BadFile {
                fid: Fid::ACTIVITY,
                place,
            });
        }
    };
    let vehicles = match load_vehicles(image, app) {
        Some(vehicles) => vehicles,
        None => {
            return Err(BadFile {
                fid: Fid::VEHICLES,
                place: 0,
            });
        }
    };
    if !places_point(image, app) {
        return Err(BadFile {
            fid: Fid::PLACES,
            place: 0,
        });
    }
    judge_words(image, app, days, vehicles)
}
