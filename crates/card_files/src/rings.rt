//! The rings with a pointer: Vehicles_Used and Places.
ghost use Rattle.std.specs.Prelude.{◌≡◌, ◌≢◌, ◌≤◌, ◌<◌, ◌+◌, ◌^◌, length, IfOk, IfErr, IfSome, OnOk, is_err};
ghost use Rattle.card_layout.specs.Application.{IsApplication};
ghost use Rattle.card_layout.specs.Files.{place_of, size_of, image_size_of};
ghost use Rattle.tach_media.specs.Medium.{Reads, LeavesOnly, LiesInside, HasCause, IsSettled, last_count};
ghost use Rattle.gated_ring.specs.Ring.{pointer, PointsInside};
ghost use Rattle.gated_ring.specs.Loading.{IfBadPointer, has_failed};
ghost use Rattle.card_files.specs.Rings.{file, vehicle_ring, place_ring};
ghost use Rattle.card_files.specs.Noting.{IsNotingPlace, IsPlaceNoted};

use crate::{Vehicle, file_of};
use card_layout::{Application, Fid};
use gated_ring::{Ring, RingFault};
use tach_media::{Failed, Medium};
use tacho_types::{PlaceEntry, write_place};

/// The width of the pointer of Vehicles_Used, and the place of the first use in an entry.
const VEHICLE_POINTER: u8 = 2;

const VEHICLE_FIRST_USE: u32 = 6;

/// The width of the pointer of Places. An entry begins with its time.
const PLACE_POINTER: u8 = 1;

const PLACE_TIME: u32 = 0;

/// The vehicle entries, in Vehicles_Used. It writes nothing.
///
/// # Errors
///
/// 1. `Failed` where the medium failed.
/// 2. `BadPointer` exactly where the pointer is not below the number of vehicle entries.
pub fn vehicles<M: Medium>(medium: &mut M, app: &Application) -> Result<Ring, RingFault>
    requires sizes { IsApplication app.now }
    requires fits { image_size_of app.now ≤ (M.state medium.old).size }
    ensures ring { IfOk result (λ ring. ring ≡ vehicle_ring app.now) }
    ensures known { IfOk result (λ ring. IfSome (M.state medium.old).image (PointsInside ring)) }
    ensures bad { IfErr result (λ fault. IfBadPointer fault (λ v. (app.now.vehicles ≤ v) × IfSome
        (M.state medium.old).image (λ x. pointer (vehicle_ring app.now) x ≡ v))) }
    ensures reads { Reads (M.state medium.old) (M.state medium.new) (has_failed result) }
{
    let file = file_of(app, Fid::VEHICLES);
    let count = u32::from(app.vehicles);
    Ring::load(
        medium,
        file.base,
        Vehicle::SIZE as u32,
        count,
        VEHICLE_POINTER,
        VEHICLE_FIRST_USE,
    )
}

/// The place entries, in Places. It writes nothing.
///
/// # Errors
///
/// 1. `Failed` where the medium failed.
/// 2. `BadPointer` exactly where the pointer is not below the number of place entries.
pub fn places<M: Medium>(medium: &mut M, app: &Application) -> Result<Ring, RingFault>
    requires sizes { IsApplication app.now }
    requires fits { image_size_of app.now ≤ (M.state medium.old).size }
    ensures ring { IfOk result (λ ring. ring ≡ place_ring app.now) }
    ensures known { IfOk result (λ ring. IfSome (M.state medium.old).image (PointsInside ring)) }
    ensures bad { IfErr result (λ fault. IfBadPointer fault (λ v. (app.now.places ≤ v) × IfSome
        (M.state medium.old).image (λ x. pointer (place_ring app.now) x ≡ v))) }
    ensures reads { Reads (M.state medium.old) (M.state medium.new) (has_failed result) }
{
    let file = file_of(app, Fid::PLACES);
    let count = u32::from(app.places);
    Ring::load(
        medium,
        file.base,
        PlaceEntry::SIZE as u32,
        count,
        PLACE_POINTER,
        PLACE_TIME,
    )
}

/// Adds a place entry, the newest of its ring. Where the pointer of Places is not an index it writes nothing: such a
/// card is not valid.
///
/// # Errors
///
/// `Failed` where the medium failed.
pub fn note_place<M: Medium>(
    medium: &mut M,
    app: &Application,
    entry: &PlaceEntry,
) -> Result<(), Failed>
    requires sizes { IsApplication app.now }
    requires fits { image_size_of app.now ≤ (M.state medium.old).size }
    requires writable { LiesInside (M.state medium.old).writable (place_of app.now (file 0x0506))
        (size_of app.now (file 0x0506)) }
    requires time { entry.now.time.0 ≢ 0 }
    requires odometer { entry.now.odometer.0 < 2 ^ 24 }
    ensures noted { OnOk result (IfSome (M.state medium.old).image
        (λ x. PointsInside (place_ring app.now) x
        → IfSome (M.state medium.new).image (IsPlaceNoted app.now entry.now x))) }
    ensures bad { OnOk result (IfSome (M.state medium.old).image
        (λ x. app.now.places ≤ pointer (place_ring app.now) x
        → (M.state medium.new).image ≡ (M.state medium.old).image)) }
    ensures moments { LeavesOnly (M.state medium.old) (M.state medium.new) (IsNotingPlace app.now entry.now) }
    ensures settled { OnOk result (IfSome (M.state medium.old).image
        (λ x. PointsInside (place_ring app.now) x → (M.state medium.new).clock < last_count
        → IsSettled (M.state medium.new))) }
    ensures cause { HasCause (M.state medium.old) (M.state medium.new) (is_err result) }
    ensures most { (M.state medium.new).clock ≤ (M.state medium.old).clock + 5 }
{
    let mut bytes = [0; PlaceEntry::SIZE];
    write_place(entry, &mut bytes);
    let mut ring = match places(medium, app) {
        Ok(ring) => ring,
        Err(RingFault::Failed) => return Err(Failed),
        Err(RingFault::BadPointer(_)) => return Ok(()),
    };
    ring.add(medium, &bytes)?;
    Ok(())
}
