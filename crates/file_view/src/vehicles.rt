//! The vehicle entries of a card file.
ghost use Rattle.std.specs.Prelude.{◌≡◌, ◌+◌, ◌-◌, ◌*◌, ◌≤◌, ◌++◌, true, Some, length, map, filter, IfOk, OnOk};
ghost use Rattle.std.specs.List.{range_with_len};
ghost use Rattle.card_layout.specs.Application.{IsApplication};
ghost use Rattle.card_layout.specs.declared.files.Application.{Application as Sizes};
ghost use Rattle.card_image.specs.CardFile.{vehicles_alone};
ghost use Rattle.gated_ring.specs.Ring.{is_there, next, pointer};
ghost use Rattle.file_view.specs.CardFiles.{are_vehicles};
ghost use Rattle.file_view.specs.Reading.{vehicles_size};
ghost use Rattle.file_view.specs.Vehicles.{vehicle_in, vehicles_told};

use crate::entry::part;
use byteorder::{BigEndian, ByteOrder};
use card_files::{Vehicle, read_vehicle};
use card_layout::Application;
use std::alloc::{AllocError, Global};

/// The vehicle entries that are there, oldest first.
///
/// # Errors
///
/// `AllocError` where memory runs out.
pub fn vehicles_in(
    alloc: Global,
    app: Application,
    value: &[u8],
) -> Result<Vec<Vehicle>, AllocError>
    requires good { are_vehicles (Some app) value.now ≡ true }
    requires len { length value.now ≡ vehicles_size app }
    ensures { IfOk result (λ all. all.items ≡ vehicles_told app value.now) }
{
    let mut all = Vec::new(alloc);
    let count = app.vehicles as usize;
    let next = next_of(value, count);
    add_vehicles(&mut all, value, next, count)?;
    add_vehicles(&mut all, value, 0, next)?;
    Ok(all)
}

/// The index behind the pointer's, round the end of so many.
fn next_of(value: &[u8], count: usize) -> usize
    requires pointer { 2 ≤ length value.now }
    ensures { (app : Sizes) → count ≡ app.vehicles → are_vehicles (Some app) value.now ≡ true
        → result ≡ next (vehicles_alone app) (pointer (vehicles_alone app) value.now) × (result ≤ count) }
{
    let pointer = BigEndian::read_u16(part(value, 0, 2)) as usize;
    if pointer + 1 == count { 0 } else { pointer + 1 }
}

/// Adds the vehicle entries that are there from one index to another.
fn add_vehicles(
    all: &mut Vec<Vehicle>,
    value: &[u8],
    from: usize,
    to: usize,
) -> Result<(), AllocError>
    requires { 2 + 31 * to ≤ length value.now }
    ensures { (app : Sizes) → OnOk result (all.new.items ≡ all.old.items ++ map (vehicle_in app value.now)
        (filter (is_there (vehicles_alone app) value.now) (range_with_len from (to - from)))) }
{
    for i in from..to {
        let place = 2 + Vehicle::SIZE * i;
        if BigEndian::read_u32(part(value, place + 6, 4)) != 0 {
            all.push(read_vehicle(part(value, place, Vehicle::SIZE)))?;
        }
    }
    Ok(())
}
