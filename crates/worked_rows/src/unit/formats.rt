//! A unit that is made new, whatever stops it: the old one, one of version 0, or the whole new one.
ghost use Rattle.std.specs.Prelude.{IfOk};
ghost use Rattle.tach_media.specs.MemMedium.{memory_state};
ghost use Rattle.unit_model.specs.Image.{IsUnit};

use std::alloc::Global;
use std::process::Abort;
use std::rt::HostRuntime;
use std::test::Fail;
use tach_media::{Failed, Left, MemMedium, Memory, Stop};
use tacho_types::Registration;
use unit_memory::{Identity, format_unit};
use unit_model::layout::IMAGE_SIZE;
use worked_media::{Room, image_of, one_stop, unit_with};

/// The vehicle.
const VEHICLE: Identity = Identity {
    vin: *b"TACHODEMO00000001",
    registration: Registration(*b"\x0D\x01DEMO         "),
    limit: 90,
};

/// The version, the identification number, the registration and the limit that it has.
const FRONT: [u8; 37] = *b"\x00\x00\x00\x01TACHODEMO00000001\x0D\x01DEMO         Z";

/// How many writes make a unit new.
const WRITES: u64 = 612;

/// Room for these.
const ROOM: Room = Room {
    writes: 700,
    bytes: IMAGE_SIZE + 256,
};

/// A unit in memory, each byte of which is 1. Its calls stop so.
fn unit_of_ones(alloc: Global, stops: Vec<Stop>) -> Result<MemMedium, Memory>
    ensures { IfOk result (λ unit. IsUnit (memory_state unit.log unit.counts)) }
{
    let ones = vec![in alloc; 1u8; IMAGE_SIZE as usize]?;
    unit_with(alloc, ones, ROOM, stops)
}

/// What a stop may leave of a unit.
#[derive(Clone, Copy, PartialEq, Eq)]
enum Image {
    Old,
    VersionZero,
    New,
}

fn is_kind(image: &[u8], kind: Image) -> bool {
    match kind {
        Image::Old => image.iter().all(|byte| *byte == 1),
        Image::VersionZero => image.starts_with(&[0, 0, 0, 0]),
        Image::New => {
            image.len() == IMAGE_SIZE as usize
                && image.starts_with(&FRONT)
                && image.iter().skip(37).all(|byte| *byte == 0)
        }
    }
}

/// What a unit of ones that is made new tells: the answer, how many calls there were, and whether its image is of a
/// kind.
#[derive(Clone, Copy)]
struct Made {
    answer: Result<(), Failed>,
    calls: u64,
    is_kind: bool,
}

fn make(alloc: Global, stops: Vec<Stop>, kind: Image) -> Result<Made, Fail> {
    let mut unit = unit_of_ones(alloc, stops)?;
    let answer = format_unit(&mut unit, &VEHICLE);
    let calls = unit.calls();
    let image = image_of(alloc, &mut unit)?;
    let is_kind = is_kind(image.as_slice(), kind);
    Ok(Made {
        answer,
        calls,
        is_kind,
    })
}

#[test]
fn a_unit_is_made_new(rt: HostRuntime) -> Result<(), Fail> {
    let alloc = rt.alloc();
    let made = make(alloc, Vec::new(alloc), Image::New)?;
    assert_eq!(rt;
        (made.answer, made.calls, made.is_kind),
        (Ok(()), WRITES, true)
    );
    Ok(())
}

/// That a unit of ones that stops so leaves an image of this kind.
fn leaves(rt: &(impl Abort + AllocGlobal), call: u64, left: Left, kind: Image) -> Result<(), Fail> {
    let alloc = rt.alloc();
    let made = make(alloc, one_stop(alloc, call, left)?, kind)?;
    assert_eq!(rt; (made.answer, made.is_kind), (Err(Failed), true));
    Ok(())
}

/// That a stop leaves a unit of version 0 at each write but the first and the last, which write the version.
fn leaves_version_zero(rt: &(impl Abort + AllocGlobal), left: Left) -> Result<(), Fail> {
    for call in 1..WRITES - 1 {
        leaves(rt, call, left, Image::VersionZero)?;
    }
    Ok(())
}

#[test]
fn a_stop_before_a_write_of_a_unit(rt: HostRuntime) -> Result<(), Fail> {
    leaves(&rt, 0, Left::Before, Image::Old)?;
    leaves_version_zero(&rt, Left::Before)?;
    leaves(&rt, WRITES - 1, Left::Before, Image::VersionZero)
}

#[test]
fn a_stop_after_a_write_of_a_unit(rt: HostRuntime) -> Result<(), Fail> {
    leaves(&rt, 0, Left::After, Image::VersionZero)?;
    leaves_version_zero(&rt, Left::After)?;
    leaves(&rt, WRITES - 1, Left::After, Image::New)
}

#[test]
fn a_torn_write_of_a_unit(rt: HostRuntime) -> Result<(), Fail> {
    leaves(&rt, 0, Left::Torn(7), Image::Old)?;
    leaves_version_zero(&rt, Left::Torn(7))?;
    leaves(&rt, WRITES - 1, Left::Torn(7), Image::VersionZero)
}
