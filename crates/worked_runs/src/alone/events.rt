//! What a run notes of events, read back from the unit.
ghost use Rattle.std.specs.Prelude.{◌≤◌, ◌+◌};
ghost use Rattle.unit_model.specs.declared.layout.TheConstants.{IMAGE_SIZE};

use crate::alone::running::{ROOM, run_alone};
use std::alloc::Global;
use std::test::Fail;
use worked_media::{new_unit, unit_bytes};

/// The first place of driving without a card.
const FIRST_BARE: u32 = 2388044;

/// The first place of an over speeding.
const FIRST_OVER: u32 = 2391364;

/// The first place of a power interruption.
const FIRST_GAP: u32 = 2390534;

/// So many bytes of a new unit of a vehicle with a speed limit of 90 km/h that has recorded a trace.
fn noted<const N: usize>(alloc: Global, text: &[u8], place: u32) -> Result<[u8; N], Fail>
    requires { place + N ≤ IMAGE_SIZE }
{
    let mut unit = new_unit(alloc, 90, ROOM, Vec::new(alloc))?;
    let ran = run_alone(alloc, text, &mut unit)?;
    if ran.ended.is_err() {
        return Err(Fail::from("a run that is refused"));
    }
    Ok(unit_bytes(&mut unit, place)?)
}

// 61 seconds at 100 km/h, from the first on: with their begin and end, the most and the average, and one of this kind.
#[test]
fn an_over_speeding_is_noted(rt: HostRuntime) -> Result<(), Fail> {
    let alloc = rt.alloc();
    let text = b"start 1267401600\nrun 61 100\nrun 120 0";
    let entry: [u8; 12] = noted(alloc, text, FIRST_OVER)?;
    assert_eq!(rt; entry, *b"\x07\x04\x4B\x8B\x03\x80\x4B\x8B\x03\xBC\x64\x64");
    let card: [u8; 19] = noted(alloc, text, FIRST_OVER + 12)?;
    assert_eq!(rt; card, *b"\0\0\0\0\0\0\0\0\0\0\0\0\0\0\0\0\0\0\x01");
    let numbers: [u8; 8] = noted(alloc, text, 572)?;
    assert_eq!(rt; numbers, *b"\x4B\x8B\x03\x80\0\0\0\x01");
    Ok(())
}

// 60 seconds at 100 km/h are no over speeding, and are driving without a card; 90 seconds that the trace's end cuts off
// are none.
#[test]
fn driving_without_a_card_is_noted(rt: HostRuntime) -> Result<(), Fail> {
    let alloc = rt.alloc();
    let text = b"start 1267401600\nrun 60 100\nrun 120 0\nrun 90 100";
    let over: [u8; 6] = noted(alloc, text, FIRST_OVER)?;
    assert_eq!(rt; over, [0; 6]);
    let entry: [u8; 10] = noted(alloc, text, FIRST_BARE)?;
    assert_eq!(rt; entry, *b"\x04\x01\x4B\x8B\x03\x80\x4B\x8B\x03\xBB");
    let next: [u8; 7] = noted(alloc, text, FIRST_BARE + 82)?;
    assert_eq!(rt; next, *b"\x01\0\0\0\0\0\0");
    Ok(())
}

// From 00:08, behind the last-kept minute, to the power-on at 00:20.
#[test]
fn an_interruption_is_noted(rt: HostRuntime) -> Result<(), Fail> {
    let alloc = rt.alloc();
    let text = b"start 1267401600\nrun 600 0\noff 600\nrun 600 0";
    let entry: [u8; 10] = noted(alloc, text, FIRST_GAP)?;
    assert_eq!(rt; entry, *b"\x08\x01\x4B\x8B\x05\x60\x4B\x8B\x08\x30");
    let next: [u8; 7] = noted(alloc, text, FIRST_GAP + 82)?;
    assert_eq!(rt; next, *b"\x01\0\0\0\0\0\0");
    Ok(())
}
