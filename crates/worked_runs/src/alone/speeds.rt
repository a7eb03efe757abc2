//! The detailed speed that a run leaves, read back from the unit.
ghost use Rattle.std.specs.Prelude.{◌≤◌, ◌+◌};
ghost use Rattle.unit_model.specs.declared.layout.TheConstants.{IMAGE_SIZE};

use crate::alone::running::{ROOM, run_alone};
use std::alloc::Global;
use std::test::Fail;
use worked_media::{new_unit, unit_bytes};

/// The index of the newest block.
const POINTER: u32 = 2393644;

/// The first block.
const FIRST: u32 = 2393648;

/// The bytes of a block.
const BLOCK: u32 = 64;

/// So many bytes of a new unit that has recorded a trace.
fn held<const N: usize>(alloc: Global, text: &[u8], place: u32) -> Result<[u8; N], Fail>
    requires { place + N ≤ IMAGE_SIZE }
{
    let mut unit = new_unit(alloc, 90, ROOM, Vec::new(alloc))?;
    let ran = run_alone(alloc, text, &mut unit)?;
    if ran.ended.is_err() {
        return Err(Fail::from("a run that is refused"));
    }
    Ok(unit_bytes(&mut unit, place)?)
}

// A minute at rest has no block, and each of 59 minutes at 50 km/h has one: the first is that of 00:01.
#[test]
fn an_hour_has_a_block_for_each_minute_that_moves(rt: HostRuntime) -> Result<(), Fail> {
    let alloc = rt.alloc();
    let text = b"start 1267401600\nrun 60 0\nrun 3540 50";
    let pointer: [u8; 4] = held(alloc, text, POINTER)?;
    assert_eq!(rt; pointer, [0, 0, 0, 58]);
    let time: [u8; 4] = held(alloc, text, FIRST)?;
    assert_eq!(rt; time, *b"\x4B\x8B\x03\xBC");
    let speeds: [u8; 60] = held(alloc, text, FIRST + 4)?;
    assert_eq!(rt; speeds, [50; 60]);
    let last: [u8; 4] = held(alloc, text, FIRST + 58 * BLOCK)?;
    assert_eq!(rt; last, *b"\x4B\x8B\x11\x54");
    let behind: [u8; 4] = held(alloc, text, FIRST + 59 * BLOCK)?;
    assert_eq!(rt; behind, [0; 4]);
    Ok(())
}

// One moving second among sixty, and behind a minute without power half a minute that moves: one block.
#[test]
fn a_minute_that_is_not_whole_has_no_block(rt: HostRuntime) -> Result<(), Fail> {
    let alloc = rt.alloc();
    let text = b"start 1267401600\nrun 30 0\nrun 1 20\nrun 29 0\noff 60\nrun 30 5";
    let time: [u8; 4] = held(alloc, text, FIRST)?;
    assert_eq!(rt; time, *b"\x4B\x8B\x03\x80");
    let speeds: [u8; 60] = held(alloc, text, FIRST + 4)?;
    let mut one = [0; 60];
    one[30] = 20;
    assert_eq!(rt; speeds, one);
    let behind: [u8; 4] = held(alloc, text, FIRST + BLOCK)?;
    assert_eq!(rt; behind, [0; 4]);
    Ok(())
}
