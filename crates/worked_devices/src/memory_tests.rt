ghost use Rattle.std.specs.Prelude.{◌≤◌, ◌+◌, ◌≡◌, IfOk, vec_len};
ghost use Rattle.tach_media.specs.MemMedium.{memory_state};
ghost use Rattle.unit_model.specs.Image.{IsUnit};

use std::alloc::{AllocError, Global};
use std::process::Abort;
use std::test::Fail;
use tach_media::{Failed, Medium, MemMedium, Memory};
use tacho_types::Registration;
use unit_memory::{Identity, UnitFault, UnitMemory, format_unit};
use unit_model::layout::IMAGE_SIZE;

const IDENTITY: Identity = Identity {
    vin: *b"TACHODEMO00000001",
    registration: Registration(*b"\x0D\x01DEMO         "),
    limit: 90,
};

/// So many zeros.
fn zeros(alloc: Global, count: usize) -> Result<Vec<u8>, AllocError>
    ensures { IfOk result (λ bytes. vec_len bytes ≡ count) }
{
    Ok(vec![in alloc; 0u8; count]?)
}

/// A unit in memory, each byte of which is 0.
fn blank(alloc: Global) -> Result<MemMedium, Memory>
    ensures { IfOk result (λ unit. IsUnit (memory_state unit.log unit.counts)) }
{
    let image = zeros(alloc, IMAGE_SIZE as usize)?;
    MemMedium::new(alloc, image, 700, IMAGE_SIZE + 256, Vec::new(alloc))
}

/// What loading finds: an identity, or the place of the first field that fails.
fn found<M: Medium>(unit: &mut M) -> Result<Result<Identity, u32>, Failed>
    requires { IsUnit (M.state unit.old) }
    ensures { IsUnit (M.state unit.new) }
{
    match UnitMemory::load(unit) {
        Ok(memory) => Ok(Ok(memory.identity())),
        Err(UnitFault::BadUnit(place)) => Ok(Err(place)),
        Err(UnitFault::Failed) => Err(Failed),
    }
}

/// What loading finds while these bytes stand at a place, where zeros stood and stand again.
fn found_with<M: Medium>(
    unit: &mut M,
    place: u32,
    bytes: [u8; 6],
) -> Result<Result<Identity, u32>, Failed>
    requires unit { IsUnit (M.state unit.old) }
    requires inside { place + 6 ≤ 2485808 }
    ensures { IsUnit (M.state unit.new) }
{
    unit.write_at(place, &bytes)?;
    let answer = found(unit)?;
    unit.write_at(place, &[0; 6])?;
    Ok(answer)
}

/// Six bytes that are put at a place, and the place that is told then; none, where the unit is good with them.
const FIELDS: [(u32, [u8; 6], Option<u32>); 13] = [
    // the last-kept minute past the last second, and one whose day is not there
    (564, [0x04, 0x44, 0x44, 0x45, 0, 0], Some(564)),
    (564, [0, 0, 0x05, 0xA0, 0, 0], Some(564)),
    // 10000000 kilometres, 256 over speedings
    (568, [0, 0x98, 0x96, 0x80, 0, 0], Some(568)),
    (576, [0, 0, 1, 0, 0, 0], Some(576)),
    // a cell with a word at 1440, and with one at 1439
    (648, [0, 0, 0, 1, 0x05, 0xA0], Some(652)),
    (648, [0, 0, 0, 1, 0x05, 0x9F], None),
    // a day that is no day, and one without words
    (1028, [0, 0, 0, 1, 0, 0], Some(1028)),
    (1028, [0, 1, 0x51, 0x80, 0, 0], Some(1036)),
    // each pointer at its count
    (1024, [0, 0, 1, 0x6E, 0, 0], Some(1024)),
    (2115044, [0, 0, 8, 0, 0, 0], Some(2115044)),
    (2379240, [0, 0, 0, 0xFF, 0, 0], Some(2379240)),
    (2393644, [0, 0, 0x05, 0xA0, 0, 0], Some(2393644)),
    // in version 1 no rule byte is looked at
    (558, [0, 0, 0, 2, 0, 0], None),
];

/// Loading finds this.
fn is_found<M: Medium>(rt: &impl Abort, unit: &mut M, wanted: Result<Identity, u32>)
    requires { IsUnit (M.state unit.old) }
    ensures { IsUnit (M.state unit.new) }
{
    assert_eq!(rt; found(unit), Ok(wanted));
}

/// Loading finds this place, or the identity, with these bytes.
fn is_found_with<M: Medium>(
    rt: &impl Abort,
    unit: &mut M,
    place: u32,
    bytes: [u8; 6],
    bad: Option<u32>,
)
    requires { IsUnit (M.state unit.old) }
    ensures { IsUnit (M.state unit.new) }
{
    assert!(rt; place <= 2485802);
    let wanted = match bad {
        Some(place) => Err(place),
        None => Ok(IDENTITY),
    };
    assert_eq!(rt; found_with(unit, place, bytes), Ok(wanted));
}

/// Each field of a unit is looked at.
fn fields<M: Medium>(rt: &impl Abort, unit: &mut M)
    requires { IsUnit (M.state unit.old) }
    ensures { IsUnit (M.state unit.new) }
{
    for field in FIELDS {
        let (place, bytes, bad) = field;
        is_found_with(rt, unit, place, bytes, bad);
    }
}

/// What loading finds of a new unit, and with one field of it changed; then all is as it was.
fn new_unit<M: Medium>(rt: &impl Abort, unit: &mut M) -> Result<(), Failed>
    requires { IsUnit (M.state unit.old) }
{
    is_found(rt, unit, Err(0));
    format_unit(unit, &IDENTITY)?;
    is_found(rt, unit, Ok(IDENTITY));
    fields(rt, unit);
    is_found(rt, unit, Ok(IDENTITY));
    Ok(())
}

#[test]
fn a_new_unit_is_loaded(rt: HostRuntime) -> Result<(), Fail> {
    let mut unit = blank(rt.alloc())?;
    assert!(rt; new_unit(&rt, &mut unit).is_ok());
    Ok(())
}
