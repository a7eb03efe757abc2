ghost use Rattle.std.specs.Prelude.{IfOk};
ghost use Rattle.tach_media.specs.MemMedium.{memory_state};
ghost use Rattle.unit_model.specs.Image.{IsUnit};

use link_loader::Downloader;
use std::alloc::{AllocError, Global};
use std::process::Abort;
use std::test::*;
use tach_media::{AbsentMedium, Medium, MemMedium, MemSink, Memory};
use unit_download::{DownloadFault, Passed, Unlisted, Wire, download, exchange_all};
use unit_model::layout::IMAGE_SIZE;

/// What stands in front of the image of a new unit: its version, the identification number, the registration and the
/// limit.
const FRONT: [u8; 37] = *b"\x00\x00\x00\x01TACHODEMO00000001\x0D\x01DEMO         Z";

/// An image of this front, zeros up to 564, these bytes, and zeros.
fn image(alloc: Global, front: &[u8], bytes: &[u8]) -> Result<Vec<u8>, AllocError> {
    let mut image = Vec::with_capacity(alloc, IMAGE_SIZE as usize)?;
    image.extend_from_slice(front)?;
    image.resize(564, 0)?;
    image.extend_from_slice(bytes)?;
    image.resize(IMAGE_SIZE as usize, 0)?;
    Ok(image)
}

/// What stands from 564 on where one day is recorded: the last-kept minute and the odometer.
const KEPT: [u8; 8] = [0x01, 0x42, 0x51, 0x59, 0, 0, 0, 0x2F];

/// What stands from 1028 on there: the day, 2010-03-01, with four words.
const DAY: [u8; 24] = [
    0x4B, 0x8B, 0x03, 0x80, 0, 0, 0, 0, 0, 4, 0, 0, 0, 0, 0, 0, //
    0x20, 0, 0xA0, 0, 0x38, 1, 0xA8, 1,
];

/// What stands from 564 on where one day is recorded.
fn one_day(alloc: Global) -> Result<Vec<u8>, AllocError> {
    let mut bytes = Vec::new(alloc);
    bytes.extend_from_slice(&KEPT)?;
    bytes.resize(1028 - 564, 0)?;
    bytes.extend_from_slice(&DAY)?;
    Ok(bytes)
}

/// A unit with this image.
fn unit_with(alloc: Global, image: Vec<u8>) -> Result<MemMedium, Memory>
    ensures { IfOk result (λ unit. IsUnit (memory_state unit.log unit.counts)) }
{
    if image.len() != IMAGE_SIZE as usize {
        return Err(Memory);
    }
    MemMedium::new(alloc, image, 0, 0, Vec::new(alloc))
}

/// How a download ended, what the sink holds, and the frames that passed.
#[derive(Drop)]
struct Ended {
    answer: Result<(), DownloadFault>,
    held: Vec<u8>,
    wire: Wire,
}

/// A download of this unit to a sink of this room.
fn downloaded<U: Medium>(alloc: Global, unit: &mut U, room: usize) -> Result<Ended, AllocError>
    requires { IsUnit (U.state unit.old) }
{
    let mut sink = MemSink::new(Vec::with_capacity(alloc, room)?, Vec::new(alloc));
    let mut wire = Wire::new(alloc);
    let answer = download(alloc, &mut sink, unit, &mut wire);
    let held = sink.held().to_vec(alloc)?;
    Ok(Ended { answer, held, wire })
}

/// The download of a unit of this image to a sink of this room.
fn downloaded_of(alloc: Global, image: Vec<u8>, room: usize) -> Result<Ended, Memory> {
    let mut unit = unit_with(alloc, image)?;
    Ok(downloaded(alloc, &mut unit, room)?)
}

/// The download of a new unit to a sink of this room.
fn of_new(alloc: Global, room: usize) -> Result<Ended, Memory> {
    downloaded_of(alloc, image(alloc, &FRONT, &[])?, room)
}

/// The download of a unit with one day.
fn of_a_day(alloc: Global) -> Result<Ended, Memory> {
    let bytes = one_day(alloc)?;
    let image = image(alloc, &FRONT, bytes.as_slice())?;
    downloaded_of(alloc, image, 2000)
}

/// A download ended so, with so many bytes in the sink.
fn ends_so(rt: &impl Abort, ended: &Ended, answer: Result<(), DownloadFault>, len: usize) {
    assert_eq!(rt; ended.answer, answer);
    assert_eq!(rt; ended.held.len(), len);
}

/// Whether the frame at this place of the wire has this data.
fn is_at(frames: &[Passed], index: usize, bytes: &[u8]) -> bool {
    match frames.get(index) {
        Some(passed) => passed.frame.bytes() == bytes,
        None => false,
    }
}

/// Whether these bytes stand at a place of what the sink holds.
fn has(held: &[u8], place: usize, bytes: &[u8]) -> bool {
    match held.get(place..) {
        Some(rest) => rest.starts_with(bytes),
        None => false,
    }
}

// An overview, events, detailed speed without a block, and technical data.
#[test]
fn a_new_unit_is_downloaded(rt: HostRuntime) -> Result<(), Fail> {
    let ended = of_new(rt.alloc(), 2000)?;
    ends_so(&rt, &ended, Ok(()), 623 + 143 + 132 + 267);
    let held = ended.held.as_slice();
    assert!(rt; has(held, 0, &[0x76, 1]));
    assert!(rt; has(held, 623, &[0x76, 3]));
    assert!(rt; has(held, 766, &[0x76, 4, 0, 0]));
    assert!(rt; has(held, 898, &[0x76, 5]));
    Ok(())
}

/// The day stands behind the overview, and speed behind the day and events.
fn holds_a_day(rt: &impl Abort, held: &[u8]) {
    assert!(rt; has(held, 623, &[0x76, 2, 0x4B, 0x8B, 0x03, 0x80]));
    assert!(rt; has(held, 918, &[0x76, 4, 0, 0]));
}

/// Start, diagnostic, upload; three pieces, a day, events, speed, two pieces; exit, stop.
fn passes_a_day(rt: &impl Abort, frames: &[Passed]) {
    assert_eq!(rt; frames.len(), 26);
    assert!(rt; is_at(frames, 8, &[0x83, 0x76, 0, 2]));
    assert!(rt; is_at(frames, 12, &[0x36, 2, 0x4B, 0x8B, 0x03, 0x80]));
    assert!(rt; is_at(frames, 16, &[0x36, 4]));
    assert!(rt; is_at(frames, 25, &[0xC2]));
}

#[test]
fn a_day_is_downloaded(rt: HostRuntime) -> Result<(), Fail> {
    let ended = of_a_day(rt.alloc())?;
    ends_so(&rt, &ended, Ok(()), 623 + 152 + 143 + 132 + 267);
    holds_a_day(&rt, ended.held.as_slice());
    passes_a_day(&rt, ended.wire.frames());
    Ok(())
}

#[test]
fn a_unit_that_is_none_is_refused(rt: HostRuntime) -> Result<(), Fail> {
    let ended = downloaded_of(rt.alloc(), image(rt.alloc(), &[], &[])?, 2000)?;
    ends_so(&rt, &ended, Err(DownloadFault::BadUnit(0)), 0);
    assert_eq!(rt; ended.wire.len(), 7);
    Ok(())
}

#[test]
fn a_unit_that_fails_is_told(rt: HostRuntime) -> Result<(), Fail> {
    let mut unit = AbsentMedium::new(IMAGE_SIZE);
    let ended = downloaded(rt.alloc(), &mut unit, 2000)?;
    ends_so(&rt, &ended, Err(DownloadFault::Failed), 0);
    assert_eq!(rt; ended.wire.len(), 7);
    Ok(())
}

#[test]
fn a_full_sink_is_told(rt: HostRuntime) -> Result<(), Fail> {
    let ended = of_new(rt.alloc(), 700)?;
    ends_so(&rt, &ended, Err(DownloadFault::WriteFault), 700);
    Ok(())
}

/// A download of this unit whose frames go unlisted gives a file of this length.
fn goes_unlisted<U: Medium>(
    rt: &impl Abort,
    alloc: Global,
    unit: &mut U,
    len: usize,
) -> Result<(), Memory>
    requires { IsUnit (U.state unit.old) }
{
    let mut sink = MemSink::new(Vec::with_capacity(alloc, 2000)?, Vec::new(alloc));
    let mut loader = Downloader::new(alloc);
    loader.reserve()?;
    let answer = exchange_all(&mut loader, &mut sink, unit, &mut Unlisted::new());
    assert_eq!(rt; answer, Ok(()));
    assert_eq!(rt; sink.held().len(), len);
    Ok(())
}

// The file is the same where no frame is listed.
#[test]
fn frames_may_go_unlisted(rt: HostRuntime) -> Result<(), Fail> {
    let alloc = rt.alloc();
    let mut unit = unit_with(alloc, image(alloc, &FRONT, &[])?)?;
    goes_unlisted(&rt, alloc, &mut unit, 623 + 143 + 132 + 267)?;
    Ok(())
}
