//! Downloads of units that have recorded: as many calls as the loader's frames alone ask for.
use crate::runs::rows::DRIVE;
use crate::runs::running::{Stops, new_devices};
use link_frames::{End, write_frame};
use link_session::serve;
use std::alloc::{AllocError, Global};
use std::process::Abort;
use std::rt::HostRuntime;
use std::test::Fail;
use tach_media::{MemSink, MemSource};
use unit_download::{Passed, Wire, download};
use worked_media::{NO_ROOM, unit_with};

/// A day with two drivers, who exchange their slots.
const DAY: &[u8] = b"start 1267426800
insert driver a
insert codriver b
select driver work
run 900 0
run 16200 80
select driver rest
run 2700 0
withdraw driver
withdraw codriver
insert driver b
insert codriver a
run 60 0
run 7140 85
select driver work
run 600 0
withdraw driver
withdraw codriver
";

/// The image of a unit that has recorded a trace.
fn recorded(alloc: Global, text: &[u8]) -> Result<Vec<u8>, Fail> {
    let mut d = new_devices(alloc, Stops::none(alloc))?;
    d.run_whole(alloc, text)?;
    d.unit_image(alloc)
}

/// The frames of one side, as the link has them.
fn line_of(alloc: Global, frames: &[Passed], from: End) -> Result<Vec<u8>, AllocError> {
    let mut line = Vec::new(alloc);
    for passed in frames {
        if passed.from == from {
            let bytes = write_frame(from, &passed.frame);
            line.extend_from_slice(bytes.as_slice())?;
        }
    }
    Ok(line)
}

/// A download: how many bytes were loaded, how often the unit was called, and the frames of both sides.
#[derive(Drop)]
struct Loaded {
    length: usize,
    calls: u64,
    asked: Vec<u8>,
    answered: Vec<u8>,
}

fn load(alloc: Global, image: Vec<u8>) -> Result<Loaded, Fail> {
    let mut unit = unit_with(alloc, image, NO_ROOM, Vec::new(alloc))?;
    let mut sink = MemSink::new(Vec::with_capacity(alloc, 32768)?, Vec::new(alloc));
    let mut wire = Wire::new(alloc);
    if download(alloc, &mut sink, &mut unit, &mut wire).is_err() {
        return Err(Fail::from("a download that is refused"));
    }
    Ok(Loaded {
        length: sink.held().len(),
        calls: unit.calls(),
        asked: line_of(alloc, wire.frames(), End::Loader)?,
        answered: line_of(alloc, wire.frames(), End::Unit)?,
    })
}

/// How often `serve` calls a unit with this image that hears these bytes, where it answers those; nothing where it
/// answers others.
fn served(alloc: Global, image: Vec<u8>, heard: Vec<u8>, told: &[u8]) -> Result<Option<u64>, Fail> {
    let mut unit = unit_with(alloc, image, NO_ROOM, Vec::new(alloc))?;
    let mut source = MemSource::new(heard, Vec::new(alloc));
    let mut answers = MemSink::new(Vec::with_capacity(alloc, 32768)?, Vec::new(alloc));
    if serve(&mut source, &mut answers, &mut unit).is_err() {
        return Err(Fail::from("a service that is refused"));
    }
    if answers.held() == told {
        return Ok(Some(unit.calls()));
    }
    Ok(None)
}

/// A download of a unit that has recorded a trace, and how often `serve` calls it that hears the loader's frames alone
/// and answers the same.
fn both(alloc: Global, text: &[u8]) -> Result<(usize, u64, Option<u64>), Fail> {
    let image = recorded(alloc, text)?;
    let loaded = load(alloc, image.clone()?)?;
    let calls = served(alloc, image, loaded.asked, loaded.answered.as_slice())?;
    Ok((loaded.length, loaded.calls, calls))
}

/// That a download of a unit which has recorded this has so many bytes, and that the unit is called as often as by
/// `serve` that hears the loader's frames alone, and answers the same.
fn asks_by_its_frames_alone(
    rt: &(impl Abort + AllocGlobal),
    text: &[u8],
    length: usize,
) -> Result<(), Fail> {
    let (bytes, calls, served) = both(rt.alloc(), text)?;
    assert_eq!(rt; bytes, length);
    assert!(rt; 0 < calls);
    assert_eq!(rt; served, Some(calls));
    Ok(())
}

// an overview, a day of four words with one insertion, no event, detailed speed of 59 minutes, and technical data
#[test]
fn an_hour_with_a_driver_is_downloaded(rt: HostRuntime) -> Result<(), Fail> {
    asks_by_its_frames_alone(&rt, DRIVE, 623 + 281 + 143 + (132 + 59 * 64) + 267)
}

// four insertions, the words of two slots, and detailed speed of 270 and of 119 minutes
#[test]
fn a_day_with_two_drivers_is_downloaded(rt: HostRuntime) -> Result<(), Fail> {
    asks_by_its_frames_alone(&rt, DAY, 623 + 684 + 143 + (132 + 389 * 64) + 267)
}
