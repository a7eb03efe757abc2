ghost use Rattle.std.specs.Prelude.{◌≡◌, IfOk, IfSome};
ghost use Rattle.tach_media.specs.MemMedium.{memory_state};
ghost use Rattle.link_session.specs.Told.{Knows};
ghost use Rattle.unit_model.specs.Image.{IsUnit};
ghost use Rattle.unit_model.specs.declared.layout.TheConstants.{IMAGE_SIZE};

use noisy_download::download_noisy;
use noisy_link::{Event, Packet, World};
use std::alloc::{AllocError, Global};
use std::process::Abort;
use std::test::*;
use tach_media::{Medium, MemMedium, MemSink, Memory};
use unit_download::{Wire, download};
use unit_model::layout::IMAGE_SIZE;

/// What stands in front of the image of a new unit: its version, the identification number, the registration and the
/// limit.
const FRONT: [u8; 37] = *b"\x00\x00\x00\x01TACHODEMO00000001\x0D\x01DEMO         Z";

/// The image of a new unit.
pub fn image(alloc: Global) -> Result<Vec<u8>, AllocError> {
    let mut image = Vec::with_capacity(alloc, IMAGE_SIZE as usize)?;
    image.extend_from_slice(&FRONT)?;
    image.resize(IMAGE_SIZE as usize, 0)?;
    Ok(image)
}

/// A unit with this image.
pub fn unit_with(alloc: Global, image: Vec<u8>) -> Result<MemMedium, Memory>
    ensures { IfOk result (λ unit. IsUnit (memory_state unit.log unit.counts)) }
{
    if image.len() != IMAGE_SIZE as usize {
        return Err(Memory);
    }
    MemMedium::new(alloc, image, 0, 0, Vec::new(alloc))
}

/// Whether each of these events ends well.
pub fn happen_all<U: Medium>(
    world: &mut World,
    unit: &mut U,
    events: &[Event],
    sink: &mut MemSink,
) -> bool
    requires unit { (U.state unit.old).size ≡ IMAGE_SIZE }
    requires knows { IfSome (U.state unit.old).image (Knows world.old.unit.side) }
{
    for event in events {
        if world.step(unit, event, sink).is_err() {
            return false;
        }
    }
    true
}

/// Whether a packet has this number and this frame.
fn is_packet(packet: &Packet, number: u64, bytes: &[u8]) -> bool {
    match &packet.frame {
        Some(frame) => packet.number == number && frame.bytes() == bytes,
        None => false,
    }
}

/// Whether the answer of this place has this number and this frame.
fn is_reply(world: &World, place: u32, number: u64, bytes: &[u8]) -> bool {
    place < world.answered() && is_packet(world.reply(place), number, bytes)
}

/// A sink with room for so many bytes.
pub fn sink_of(alloc: Global, room: usize) -> Result<MemSink, AllocError> {
    Ok(MemSink::new(Vec::with_capacity(alloc, room)?, Vec::new(alloc)))
}

/// A world in which these events happened over a new unit, each of which ends well; its file goes to this sink.
pub fn world_after(
    rt: &impl Abort,
    alloc: Global,
    events: &[Event],
    sink: &mut MemSink,
) -> Result<World, Memory> {
    let mut unit = unit_with(alloc, image(alloc)?)?;
    let mut world = World::new(alloc);
    assert!(rt; happen_all(&mut world, &mut unit, events, sink));
    Ok(world)
}

/// The start of communication is sent twice and comes twice; a late copy of it comes behind the next request.
const LATE: [Event; 9] = [
    Event::Send,
    Event::Send,
    Event::ToUnit(0),
    Event::ToUnit(1),
    Event::ToLoader(1),
    Event::ToLoader(0),
    Event::Send,
    Event::ToUnit(0),
    Event::ToUnit(2),
];

/// So many packets were sent, given, and taken by a loader that is not through.
fn counts(rt: &impl Abort, world: &World) {
    assert_eq!(rt; world.sent(), 3);
    assert_eq!(rt; world.answered(), 4);
    assert_eq!(rt; world.taken(), 1);
    assert!(rt; !world.finished());
}

/// The answers: the first three are to the start of communication.
fn replies(rt: &impl Abort, world: &World) {
    for place in 0..3 {
        assert!(rt; is_reply(world, place, 1, &[0xC1, 0xEA, 0x8F]));
    }
    assert!(rt; is_reply(world, 3, 2, &[0x50, 0x81]));
}

#[test]
fn a_late_start_is_answered_again(rt: HostRuntime) -> Result<(), Fail> {
    let mut sink = sink_of(rt.alloc(), 2000)?;
    let world = world_after(&rt, rt.alloc(), &LATE, &mut sink)?;
    counts(&rt, &world);
    replies(&rt, &world);
    assert_eq!(rt; sink.held().len(), 0);
    Ok(())
}

/// A file, and how many frames are on the wire of its download.
#[derive(Drop)]
struct File {
    bytes: Vec<u8>,
    frames: usize,
}

/// What a download of a new unit gives.
fn plain_file(rt: &impl Abort, alloc: Global) -> Result<File, Memory> {
    let mut unit = unit_with(alloc, image(alloc)?)?;
    let mut sink = sink_of(alloc, 2000)?;
    let mut wire = Wire::new(alloc);
    assert_eq!(rt; download(alloc, &mut sink, &mut unit, &mut wire), Ok(()));
    let bytes = sink.held().to_vec(alloc)?;
    Ok(File {
        bytes,
        frames: wire.len(),
    })
}

/// What a noisy download of a new unit by this seed gives.
fn noisy_file(rt: &impl Abort, alloc: Global, seed: u32) -> Result<File, Memory> {
    let mut unit = unit_with(alloc, image(alloc)?)?;
    let mut sink = sink_of(alloc, 2000)?;
    let mut wire = Wire::new(alloc);
    assert_eq!(rt;
        download_noisy(alloc, seed, &mut sink, &mut unit, &mut wire),
        Ok(())
    );
    let bytes = sink.held().to_vec(alloc)?;
    Ok(File {
        bytes,
        frames: wire.len(),
    })
}

/// By this seed the file is that of a download, and the wire is as long.
fn shows_no_noise(rt: &impl Abort, alloc: Global, seed: u32, plain: &File) -> Result<(), Memory> {
    let noisy = noisy_file(rt, alloc, seed)?;
    assert!(rt; noisy.bytes.as_slice() == plain.bytes.as_slice());
    assert_eq!(rt; noisy.frames, plain.frames);
    Ok(())
}

#[test]
fn noise_does_not_show(rt: HostRuntime) -> Result<(), Fail> {
    let plain = plain_file(&rt, rt.alloc())?;
    assert_eq!(rt; plain.bytes.len(), 623 + 143 + 132 + 267);
    shows_no_noise(&rt, rt.alloc(), 0, &plain)?;
    shows_no_noise(&rt, rt.alloc(), 7, &plain)?;
    Ok(())
}
