use crate::noisy_tests::{image, sink_of, unit_with, world_after};
use noisy_link::{Event, World};
use packet_service::{PacketsFault, download_packets, put_packet, serve_packets};
use std::alloc::{AllocError, Global};
use std::process::Abort;
use std::test::*;
use tach_media::{MemSink, MemSource, Memory};

/// The events of a download over a link that keeps all, of at most 64 exchanges.
fn exchanges(alloc: Global) -> Result<Vec<Event>, AllocError> {
    let mut events = Vec::new(alloc);
    for place in 0..64 {
        let exchange = [Event::Send, Event::ToUnit(place), Event::ToLoader(place)];
        events.extend_from_slice(&exchange)?;
    }
    Ok(events)
}

/// A source of what a sink holds.
fn source_of(alloc: Global, sink: &MemSink) -> Result<MemSource, AllocError> {
    Ok(MemSource::new(sink.held().to_vec(alloc)?, Vec::new(alloc)))
}

/// Puts each packet that was sent into a sink, so many times, as a datagram.
fn put_sent(world: &World, times: u32, sink: &mut MemSink) -> bool {
    for place in 0..world.sent() {
        for _time in 0..times {
            if put_packet(world.packet(place), sink).is_err() {
                return false;
            }
        }
    }
    true
}

/// Puts each answer into a sink, so many times, as a datagram.
fn put_answers(world: &World, times: u32, sink: &mut MemSink) -> bool {
    for place in 0..world.answered() {
        for _time in 0..times {
            if put_packet(world.reply(place), sink).is_err() {
                return false;
            }
        }
    }
    true
}

/// The datagrams of a download: the loader's, and the unit's.
#[derive(Drop)]
struct Link {
    requests: MemSink,
    answers: MemSink,
}

/// What goes over a link in a download of a new unit: each request so many times, and each answer twice. The file goes
/// to this sink.
fn link_of(rt: &impl Abort, alloc: Global, times: u32, file: &mut MemSink) -> Result<Link, Memory> {
    let events = exchanges(alloc)?;
    let world = world_after(rt, alloc, events.as_slice(), file)?;
    assert!(rt; world.finished());
    sent_over(rt, alloc, times, &world)
}

/// Each request of this world so many times, and each answer twice.
fn sent_over(rt: &impl Abort, alloc: Global, times: u32, world: &World) -> Result<Link, Memory> {
    let mut requests = sink_of(alloc, 20000)?;
    assert!(rt; put_sent(world, times, &mut requests));
    let mut answers = sink_of(alloc, 20000)?;
    assert!(rt; put_answers(world, 2, &mut answers));
    Ok(Link { requests, answers })
}

/// What a new unit answers to these requests.
fn served(rt: &impl Abort, alloc: Global, requests: &MemSink) -> Result<MemSink, Memory> {
    let mut unit = unit_with(alloc, image(alloc)?)?;
    let mut source = source_of(alloc, requests)?;
    let mut back = sink_of(alloc, 20000)?;
    assert!(rt; serve_packets(&mut source, &mut back, &mut unit).is_ok());
    Ok(back)
}

// Each request comes twice, and each answer goes back twice; what is no packet is passed over.
#[test]
fn each_request_that_comes_is_answered(rt: HostRuntime) -> Result<(), Fail> {
    let mut file = sink_of(rt.alloc(), 2000)?;
    let link = link_of(&rt, rt.alloc(), 2, &mut file)?;
    let back = served(&rt, rt.alloc(), &link.requests)?;
    assert!(rt; back.held().len() > 2000);
    assert!(rt; back.held() == link.answers.held());
    Ok(())
}

/// What a loader sends to which these answers come; the file goes to this sink.
fn loaded(
    rt: &impl Abort,
    alloc: Global,
    answers: &MemSink,
    file: &mut MemSink,
) -> Result<MemSink, Memory> {
    let mut source = source_of(alloc, answers)?;
    let mut sent = sink_of(alloc, 20000)?;
    assert_eq!(rt;
        download_packets(alloc, &mut source, &mut sent, file),
        Ok(())
    );
    Ok(sent)
}

// Each answer comes twice, and each request goes out once: the file is that of a download.
#[test]
fn each_answer_is_taken_once(rt: HostRuntime) -> Result<(), Fail> {
    let mut wanted = sink_of(rt.alloc(), 2000)?;
    let link = link_of(&rt, rt.alloc(), 1, &mut wanted)?;
    let mut file = sink_of(rt.alloc(), 2000)?;
    let sent = loaded(&rt, rt.alloc(), &link.answers, &mut file)?;
    assert_eq!(rt; file.held().len(), 623 + 143 + 132 + 267);
    assert!(rt; file.held() == wanted.held());
    assert!(rt; sent.held() == link.requests.held());
    Ok(())
}

/// How a download by packets ends where these bytes come, and what goes to the link.
fn sent_behind(
    alloc: Global,
    bytes: &[u8],
) -> Result<(Result<(), PacketsFault>, Vec<u8>), AllocError> {
    let mut source = MemSource::new(bytes.to_vec(alloc)?, Vec::new(alloc));
    let mut link = sink_of(alloc, 200)?;
    let mut file = sink_of(alloc, 0)?;
    let ended = download_packets(alloc, &mut source, &mut link, &mut file);
    Ok((ended, link.held().to_vec(alloc)?))
}

/// The first request: the start of communication with number 1.
const FIRST: [u8; 12] = *b"\x00\x0A\x4E\x00\x00\x00\x00\x00\x00\x00\x01\x81";

/// How a download by packets ends where these bytes come, and how many bytes go to the link.
fn ends_behind(
    rt: &impl Abort,
    alloc: Global,
    bytes: &[u8],
    fault: PacketsFault,
    len: usize,
) -> Result<(), AllocError> {
    let (ended, sent) = sent_behind(alloc, bytes)?;
    assert_eq!(rt; ended, Err(fault));
    assert_eq!(rt; sent.len(), len);
    Ok(())
}

// An empty datagram lets the loader's end send again; one that is no packet does not, and a length of more than 264
// ends it.
#[test]
fn an_empty_datagram_is_a_tick(rt: HostRuntime) -> Result<(), Fail> {
    let (_ended, sent) = sent_behind(rt.alloc(), &[])?;
    assert!(rt; sent.as_slice() == FIRST.as_slice());
    ends_behind(&rt, rt.alloc(), &[], PacketsFault::Ended, FIRST.len())?;
    let two = [0, 0, 0, 1, 0x4E, 0, 0, 0, 1];
    ends_behind(&rt, rt.alloc(), &two, PacketsFault::Ended, 3 * FIRST.len())?;
    let long = [0, 0, 1, 9];
    ends_behind(
        &rt,
        rt.alloc(),
        &long,
        PacketsFault::TooLong,
        2 * FIRST.len(),
    )?;
    Ok(())
}
