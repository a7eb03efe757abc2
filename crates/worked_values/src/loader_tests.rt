use link_frames::Frame;
use link_loader::{Downloader, LoadFault};
use std::alloc::Global;
use std::process::Abort;
use std::test::*;
use tach_media::MemSink;

const UPLOAD: [u8; 10] = [0x35, 0, 0, 0, 0, 0, 0xFF, 0xFF, 0xFF, 0xFF];

// The overview of a unit with one day, 2010-03-01: its period's begin stands in bytes 426 to 429, and its end, 00:20,
// in the four behind these.
fn overview() -> [u8; 623] {
    let mut bytes = [0u8; 623];
    bytes[..2].copy_from_slice(&[0x76, 1]);
    bytes[426..434].copy_from_slice(&[0x4B, 0x8B, 0x03, 0x80, 0x4B, 0x8B, 0x08, 0x30]);
    bytes
}

// The message of that day.
fn day() -> [u8; 144] {
    let mut bytes = [0u8; 144];
    bytes[..6].copy_from_slice(&[0x76, 2, 0x4B, 0x8B, 0x03, 0x80]);
    bytes
}

// The message of events.
fn events() -> [u8; 143] {
    let mut bytes = [0u8; 143];
    bytes[..2].copy_from_slice(&[0x76, 3]);
    bytes
}

// A frame, where it has 1 to 255 bytes.
fn framed(bytes: &[u8]) -> Frame {
    if bytes.is_empty() || bytes.len() > 255 {
        return Frame::new(&[0]);
    }
    Frame::new(bytes)
}

// A piece of a message: its number, the counter, and these bytes.
fn piece(alloc: Global, number: u8, counter: u8, bytes: &[u8]) -> Frame {
    let mut data = Vec::new(alloc);
    let _ = data.extend_from_slice(&[0x76, number, 0, counter]);
    let _ = data.extend_from_slice(bytes);
    framed(data.as_slice())
}

// A piece of the overview.
fn of_overview(alloc: Global, counter: u8) -> Frame {
    let bytes = overview();
    match counter {
        1 => piece(alloc, 1, 1, &bytes[2..253]),
        2 => piece(alloc, 1, 2, &bytes[253..504]),
        _ => piece(alloc, 1, 3, &bytes[504..]),
    }
}

// Whether the loader sends this, and takes that answer.
fn goes(loader: &mut Downloader, sink: &mut MemSink, sent: &[u8], answer: &Frame) -> bool {
    let right = match loader.next() {
        Some(frame) => frame.bytes() == sent,
        None => false,
    };
    right && loader.take(answer, sink).is_ok()
}

// A loader that has asked for the overview.
fn asks_for_the_overview(alloc: Global, sink: &mut MemSink) -> Downloader {
    let mut loader = Downloader::new(alloc);
    let _ = goes(&mut loader, sink, &[0x81], &Frame::new(&[0xC1, 0xEA, 0x8F]));
    let _ = goes(&mut loader, sink, &[0x10, 0x81], &Frame::new(&[0x50, 0x81]));
    let _ = goes(&mut loader, sink, &UPLOAD, &Frame::new(&[0x75, 0x00, 0xFF]));
    loader
}

// What ends the download where this comes as the answer to the request of the overview; a loader whose download is over
// sends nothing.
fn ends_with(alloc: Global, answer: &Frame) -> Option<LoadFault> {
    let mut sink = MemSink::new(Vec::new(alloc), Vec::new(alloc));
    let mut loader = asks_for_the_overview(alloc, &mut sink);
    let result = loader.take(answer, &mut sink);
    match (result, loader.next()) {
        (Err(fault), None) => Some(fault),
        _ => None,
    }
}

// The overview goes to the sink with the last of its pieces.
fn overview_comes(rt: &impl Abort, alloc: Global, loader: &mut Downloader, sink: &mut MemSink) {
    assert!(rt; goes(loader, sink, &[0x36, 1], &of_overview(alloc, 1)));
    assert!(rt; goes(loader, sink, &[0x83, 0x76, 0, 2], &of_overview(alloc, 2)));
    assert!(rt; sink.held().is_empty());
    assert!(rt; goes(loader, sink, &[0x83, 0x76, 0, 3], &of_overview(alloc, 3)));
    assert_eq!(rt; sink.held(), &overview()[..]);
}

// The day and the events come; speeds do not.
fn others_come(rt: &impl Abort, loader: &mut Downloader, sink: &mut MemSink) {
    let asked = [0x36, 2, 0x4B, 0x8B, 0x03, 0x80];
    assert!(rt; goes(loader, sink, &asked, &framed(&day())));
    assert!(rt; goes(loader, sink, &[0x36, 3], &framed(&events())));
    assert!(rt; goes(loader, sink, &[0x36, 4], &framed(&[0x7F, 0x36, 0xFA])));
}

// Technical data come in two pieces, and the download ends.
fn end_comes(rt: &impl Abort, alloc: Global, loader: &mut Downloader, sink: &mut MemSink) {
    let one = piece(alloc, 5, 1, &[0; 251]);
    let last = piece(alloc, 5, 2, &[0; 14]);
    assert!(rt; goes(loader, sink, &[0x36, 5], &one));
    assert!(rt; goes(loader, sink, &[0x83, 0x76, 0, 2], &last));
    assert!(rt; goes(loader, sink, &[0x37], &framed(&[0x77])));
    assert!(rt; goes(loader, sink, &[0x82], &framed(&[0xC2])));
    assert!(rt; loader.next().is_none());
}

// Whether these bytes stand at a place of what the sink holds.
fn has(held: &[u8], place: usize, bytes: &[u8]) -> bool {
    match held.get(place..) {
        Some(rest) => rest.starts_with(bytes),
        None => false,
    }
}

// The four messages that came are what the sink holds.
fn holds_four(rt: &impl Abort, held: &[u8]) {
    assert_eq!(rt; held.len(), 623 + 144 + 143 + 267);
    assert!(rt; has(held, 623, &day()));
    assert!(rt; has(held, 767, &events()));
    assert!(rt; has(held, 910, &[0x76, 5]));
}

#[test]
fn downloads_four_messages(rt: HostRuntime) -> Result<(), Fail> {
    let alloc = rt.alloc();
    let mut sink = MemSink::new(Vec::with_capacity(alloc, 2000)?, Vec::new(alloc));
    let mut loader = asks_for_the_overview(alloc, &mut sink);
    assert!(rt; loader.reserve().is_ok());
    overview_comes(&rt, alloc, &mut loader, &mut sink);
    others_come(&rt, &mut loader, &mut sink);
    end_comes(&rt, alloc, &mut loader, &mut sink);
    holds_four(&rt, sink.held());
    Ok(())
}

// The download ends so at this answer to the request of the overview.
fn ends_so(rt: &impl Abort, alloc: Global, answer: &Frame, fault: Option<LoadFault>) {
    assert_eq!(rt; ends_with(alloc, answer), fault);
}

#[test]
fn ends_at_what_is_no_answer(rt: HostRuntime) {
    let alloc = rt.alloc();
    let refused = framed(&[0x7F, 0x36, 0x22]);
    ends_so(&rt, alloc, &refused, Some(LoadFault::Negative(0x36, 0x22)));
    let absent = framed(&[0x7F, 0x36, 0xFA]);
    ends_so(&rt, alloc, &absent, Some(LoadFault::Negative(0x36, 0xFA)));
    ends_so(
        &rt,
        alloc,
        &framed(&[0x76, 1, 0]),
        Some(LoadFault::Unexpected),
    );
    ends_so(
        &rt,
        alloc,
        &piece(alloc, 1, 2, &[0; 251]),
        Some(LoadFault::Broken(1, 2)),
    );
    ends_so(
        &rt,
        alloc,
        &piece(alloc, 3, 1, &[0; 251]),
        Some(LoadFault::Unexpected),
    );
    ends_so(&rt, alloc, &piece(alloc, 1, 1, &[0; 251]), None);
}

#[test]
fn ends_at_a_short_message(rt: HostRuntime) {
    let alloc = rt.alloc();
    let mut sink = MemSink::new(Vec::new(alloc), Vec::new(alloc));
    let mut loader = asks_for_the_overview(alloc, &mut sink);
    let one = piece(alloc, 1, 1, &[0; 251]);
    let short = piece(alloc, 1, 2, &[0; 119]);
    assert!(rt; loader.take(&one, &mut sink).is_ok());
    assert_eq!(rt; loader.take(&short, &mut sink), Err(LoadFault::Unexpected));
    assert!(rt; loader.next().is_none());
}

// The first write fails: the download ends with the last piece of the overview.
fn fails_with_the_last(
    rt: &impl Abort,
    alloc: Global,
    loader: &mut Downloader,
    sink: &mut MemSink,
) {
    assert!(rt; loader.take(&of_overview(alloc, 1), sink).is_ok());
    assert!(rt; loader.take(&of_overview(alloc, 2), sink).is_ok());
    assert_eq!(rt;
        loader.take(&of_overview(alloc, 3), sink),
        Err(LoadFault::WriteFault)
    );
    assert!(rt; loader.next().is_none());
}

#[test]
fn ends_where_the_sink_fails(rt: HostRuntime) -> Result<(), Fail> {
    let alloc = rt.alloc();
    let mut sink = MemSink::new(Vec::with_capacity(alloc, 2000)?, vec![in alloc; 0]?);
    let mut loader = asks_for_the_overview(alloc, &mut sink);
    fails_with_the_last(&rt, alloc, &mut loader, &mut sink);
    Ok(())
}
