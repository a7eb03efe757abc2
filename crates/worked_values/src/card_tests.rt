use card_commands::SimCard;
use card_download::{CardFileFault, write_card_file};
use card_layout::LARGEST_IMAGE;
use std::alloc::{AllocError, Global};
use std::ops::Range;
use std::process::Abort;
use std::test::*;
use tach_media::{Chip, Left, MemMedium, MemSink, Memory, Stop};

/// Application_Identification of the largest sizes.
const SIZES: [u8; 10] = [0x01, 0x00, 0x00, 0x0C, 0x18, 0x35, 0xD0, 0x00, 0xC8, 0x70];

/// The files of a card file of the largest sizes: identifier, place in the flat image, length.
const FILES: [(u16, u16, u16); 15] = [
    (0x0002, 0, 25),
    (0x0005, 25, 8),
    (0x0501, 33, 10),
    (0x0502, 43, 1728),
    (0x0503, 1771, 1152),
    (0x0504, 2923, 13780),
    (0x0505, 16703, 6202),
    (0x0506, 22905, 1121),
    (0x0507, 24026, 19),
    (0x0508, 24045, 46),
    (0x0520, 24095, 143),
    (0x0521, 24238, 53),
    (0x0522, 24291, 280),
    (0xC100, 24571, 194),
    (0xC108, 24765, 194),
];

/// How many bytes that is.
const FILE_SIZE: usize = 25030;

/// For each of these places of an image a byte that tells it.
fn push_places(image: &mut Vec<u8>, places: Range<u32>) -> Result<(), AllocError> {
    for place in places {
        image.push((place % 251) as u8)?;
    }
    Ok(())
}

/// The image of a card with these bytes of Application_Identification, in which the bytes of each other file tell their
/// places.
fn image(alloc: Global, sizes: &[u8; 10]) -> Result<Vec<u8>, AllocError> {
    let mut image = Vec::new(alloc);
    push_places(&mut image, 0..33)?;
    image.extend_from_slice(sizes)?;
    push_places(&mut image, 43..LARGEST_IMAGE)?;
    Ok(image)
}

/// How the writing ends over a card: the answer, what was written, and how many writes to the card were begun.
#[derive(Drop)]
struct Ended {
    answer: Result<(), CardFileFault>,
    held: Vec<u8>,
    clock: u64,
}

/// A card of this image; these calls of it fail.
fn card_of(alloc: Global, image: Vec<u8>, stops: Vec<Stop>) -> Result<SimCard<MemMedium>, Memory> {
    if image.len() != LARGEST_IMAGE as usize {
        return Err(Memory);
    }
    Ok(SimCard::new(MemMedium::new(alloc, image, 0, 0, stops)?))
}

/// How the writing ends over a card with these bytes of Application_Identification, to a sink of this room; these calls
/// of the card fail.
fn ends(alloc: Global, sizes: &[u8; 10], room: usize, stops: Vec<Stop>) -> Result<Ended, Memory> {
    let mut card = card_of(alloc, image(alloc, sizes)?, stops)?;
    let mut sink = MemSink::new(Vec::with_capacity(alloc, room)?, Vec::new(alloc));
    let answer = write_card_file(&mut card, &mut sink);
    let held = sink.held().to_vec(alloc)?;
    Ok(Ended {
        answer,
        held,
        clock: card.clock(),
    })
}

/// The card file of this image: each file of the table behind its head.
fn file_of(alloc: Global, image: &[u8]) -> Result<Vec<u8>, AllocError> {
    let mut file = Vec::new(alloc);
    for (fid, place, len) in FILES {
        let [f0, f1] = fid.to_be_bytes();
        let [l0, l1] = len.to_be_bytes();
        file.extend_from_slice(&[f0, f1, 0, l0, l1])?;
        let begin = usize::from(place);
        let end = begin.saturating_add(usize::from(len));
        if let Some(bytes) = image.get(begin..end) {
            file.extend_from_slice(bytes)?;
        }
    }
    Ok(file)
}

/// The card file of a card of the largest sizes.
fn whole_file(alloc: Global) -> Result<Vec<u8>, AllocError> {
    let image = image(alloc, &SIZES)?;
    file_of(alloc, image.as_slice())
}

/// The writing ended so, with so many bytes in the sink.
fn ends_so(rt: &impl Abort, ended: &Ended, answer: Result<(), CardFileFault>, len: usize) {
    assert_eq!(rt; ended.answer, answer);
    assert_eq!(rt; ended.held.len(), len);
}

#[test]
fn a_card_is_written_whole(rt: HostRuntime) -> Result<(), Fail> {
    let file = whole_file(rt.alloc())?;
    assert_eq!(rt; file.len(), FILE_SIZE);
    let ended = ends(rt.alloc(), &SIZES, FILE_SIZE, Vec::new(rt.alloc()))?;
    ends_so(&rt, &ended, Ok(()), FILE_SIZE);
    assert!(rt; ended.held.as_slice() == file.as_slice());
    assert_eq!(rt; ended.clock, 0);
    Ok(())
}

// A string of days whose length is odd.
#[test]
fn a_bad_field_is_named(rt: HostRuntime) -> Result<(), Fail> {
    let mut sizes = SIZES;
    sizes[6] = 0xD1;
    let ended = ends(rt.alloc(), &sizes, FILE_SIZE, Vec::new(rt.alloc()))?;
    ends_so(&rt, &ended, Err(CardFileFault::BadApplication(5)), 0);
    Ok(())
}

// The file at 0 is there, and the head of the next.
#[test]
fn a_card_that_fails_is_told(rt: HostRuntime) -> Result<(), Fail> {
    let mut stops = Vec::new(rt.alloc());
    stops.push(Stop {
        call: 3,
        left: Left::Before,
    })?;
    let ended = ends(rt.alloc(), &SIZES, FILE_SIZE, stops)?;
    ends_so(&rt, &ended, Err(CardFileFault::Failed), 35);
    Ok(())
}

#[test]
fn a_full_sink_is_told(rt: HostRuntime) -> Result<(), Fail> {
    let ended = ends(rt.alloc(), &SIZES, 700, Vec::new(rt.alloc()))?;
    ends_so(&rt, &ended, Err(CardFileFault::WriteFault), 700);
    Ok(())
}
