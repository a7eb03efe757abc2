ghost use Rattle.std.specs.Prelude.{◌≤◌, length};

use file_view::{
    ViewFault, card_text, last_days, last_messages, read_card_file, read_download, unit_text,
};
use std::alloc::{AllocError, Global};
use std::process::Abort;
use std::test::Fail;
use tach_media::Memory;

/// The head of a card file: Application_Identification, which tells the least sizes, and Driver_Activity_Data, whose
/// string has 2010-03-01 with a driver's words from 00:02 to 00:04, and 2010-03-02 with no card.
const DAYS: [u8; 54] = [
    0x05, 0x01, 0, 0, 10, 1, 0, 0, 6, 12, 0x15, 0xA8, 0, 84, 84, //
    0x05, 0x04, 0, 0x15, 0xAC, 0, 0, 0, 16, //
    0, 0, 0, 16, 0x4B, 0x8B, 0x03, 0x80, 0, 1, 0, 0, 0x20, 0, 0x18, 2, //
    0, 16, 0, 14, 0x4B, 0x8C, 0x55, 0x00, 0, 2, 0, 0, 0x20, 0,
];

/// Vehicles_Used with one entry, whose end is 2010-03-01 00:03.
const VEHICLES: [u8; 21] = [
    0x05, 0x05, 0, 0x0A, 0x2E, 0, 0, //
    0, 0, 0, 0, 0, 1, 0x4B, 0x8B, 0x03, 0x80, 0x4B, 0x8B, 0x04, 0x34,
];

/// Puts these bytes behind the others, and zeros up to this length.
fn put(bytes: &mut Vec<u8>, part: &[u8], len: usize) -> Result<(), AllocError> {
    bytes.extend_from_slice(part)?;
    bytes.resize(len, 0)
}

/// A card file of the least sizes: Application_Identification at 0, Driver_Activity_Data at 15, Vehicles_Used at 5568.
/// The end mark is the end of its vehicle entry.
fn file(alloc: Global) -> Result<Vec<u8>, AllocError> {
    let mut bytes = Vec::new(alloc);
    put(&mut bytes, &DAYS, 5568)?;
    put(&mut bytes, &VEHICLES, 8179)?;
    Ok(bytes)
}

/// The bytes, of which a file here never has more.
fn short(bytes: &[u8]) -> &[u8]
    ensures { length result.now ≤ 65536 }
{
    &bytes[..bytes.len().min(65536)]
}

/// The place where a file is first outside the grammar, with this byte changed; 0 where it is not.
fn place_of(alloc: Global, at: usize, byte: u8) -> Result<u32, AllocError> {
    let mut bytes = file(alloc)?;
    if at < bytes.len() {
        bytes[at] = byte;
    }
    match read_card_file(alloc, short(bytes.as_slice())) {
        Err(ViewFault::BadFile(place)) => Ok(place),
        _ => Ok(0),
    }
}

/// The text of the newest days of the file, or of all; no text where it is refused.
fn shown(alloc: Global, last: Option<u32>) -> Result<Vec<u8>, Memory> {
    let bytes = file(alloc)?;
    let history = match last {
        Some(n) => last_days(alloc, short(bytes.as_slice()), n),
        None => read_card_file(alloc, short(bytes.as_slice())),
    };
    match history {
        Ok(history) => card_text(alloc, &history),
        Err(_) => Ok(Vec::new(alloc)),
    }
}

#[test]
fn a_card_file_is_shown_up_to_its_end_mark(rt: HostRuntime) -> Result<(), Fail> {
    let text = shown(rt.alloc(), None)?;
    assert!(rt; text.as_slice() == b"2010-03-01 00:02-00:03 driver=drive single\n".as_slice());
    Ok(())
}

#[test]
fn the_newest_day_may_have_no_entry(rt: HostRuntime) -> Result<(), Fail> {
    assert_eq!(rt; shown(rt.alloc(), Some(1))?.len(), 0);
    assert_eq!(rt; shown(rt.alloc(), Some(2))?.len(), 43);
    Ok(())
}

/// A place of the file, the byte that it is given, and the place where the file then fails, or 0.
const FAULTS: [(usize, u8, u32); 7] = [
    (9999, 0, 0),
    // the kind of each entry
    (17, 2, 15),
    (5570, 2, 5568),
    // a signature in place of the days: the vehicle entries are there, the days are missing
    (17, 1, 8179),
    // the days under the identifier of the sizes, a first word at minute 1, a pointer of 84
    (16, 1, 15),
    (37, 1, 15),
    (5574, 84, 5568),
];

#[test]
fn a_file_fails_at_its_first_bad_entry(rt: HostRuntime) -> Result<(), Fail> {
    for (at, byte, place) in FAULTS {
        assert_eq!(rt; place_of(rt.alloc(), at, byte)?, place);
    }
    let read = read_card_file(rt.alloc(), &[]);
    assert!(rt; matches!(read, Err(ViewFault::BadFile(0))));
    Ok(())
}

/// The message of 2010-03-01. Its words are not in the order of their minutes: the driver's second one, of 00:00,
/// decides after the first, of 00:02.
const FIRST_DAY: [u8; 22] = [
    0x76, 2, 0x4B, 0x8B, 0x03, 0x80, 0, 0, 0, 0, 0, 0, 3, //
    0x18, 2, 0x20, 0, 0x80, 1, 0, 0, 0,
];

/// The message of 2010-03-02.
const SECOND_DAY: [u8; 18] = [
    0x76, 2, 0x4B, 0x8C, 0x55, 0, 0, 0, 0, 0, 0, 0, 1, //
    0x00, 1, 0, 0, 0,
];

/// A unit file of an overview, whose time is 2010-03-02 00:02, and the messages of 2010-03-01 and 2010-03-02.
fn unit_file(alloc: Global) -> Result<Vec<u8>, AllocError> {
    let mut bytes = Vec::new(alloc);
    put(&mut bytes, &[0x76, 1], 422)?;
    put(&mut bytes, &[0x4B, 0x8C, 0x55, 0x78], 623)?;
    put(&mut bytes, &FIRST_DAY, 773)?;
    put(&mut bytes, &SECOND_DAY, 919)?;
    Ok(bytes)
}

/// The text of the last messages of days of the file, or of all; no text where it is refused.
fn unit_shown(alloc: Global, last: Option<u32>) -> Result<Vec<u8>, Memory> {
    let bytes = unit_file(alloc)?;
    let history = match last {
        Some(n) => last_messages(alloc, short(bytes.as_slice()), n),
        None => read_download(alloc, short(bytes.as_slice())),
    };
    match history {
        Ok(history) => unit_text(alloc, &history),
        Err(_) => Ok(Vec::new(alloc)),
    }
}

#[test]
fn a_unit_file_is_shown_up_to_its_time(rt: HostRuntime) -> Result<(), Fail> {
    let text = unit_shown(rt.alloc(), None)?;
    let shown = b"2010-03-01 00:00-00:00 driver=rest,out codriver=rest,out single\n\
2010-03-01 00:01-23:59 driver=rest,out codriver=rest,in single\n\
2010-03-02 00:00-00:00 driver=rest,out codriver=rest,out single\n\
2010-03-02 00:01-00:02 driver=rest,in codriver=rest,out single\n";
    assert_eq!(rt; text.len(), shown.len());
    assert!(rt; text.as_slice() == shown.as_slice());
    Ok(())
}

#[test]
fn the_last_message_of_a_day_alone(rt: HostRuntime) -> Result<(), Fail> {
    let text = unit_shown(rt.alloc(), Some(1))?;
    assert_eq!(rt; text.len(), 127);
    Ok(())
}

/// The place where a front of the file is first outside the grammar; 0 also where it is not.
fn unit_place(alloc: Global, len: usize) -> Result<u32, AllocError> {
    let bytes = unit_file(alloc)?;
    match read_download(alloc, short(&bytes.as_slice()[..len.min(bytes.len())])) {
        Err(ViewFault::BadFile(place)) => Ok(place),
        _ => Ok(1),
    }
}

/// How long a front of the file is, and the place that is told of it.
const FRONTS: [(usize, u32); 9] = [
    (0, 0),
    (1, 0),
    (622, 0),
    (623, 1),
    (624, 623),
    (772, 623),
    (773, 1),
    (774, 773),
    (919, 1),
];

#[test]
fn a_unit_file_fails_at_its_first_bad_message(rt: HostRuntime) -> Result<(), Fail> {
    for (len, place) in FRONTS {
        assert_eq!(rt; unit_place(rt.alloc(), len)?, place);
    }
    Ok(())
}
