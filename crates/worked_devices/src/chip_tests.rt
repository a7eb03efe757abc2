ghost use Rattle.std.specs.Prelude.{◌≡◌, ◌+◌, ◌≤◌, IfOk, vec_len};

use card_commands::{Answer, Port, PortFault, SimCard, read_command};
use card_layout::LARGEST_IMAGE;
use std::alloc::{AllocError, Global};
use std::process::Abort;
use std::test::Fail;
use tach_media::{Chip, Failed, Left, Medium, MemMedium, Memory, Stop};

/// Application_Identification of the largest card.
const LARGEST: [u8; 10] = [0x01, 0x00, 0x00, 0x0C, 0x18, 0x35, 0xD0, 0x00, 0xC8, 0x70];

/// A card's image of zeros, but for these bytes of Application_Identification.
fn image(alloc: Global, application: &[u8; 10]) -> Result<Vec<u8>, Memory>
    ensures { IfOk result (λ image. vec_len image ≡ LARGEST_IMAGE) }
{
    let mut image = vec![in alloc; 0u8; LARGEST_IMAGE as usize]?;
    let place = &mut image[33..43];
    place.copy_from_slice(application);
    Ok(image)
}

/// A command, and the answer that is wanted.
fn expect_answer(rt: &impl Abort, card: &mut impl Chip, command: &[u8], want: &[u8]) {
    let mut answer = Answer::new();
    assert!(rt; card.transmit(command, &mut answer).is_ok());
    assert_eq!(rt; answer.as_slice(), want);
}

/// Commands one after another to a blank card of the largest sizes, with their answers.
const OF_THE_LARGEST: [(&[u8], &[u8]); 8] = [
    // DF Tachograph, Driver_Activity_Data
    (
        &[
            0x00, 0xA4, 0x04, 0x0C, 0x06, 0xFF, 0x54, 0x41, 0x43, 0x48, 0x4F,
        ],
        &[0x90, 0x00],
    ),
    (&[0x00, 0xA4, 0x02, 0x0C, 0x02, 0x05, 0x04], &[0x90, 0x00]),
    (&[0x00, 0xB0, 0x00, 0x00, 0x04], &[0, 0, 0, 0, 0x90, 0x00]),
    // past its end, at its end, over its end
    (&[0x00, 0xB0, 0x35, 0xD5, 0x01], &[0x6B, 0x00]),
    (&[0x00, 0xB0, 0x35, 0xD4, 0x01], &[0x67, 0x00]),
    (&[0x00, 0xB0, 0x35, 0xD3, 0x02], &[0x67, 0x00]),
    // Identification is not updated
    (&[0x00, 0xA4, 0x02, 0x0C, 0x02, 0x05, 0x20], &[0x90, 0x00]),
    (&[0x00, 0xD6, 0x00, 0x00, 0x01, 0x00], &[0x69, 0x82]),
];

/// Malformed commands to a card of the largest sizes with no file selected, each with its status word.
const MALFORMED: [(&[u8], [u8; 2]); 18] = [
    // fewer than five bytes
    (&[], [0x67, 0x00]),
    (&[0x80], [0x67, 0x00]),
    (&[0x80, 0xC0], [0x67, 0x00]),
    (&[0x80, 0xC0, 0xFF], [0x67, 0x00]),
    (&[0x80, 0xC0, 0xFF, 0xFF], [0x67, 0x00]),
    // the class, the instruction, P1 and P2
    (&[0x80, 0xC0, 0xFF, 0xFF, 0xFF], [0x6E, 0x00]),
    (&[0x00, 0xC0, 0xFF, 0xFF, 0xFF], [0x6D, 0x00]),
    (&[0x00, 0xA4, 0x04, 0x00, 0x06], [0x6A, 0x86]),
    (&[0x00, 0xB0, 0x80, 0x00, 0x01, 0x00], [0x6A, 0x86]),
    (&[0x00, 0xD6, 0xFF, 0x00, 0x00], [0x6A, 0x86]),
    // the length and the number of bytes
    (&[0x00, 0xA4, 0x04, 0x0C, 0x06, 0xFF, 0x54], [0x67, 0x00]),
    (&[0x00, 0xA4, 0x02, 0x0C, 0x03, 0x05, 0x04], [0x67, 0x00]),
    (&[0x00, 0xB0, 0x00, 0x00, 0x01, 0x00], [0x67, 0x00]),
    (&[0x00, 0xD6, 0x00, 0x00, 0x00], [0x67, 0x00]),
    (&[0x00, 0xD6, 0x00, 0x00, 0x02, 0x00], [0x67, 0x00]),
    // another name, a file of another directory, no selected file
    (
        &[
            0x00, 0xA4, 0x04, 0x0C, 0x06, 0xFF, 0x54, 0x41, 0x43, 0x48, 0x50,
        ],
        [0x6A, 0x82],
    ),
    (&[0x00, 0xA4, 0x02, 0x0C, 0x02, 0x05, 0x04], [0x6A, 0x82]),
    (&[0x00, 0xB0, 0x00, 0x00, 0x00], [0x69, 0x86]),
];

/// A card of the largest sizes.
fn largest(alloc: Global) -> Result<SimCard<MemMedium>, Memory> {
    let image = image(alloc, &LARGEST)?;
    Ok(SimCard::new(MemMedium::new(alloc, image, 0, 0, Vec::new(alloc))?))
}

#[test]
fn answers_of_the_largest_card(rt: HostRuntime) -> Result<(), Fail> {
    let mut card = largest(rt.alloc())?;
    for (command, answer) in OF_THE_LARGEST {
        expect_answer(&rt, &mut card, command, answer);
    }
    assert_eq!(rt; card.medium().calls(), 3);
    Ok(())
}

/// A command of 260 bytes that says that it has 254, and one that says 255.
fn long_commands(rt: &impl Abort, card: &mut impl Chip) {
    let mut long = [0u8; 260];
    long[1] = 0xD6;
    long[4] = 0xFE;
    expect_answer(rt, card, &long, &[0x67, 0x00]);
    long[4] = 0xFF;
    expect_answer(rt, card, &long, &[0x69, 0x86]);
}

/// Malformed bytes, each with the status word that is wanted.
#[test]
fn malformed_commands(rt: HostRuntime) -> Result<(), Fail> {
    let mut card = largest(rt.alloc())?;
    for (command, status) in MALFORMED {
        expect_answer(&rt, &mut card, command, &status);
    }
    long_commands(&rt, &mut card);
    assert_eq!(rt; read_command(&[0, 0xD6, 0, 0]).err(), Some(0x6700));
    Ok(())
}

/// What is left of an issue of a card whose nth call fails so, and whether it was made.
#[derive(Drop)]
struct Issued {
    made: bool,
    left: Vec<u8>,
}

/// The bytes of a card before.
fn old(alloc: Global) -> Result<Vec<u8>, AllocError>
    ensures { IfOk result (λ image. vec_len image ≡ LARGEST_IMAGE) }
{
    Ok(vec![in alloc; 0x11u8; LARGEST_IMAGE as usize]?)
}

/// What a medium holds once it works again.
fn all_of(alloc: Global, medium: &mut MemMedium) -> Result<Vec<u8>, Memory> {
    let mut out = vec![in alloc; 0u8; LARGEST_IMAGE as usize]?;
    if medium.size() < LARGEST_IMAGE || medium.revive().is_err() {
        return Err(Memory);
    }
    match medium.read_at(0, &mut out) {
        Ok(()) => Ok(out),
        Err(Failed) => Err(Memory),
    }
}

/// The medium of a card behind an issue that is stopped so, and whether that was made.
fn issue_stopped(alloc: Global, new: &[u8], stop: Stop) -> Result<(bool, MemMedium), Memory> {
    let mut stops = Vec::new(alloc);
    stops.push(stop).map_err(|_| Memory)?;
    let medium = MemMedium::new(alloc, old(alloc)?, 4, 24960, stops)?;
    if new.len() != LARGEST_IMAGE as usize {
        return Err(Memory);
    }
    let mut card = SimCard::new(medium);
    let made = card.issue(new).is_ok();
    Ok((made, card.into_medium()))
}

/// What is left of an issue that is stopped so.
fn left_of(alloc: Global, new: &[u8], stop: Stop) -> Result<Issued, Memory> {
    let (made, mut medium) = issue_stopped(alloc, new, stop)?;
    let left = all_of(alloc, &mut medium)?;
    Ok(Issued { made, left })
}

/// An issue whose nth call fails so is not made: the card has no type, or all is new, or as it was at the first call.
fn fails_at(rt: &impl Abort, alloc: Global, call: u64, left: Left) -> Result<(), Memory> {
    let new = image(alloc, &LARGEST)?;
    let issued = left_of(alloc, &new, Stop { call, left })?;
    let bytes = issued.left.as_slice();
    assert!(rt; !issued.made);
    let is_old = call == 0 && bytes == old(alloc)?.as_slice();
    assert!(rt; bytes.get(33) == Some(&0) || bytes == new.as_slice() || is_old);
    Ok(())
}

/// An issue that is not stopped is made, and all is new.
fn is_made(rt: &impl Abort, alloc: Global, left: Left) -> Result<(), Memory> {
    let new = image(alloc, &LARGEST)?;
    let issued = left_of(alloc, &new, Stop { call: 99, left })?;
    assert!(rt; issued.made);
    assert!(rt; issued.left.as_slice() == new.as_slice());
    Ok(())
}

#[test]
fn an_issue_that_is_stopped(rt: HostRuntime) -> Result<(), Fail> {
    for left in [Left::Before, Left::After, Left::Torn(0xAA)] {
        for call in 0..4 {
            fails_at(&rt, rt.alloc(), call, left)?;
        }
        is_made(&rt, rt.alloc(), left)?;
    }
    Ok(())
}

/// So many bytes of a medium that works again.
fn bytes<const N: usize>(medium: &mut MemMedium, place: u32) -> Result<[u8; N], Failed>
    requires { place + N ≤ 100 }
{
    let mut out = [9; N];
    if medium.size() < 100 {
        return Err(Failed);
    }
    medium.read_at(place, &mut out)?;
    Ok(out)
}

/// Of a card that is stopped at the third write of its issue the front is new, its type is 0, and what stands behind
/// that is old.
fn has_the_front(rt: &impl Abort, medium: &mut MemMedium, new: &[u8]) {
    assert!(rt; medium.revive().is_ok());
    match bytes::<33>(medium, 0) {
        Ok(front) => assert!(rt; new.starts_with(&front)),
        Err(Failed) => assert!(rt; false),
    }
    assert!(rt; bytes(medium, 33) == Ok([0u8; 1]));
    assert!(rt; bytes(medium, 34) == Ok([0x11u8; 66]));
    assert_eq!(rt; medium.clock(), 3);
}

/// An issue that is stopped at its third write has written what stands before the card type, and nothing behind it.
#[test]
fn an_issue_writes_the_front_before_the_back(rt: HostRuntime) -> Result<(), Fail> {
    let new = image(rt.alloc(), &LARGEST)?;
    let stop = Stop {
        call: 2,
        left: Left::Before,
    };
    let (made, mut medium) = issue_stopped(rt.alloc(), &new, stop)?;
    assert!(rt; !made);
    has_the_front(&rt, &mut medium, &new);
    Ok(())
}

/// The clock, the string's length, the card type, and the last of 300 bytes that were written, all through a port.
fn through_a_port<C: Chip>(card: &mut C) -> Result<(u64, u16, u8, u8), PortFault>
    requires { LARGEST_IMAGE ≤ (C.state card.old).size }
{
    let mut bytes = [0; 300];
    bytes[299] = 9;
    let mut out = [0; 330];
    let mut port = Port::load(&mut *card)?;
    port.write_at(43, &bytes)?;
    port.read_at(30, &mut out)?;
    Ok((port.clock(), port.application().activity, out[3], out[312]))
}

#[test]
fn a_port_over_a_card(rt: HostRuntime) -> Result<(), Fail> {
    let alloc = rt.alloc();
    let medium = MemMedium::new(alloc, image(alloc, &LARGEST)?, 8, 1024, Vec::new(alloc))?;
    let mut card = SimCard::new(medium);
    assert_eq!(rt; through_a_port(&mut card), Ok((2, 13776, 1, 9)));
    assert_eq!(rt; card.clock(), 2);
    Ok(())
}

/// A card with these bytes of Application_Identification is no card of the profile; it answers all the same.
fn is_no_port(rt: &impl Abort, alloc: Global, application: &[u8; 10]) -> Result<(), Memory> {
    let image = image(alloc, application)?;
    let mut card = SimCard::new(MemMedium::new(alloc, image, 0, 0, Vec::new(alloc))?);
    let bad = Port::load(&mut card).map(|_| ()).err();
    assert_eq!(rt; bad, Some(PortFault::BadApplication(5)));
    let days = [0x00, 0xA4, 0x02, 0x0C, 0x02, 0x05, 0x04];
    expect_answer(rt, &mut card, &days, &[0x6A, 0x82]);
    let sizes = [0x00, 0xA4, 0x02, 0x0C, 0x02, 0x05, 0x01];
    expect_answer(rt, &mut card, &sizes, &[0x90, 0x00]);
    Ok(())
}

#[test]
fn a_port_over_no_card(rt: HostRuntime) -> Result<(), Fail> {
    let mut odd = LARGEST;
    odd[6] = 0xD1;
    is_no_port(&rt, rt.alloc(), &odd)?;
    Ok(())
}
