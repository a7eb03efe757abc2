//! Openings over a unit and two cards in memory. None of them writes.
use crate::card::images::VEHICLES;
use card_commands::SimCard;
use card_layout::LARGEST_IMAGE;
use run_crew::Known;
use run_model::Device;
use run_opening::{RunFault, judge};
use std::alloc::Global;
use std::test::Fail;
use tach_media::{AbsentChip, Chip, Left, Medium, MemMedium, Memory, Stop};
use tacho_types::FullCardNumber;
use unit_model::layout::IMAGE_SIZE;
use worked_media::image::put;
use worked_media::{
    NO_ROOM, NUMBER_A, NUMBER_B, SMALLEST, T0, card_image, card_number, card_with, new_image,
    one_stop, unit_with,
};

/// What is told of a card: the length of its string of days, or the first bad field of its sizes; and its number.
#[derive(Clone, Copy, Debug, PartialEq, Eq)]
struct Told {
    string: Result<u16, u8>,
    number: Option<FullCardNumber>,
}

/// What is told of an opening: the last-kept minute, the limit of the vehicle, and both cards.
#[derive(Clone, Copy, Debug, PartialEq, Eq)]
struct Seen {
    kept: u32,
    limit: u8,
    a: Told,
    b: Told,
}

fn told_of(known: &Known) -> Told {
    Told {
        string: match known.sizes {
            Ok(app) => Ok(app.activity),
            Err(field) => Err(field),
        },
        number: known.number,
    }
}

/// Opens a run that begins at this second, over devices on which nothing was written.
fn opening<M: Medium, C: Chip, D: Chip>(
    unit: &mut M,
    card_a: &mut C,
    card_b: &mut D,
    start: u32,
) -> Result<Result<Seen, RunFault>, Fail> {
    if unit.size() != IMAGE_SIZE || card_a.size() < LARGEST_IMAGE || card_b.size() < LARGEST_IMAGE {
        return Err(Fail::from("a device is too small"));
    }
    let judged = judge(unit, card_a, card_b, start);
    if unit.clock() != 0 || card_a.clock() != 0 || card_b.clock() != 0 {
        return Err(Fail::from("an opening that writes"));
    }
    Ok(match judged {
        Err(fault) => Err(fault),
        Ok(opened) => Ok(Seen {
            kept: opened.unit.journal.last_kept(),
            limit: opened.unit.memory.identity().limit,
            a: told_of(&opened.card_a),
            b: told_of(&opened.card_b),
        }),
    })
}

/// Where the last byte of a unit's version stands.
const VERSION: usize = 3;

/// The image of a new unit of this version, of a vehicle with this limit.
fn unit_image(alloc: Global, version: u8, limit: u8) -> Result<Vec<u8>, Memory> {
    let mut image = new_image(alloc, limit)?;
    put(image.as_mut_slice(), VERSION, &[version]);
    Ok(image)
}

/// A unit with this image, whose calls stop so.
fn unit(alloc: Global, image: Vec<u8>, stops: Vec<Stop>) -> Result<MemMedium, Memory> {
    unit_with(alloc, image, NO_ROOM, stops)
}

/// One of the cards: each as it was issued, of the smallest sizes; one of zeros; and the first with a pointer to the
/// newest vehicle that is none.
#[derive(Clone, Copy)]
enum Card {
    A,
    B,
    Zeros,
    Damaged,
}

/// Its image.
fn image_of(alloc: Global, of: Card) -> Result<Vec<u8>, Memory> {
    match of {
        Card::A => card_image(alloc, NUMBER_A, &SMALLEST),
        Card::B => card_image(alloc, NUMBER_B, &SMALLEST),
        Card::Zeros => Ok(vec![in alloc; 0u8; LARGEST_IMAGE as usize]?),
        Card::Damaged => {
            let mut image = card_image(alloc, NUMBER_A, &SMALLEST)?;
            put(image.as_mut_slice(), VEHICLES + 1, &[84]);
            Ok(image)
        }
    }
}

/// A card whose calls stop so.
fn card_of(alloc: Global, of: Card, stops: Vec<Stop>) -> Result<SimCard<MemMedium>, Memory> {
    card_with(alloc, image_of(alloc, of)?, NO_ROOM, stops)
}

/// The opening over a new unit of a vehicle with this limit, and these cards.
fn opened(
    alloc: Global,
    limit: u8,
    first: Card,
    second: Card,
    start: u32,
) -> Result<Result<Seen, RunFault>, Fail> {
    let mut unit = unit(alloc, unit_image(alloc, 1, limit)?, Vec::new(alloc))?;
    let mut a = card_of(alloc, first, Vec::new(alloc))?;
    let mut b = card_of(alloc, second, Vec::new(alloc))?;
    opening(&mut unit, &mut a, &mut b, start)
}

/// The opening over a unit of this version, where the first card is absent.
fn opened_without_a(
    alloc: Global,
    version: u8,
    start: u32,
) -> Result<Result<Seen, RunFault>, Fail> {
    let mut unit = unit(alloc, unit_image(alloc, version, 0)?, Vec::new(alloc))?;
    let mut absent = AbsentChip::new(LARGEST_IMAGE);
    let mut b = card_of(alloc, Card::B, Vec::new(alloc))?;
    opening(&mut unit, &mut absent, &mut b, start)
}

/// The opening over a new unit, where the second card is absent.
fn opened_without_b(alloc: Global) -> Result<Result<Seen, RunFault>, Fail> {
    let mut unit = unit(alloc, unit_image(alloc, 1, 0)?, Vec::new(alloc))?;
    let mut a = card_of(alloc, Card::A, Vec::new(alloc))?;
    let mut absent = AbsentChip::new(LARGEST_IMAGE);
    opening(&mut unit, &mut a, &mut absent, T0)
}

/// Four openings over a new unit and both cards, of each of which one call fails, and then none.
fn opened_four_times(alloc: Global) -> Result<[Option<RunFault>; 4], Fail> {
    let left = Left::Before;
    let mut unit = unit(alloc, unit_image(alloc, 1, 0)?, one_stop(alloc, 2, left)?)?;
    let mut a = card_of(alloc, Card::A, one_stop(alloc, 2, left)?)?;
    let mut b = card_of(alloc, Card::B, one_stop(alloc, 2, left)?)?;
    let mut faults = [None; 4];
    for i in 0..4 {
        faults[i] = opening(&mut unit, &mut a, &mut b, T0)?.err();
    }
    Ok(faults)
}

/// A card that is told to have this number.
fn numbered(of: &[u8; 16]) -> Told {
    Told {
        string: Ok(5544),
        number: Some(card_number(of)),
    }
}

/// A card that has no number, and of its sizes this.
fn unnumbered(string: Result<u16, u8>) -> Told {
    Told {
        string,
        number: None,
    }
}

#[test]
fn a_unit_and_two_cards(rt: HostRuntime) -> Result<(), Fail> {
    let alloc = rt.alloc();
    let seen = Seen {
        kept: 0,
        limit: 90,
        a: numbered(NUMBER_A),
        b: numbered(NUMBER_B),
    };
    assert_eq!(rt; opened(alloc, 90, Card::A, Card::B, T0)?, Ok(seen));
    Ok(())
}

#[test]
fn one_card_in_both(rt: HostRuntime) -> Result<(), Fail> {
    let alloc = rt.alloc();
    let same = Err(RunFault::SameCard(card_number(NUMBER_A)));
    assert_eq!(rt; opened(alloc, 0, Card::A, Card::A, T0)?, same);
    Ok(())
}

/// A card of zeros has a bad card type; and a card whose pointer to the newest vehicle is none is not valid.
#[test]
fn cards_that_are_not_valid(rt: HostRuntime) -> Result<(), Fail> {
    let alloc = rt.alloc();
    let seen = Seen {
        kept: 0,
        limit: 0,
        a: unnumbered(Err(1)),
        b: unnumbered(Ok(5544)),
    };
    assert_eq!(rt; opened(alloc, 0, Card::Zeros, Card::Damaged, T0)?, Ok(seen));
    Ok(())
}

/// So it is no second one.
#[test]
fn a_damaged_card_is_no_second_one(rt: HostRuntime) -> Result<(), Fail> {
    let alloc = rt.alloc();
    let seen = Seen {
        kept: 0,
        limit: 0,
        a: unnumbered(Ok(5544)),
        b: numbered(NUMBER_A),
    };
    assert_eq!(rt; opened(alloc, 0, Card::Damaged, Card::A, T0)?, Ok(seen));
    Ok(())
}

/// The last-kept minute of a new unit is 0: a run begins in minute 1, and not before. Cards are judged behind the
/// clock.
#[test]
fn the_clock(rt: HostRuntime) -> Result<(), Fail> {
    let alloc = rt.alloc();
    let back = Err(RunFault::ClockBack(0, 59));
    assert_eq!(rt; opened_without_a(alloc, 1, 59)?, back);
    assert!(rt; opened(alloc, 0, Card::A, Card::B, 60)?.is_ok());
    Ok(())
}

#[test]
fn a_unit_that_does_not_decode(rt: HostRuntime) -> Result<(), Fail> {
    let alloc = rt.alloc();
    let bad = Err(RunFault::BadUnit(0));
    assert_eq!(rt; opened_without_a(alloc, 3, 0)?, bad);
    Ok(())
}

/// One call of each device fails, and then none.
#[test]
fn devices_that_fail_once(rt: HostRuntime) -> Result<(), Fail> {
    let alloc = rt.alloc();
    let faults = [
        Some(RunFault::MediumFault(Device::Unit)),
        Some(RunFault::MediumFault(Device::CardA)),
        Some(RunFault::MediumFault(Device::CardB)),
        None,
    ];
    assert_eq!(rt; opened_four_times(alloc)?, faults);
    Ok(())
}

#[test]
fn a_card_that_is_absent(rt: HostRuntime) -> Result<(), Fail> {
    let alloc = rt.alloc();
    let failed = Err(RunFault::MediumFault(Device::CardB));
    assert_eq!(rt; opened_without_b(alloc)?, failed);
    Ok(())
}
