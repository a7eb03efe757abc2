//! Loads units of worked images, and prints what each load answers: a small unit with one number changed in each row,
//! one of version 2 with each rule byte, one whose reads fail, units whose last `keep` or `mend` stopped at one of its
//! calls, and a full one of 366 days with 2880 words each, with the number of reads that it takes.
ghost use Rattle.std.specs.Prelude.{IfOk};
ghost use Rattle.tach_media.specs.MemMedium.{memory_state};
ghost use Rattle.unit_model.specs.Image.{IsUnit};

#[cfg(test)]
mod formats;
mod full;
mod keeping;
#[cfg(test)]
mod owed_tests;
#[cfg(test)]
mod stop_tests;
mod stops;
#[cfg(test)]
mod upgrades;

use crate::unit::keeping::KEPT;
use crate::unit::stops::{show_mends, show_stops};
use sector_medium::{FileDisk, RedoMedium};
use std::alloc::Global;
use std::io::{self, Print, Write};
use tach_media::{Left, Medium, MemMedium, Memory, Stop};
use unit_minutes::{Journal, UnitFault};
use unit_model::layout::{IMAGE_SIZE, RULED_VERSION};
use worked_media::{Room, image, unit_with};

/// Four bytes that the small unit is given at a place, as a number.
const ROWS: [(u32, u32); 49] = [
    // the version
    (0, 0),
    (0, 2),
    (0, 3),
    // the rule byte, in front of the spare bytes and the last-kept minute; version 1 does not look at it
    (561, 0x0700_0001),
    // the last-kept minute: too late, on a day that is not there, on the days that are there, none
    (564, 71582789),
    (564, 14666 * 1440),
    (564, 14667 * 1440),
    (564, 14669 * 1440),
    (564, 0),
    // the odometer
    (568, 10000000),
    (568, 9999999),
    // the number of over speedings
    (576, 256),
    (576, 255),
    // cells: the first and the last with a word after 23:59, an empty one, one with a good word
    (650, 0x0001_05A0),
    (1004, 0x0009_07FF),
    (652, 0x07FF_0000),
    (1004, 0x0009_059F),
    // the pointer of the days: no index, before the later day, behind it
    (1024, 366),
    (1024, 1),
    (1024, 3),
    // a day that is gone: the oldest, that of the last-kept minute, the later one
    (1028, 0),
    (6804, 0),
    (12580, 0),
    // dates: not of a day, as the next one's, a second later day, one that is older than the oldest, but empty
    (1028, 14667 * 86400 + 1),
    (1028, 14668 * 86400),
    (1028, 14670 * 86400),
    (12580, 14667 * 86400),
    (2109268, 1),
    (2109268, 86400),
    // odometers at midnight
    (1032, 10000000),
    (12584, 10000000),
    // counts
    (1036, 0x0001_0000),
    (1036, 0x0B41_0000),
    (12588, 0x0000_0000),
    // the first two words
    (1044, 0xA000_A000),
    (1044, 0x2000_2000),
    (1044, 0x2001_A000),
    (1044, 0x2000_A001),
    (12596, 0xA000_2000),
    // further words: after 23:59, earlier than those before, a second of a slot in a minute, later than the last-kept
    // one
    (1048, 0x1DA0_880A),
    (6824, 0x180A_8809),
    (6824, 0x180A_100A),
    (6824, 0x1864_8865),
    // the pointers of insertions, places and detailed speed
    (2115044, 2048),
    (2115044, 2047),
    (2379240, 255),
    (2379240, 254),
    (2393644, 1440),
    (2393644, 1439),
];

/// The same for the small unit with version 2: the original rule, the amended one, and two that are none.
const RULES: [(u32, u32); 4] = [
    (561, 0x0000_0001),
    (561, 0x0100_0001),
    (561, 0x0200_0001),
    (561, 0xFF00_0001),
];

/// What a load of the unit answers.
fn show<R: Print, M: Medium>(rt: &R, unit: &mut M) -> io::Result<()> {
    if unit.size() != IMAGE_SIZE {
        return println!(rt; "no unit");
    }
    match Journal::load(unit) {
        Ok(journal) => println!(rt;
            "kept {}, odometer {}",
            journal.last_kept(),
            journal.odometer().0
        ),
        Err(UnitFault::Failed) => println!(rt; "failed"),
        Err(UnitFault::BadUnit(place)) => println!(rt; "bad at {place}"),
    }
}

/// The same with the four bytes of a number at a place; afterwards those before stand there again.
fn show_row<R: Print>(rt: &R, unit: &mut MemMedium, place: u32, number: u32) -> io::Result<()> {
    let mut before = [0; 4];
    if place as u64 + 4 > unit.size() as u64 || unit.read_at(place, &mut before).is_err() {
        return println!(rt; "no place {place}");
    }
    let _ = unit.write_at(place, &number.to_be_bytes());
    print!(rt; "{place} = {number:08X}: ")?;
    show(rt, unit)?;
    if place as u64 + 4 <= unit.size() as u64 {
        let _ = unit.write_at(place, &before);
    }
    Ok(())
}

/// A small unit, each of these reads of which fails.
fn small(alloc: Global, calls: &[u64]) -> Result<MemMedium, Memory> {
    let mut stops = Vec::new(alloc);
    for call in calls {
        let stop = Stop {
            call: *call,
            left: Left::Before,
        };
        stops.push(stop).map_err(|_| Memory)?;
    }
    unit(alloc, image::small(alloc)?, stops)
}

/// Room for the writes of all rows.
const ROOM: Room = Room {
    writes: 110,
    bytes: 440,
};

/// A unit with this image, whose calls stop so.
fn unit(alloc: Global, image: Vec<u8>, stops: Vec<Stop>) -> Result<MemMedium, Memory>
    ensures { IfOk result (λ unit. IsUnit (memory_state unit.log unit.counts)) }
{
    unit_with(alloc, image, ROOM, stops)
}

/// What the load of `unit.img` answers.
pub fn show_file(rt: &HostRuntime) -> io::Result<()> {
    let disk = FileDisk::new(rt, "unit.img", IMAGE_SIZE);
    show(rt, &mut RedoMedium::new(disk, IMAGE_SIZE))
}

fn show_small(rt: &HostRuntime) -> io::Result<()> {
    let alloc = rt.alloc();
    let Ok(mut unit) = small(alloc, &[]) else {
        return println!(rt; "out of memory");
    };
    show(rt, &mut unit)?;
    for (place, number) in ROWS {
        show_row(rt, &mut unit, place, number)?;
    }
    show(rt, &mut unit)
}

/// The small unit as one of version 2, with each rule byte.
fn show_ruled(rt: &HostRuntime) -> io::Result<()> {
    let Ok(mut image) = image::small(rt.alloc()) else {
        return println!(rt; "out of memory");
    };
    image::put(image.as_mut_slice(), 0, &RULED_VERSION.to_be_bytes());
    let Ok(mut unit) = unit(rt.alloc(), image, Vec::new(rt.alloc())) else {
        return println!(rt; "out of memory");
    };
    for (place, number) in RULES {
        show_row(rt, &mut unit, place, number)?;
    }
    show(rt, &mut unit)
}

/// The first read, one among the days, and the last one of a load fail.
fn show_failing(rt: &HostRuntime) -> io::Result<()> {
    let Ok(mut unit) = small(rt.alloc(), &[0, 200, 647]) else {
        return println!(rt; "out of memory");
    };
    for _ in 0..4 {
        show(rt, &mut unit)?;
        show(rt, &mut unit)?;
        let _ = unit.revive();
    }
    Ok(())
}

/// What the load of the full unit answers.
pub fn show_full(rt: &HostRuntime) -> io::Result<()> {
    let alloc = rt.alloc();
    let Ok(image) = full::full(alloc) else {
        return println!(rt; "out of memory");
    };
    match unit(alloc, image, Vec::new(alloc)) {
        Ok(mut unit) => show(rt, &mut unit),
        Err(_) => println!(rt; "out of memory"),
    }
}

/// How many reads a load of the full unit makes.
pub fn show_reads(rt: &HostRuntime) -> io::Result<()> {
    let alloc = rt.alloc();
    let Ok(image) = full::full(alloc) else {
        return println!(rt; "out of memory");
    };
    match unit(alloc, image, Vec::new(alloc)) {
        Ok(mut unit) => {
            let _ = Journal::load(&mut unit);
            println!(rt; "{} reads", unit.calls())
        }
        Err(_) => println!(rt; "out of memory"),
    }
}

/// The image of the full unit, written to standard output.
pub fn write_full(rt: &HostRuntime) -> io::Result<()> {
    match full::full(rt.alloc()) {
        Ok(image) => rt.stdout().write_all(image.as_slice()),
        Err(_) => println!(rt; "out of memory"),
    }
}

/// What the loads of all worked units answer.
pub fn show_units(rt: &HostRuntime) -> io::Result<()> {
    show_small(rt)?;
    show_ruled(rt)?;
    show_failing(rt)?;
    show_stops(rt, rt.alloc(), &KEPT[..3], &KEPT[3..4])?;
    show_stops(rt, rt.alloc(), &KEPT[..4], &KEPT[4..5])?;
    show_stops(rt, rt.alloc(), &KEPT, &[])?;
    show_mends(rt, rt.alloc())?;
    show_full(rt)?;
    show_reads(rt)
}
