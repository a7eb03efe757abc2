ghost use Rattle.std.specs.Prelude.{IfOk};
ghost use Rattle.tach_media.specs.MemMedium.{memory_state};
ghost use Rattle.unit_model.specs.Image.{IsUnit};

use crate::unit::keeping::{keep_all, open, show_days};
use crate::unit::unit;
use std::alloc::Global;
use std::io::{self, Print};
use tach_media::{Left, Medium, MemMedium, Memory, Stop, read_number};
use unit_minutes::{Journal, KeptMinute};
use worked_media::image;

const LEFT: [Left; 3] = [Left::Before, Left::After, Left::Torn(0x55)];

/// A unit behind a call on its journal, which may have stopped; and the numbers of that call's reads and writes.
#[derive(Drop)]
struct Kept {
    unit: MemMedium,
    from: u64,
    to: u64,
}

fn keep_up_to(
    alloc: Global,
    minutes: &[KeptMinute],
    last: &[KeptMinute],
    stops: Vec<Stop>,
) -> Result<Kept, Memory>
    ensures { IfOk result (λ kept. IsUnit (memory_state kept.unit.log kept.unit.counts)) }
{
    let mut unit = unit(alloc, image::empty(alloc, 0, 0, 0)?, stops)?;
    let mut journal = open(&mut unit).map_err(|_| Memory)?;
    keep_all(&mut journal, &mut unit, minutes).map_err(|_| Memory)?;
    let from = unit.calls();
    let _ = keep_all(&mut journal, &mut unit, last);
    let to = unit.calls();
    Ok(Kept { unit, from, to })
}

/// What a power-on finds of a unit, whose medium works again.
fn show_again<R: Print>(rt: &R, mut kept: Kept) -> io::Result<()>
    requires { IsUnit (memory_state kept.unit.log kept.unit.counts) }
{
    let _ = kept.unit.revive();
    match open(&mut kept.unit) {
        Ok(journal) => show_days(rt, &journal, &mut kept.unit),
        Err(_) => println!(rt; "failed"),
    }
}

/// What a power-on finds behind a `keep` that has stopped at this call.
fn show_stop<R: Print>(
    rt: &R,
    alloc: Global,
    minutes: &[KeptMinute],
    last: &[KeptMinute],
    stop: Stop,
) -> io::Result<()> {
    let mut stops = Vec::new(alloc);
    if stops.push(stop).is_err() {
        return println!(rt; "out of memory");
    }
    match keep_up_to(alloc, minutes, last, stops) {
        Ok(kept) => show_again(rt, kept),
        Err(_) => println!(rt; "out of memory"),
    }
}

/// The same for each call of the last `keep`, and each of what a stop may leave of it.
pub fn show_stops<R: Print>(
    rt: &R,
    alloc: Global,
    minutes: &[KeptMinute],
    last: &[KeptMinute],
) -> io::Result<()> {
    let Ok(whole) = keep_up_to(alloc, minutes, last, Vec::new(alloc)) else {
        return println!(rt; "out of memory");
    };
    for call in whole.from..whole.to {
        for left in LEFT {
            print!(rt; "{} {left:?}: ", call - whole.from)?;
            show_stop(rt, alloc, minutes, last, Stop { call, left })?;
        }
    }
    show_again(rt, whole)
}

/// A unit of which a mending was begun.
fn mend_up_to(alloc: Global, stops: Vec<Stop>) -> Result<Kept, Memory>
    ensures { IfOk result (λ kept. IsUnit (memory_state kept.unit.log kept.unit.counts)) }
{
    let mut unit = unit(alloc, image::unmended(alloc)?, stops)?;
    let mut journal = Journal::load(&mut unit).map_err(|_| Memory)?;
    let from = unit.calls();
    let _ = journal.mend(&mut unit);
    let to = unit.calls();
    Ok(Kept { unit, from, to })
}

/// The same up to a stop.
fn mend_to_stop(alloc: Global, stop: Stop) -> Result<Kept, Memory>
    ensures { IfOk result (λ kept. IsUnit (memory_state kept.unit.log kept.unit.counts)) }
{
    let mut stops = Vec::new(alloc);
    stops.push(stop).map_err(|_| Memory)?;
    mend_up_to(alloc, stops)
}

/// What a mending changes: the later owed minute, the word count of the last-kept minute's day, the later day's date.
fn show_left<R: Print, M: Medium>(rt: &R, unit: &mut M) -> io::Result<()>
    requires { IsUnit (M.state unit.old) }
    ensures { IsUnit (M.state unit.new) }
{
    let cell = read_number(unit, 648, 4).unwrap_or(0);
    let count = read_number(unit, 6812, 2).unwrap_or(0);
    let date = read_number(unit, 12580, 4).unwrap_or(0);
    print!(rt; "{cell} {count} {date}; ")
}

/// What a stop has left of a mending, and what the next power-on finds.
fn show_mend<R: Print>(rt: &R, mut kept: Kept) -> io::Result<()>
    requires { IsUnit (memory_state kept.unit.log kept.unit.counts) }
{
    let _ = kept.unit.revive();
    show_left(rt, &mut kept.unit)?;
    show_again(rt, kept)
}

/// How many writes were begun up to a stop at this call.
fn writes_up_to(alloc: Global, call: u64) -> u64 {
    let stop = Stop {
        call,
        left: Left::Before,
    };
    match mend_to_stop(alloc, stop) {
        Ok(kept) => kept.unit.clock(),
        Err(_) => 0,
    }
}

/// The same for each write of a mending, and each of what a stop may leave of it.
pub fn show_mends<R: Print>(rt: &R, alloc: Global) -> io::Result<()> {
    let Ok(whole) = mend_up_to(alloc, Vec::new(alloc)) else {
        return println!(rt; "out of memory");
    };
    let mut before = 0;
    for call in whole.from..whole.to {
        let writes = writes_up_to(alloc, call);
        if writes > before {
            before = writes;
            for left in LEFT {
                print!(rt; "{writes} {left:?}: ")?;
                match mend_to_stop(alloc, Stop { call, left }) {
                    Ok(kept) => show_mend(rt, kept)?,
                    Err(_) => println!(rt; "out of memory")?,
                }
            }
        }
    }
    show_mend(rt, whole)
}
