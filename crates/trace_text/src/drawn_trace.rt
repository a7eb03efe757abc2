//! The trace of a demonstration: day by day, part by part.
ghost use Rattle.std.specs.Prelude.{◌≡◌, ◌≤◌, ◌+◌, ◌*◌, ◌++◌, IfOk};
ghost use Rattle.trace_model.specs.Trace.{total_seconds};
ghost use Rattle.trace_text.specs.Trace.{IsWellFormed};
ghost use Rattle.trace_text.specs.Demo.{drawn, part_of, day_of, demo_items};

use crate::drawing::{next_drawn, pick_numbered};
use crate::{Action, Card, Item, Items, Trace};
use activity_codec::{DAY_SECONDS, Slot};
use std::alloc::Global;
use tach_media::Memory;

/// 2010-03-01 00:00:00.
pub const FIRST_SECOND: u32 = 1267401600;

/// So many days.
pub const DAYS: u32 = 40;

/// So many times a day a stop, a drive and a selection.
pub const PARTS: u32 = 8;

/// What was put into a trace: its seconds, and the last number that was drawn for it.
#[derive(Clone, Copy)]
struct Drawn {
    seconds: u32,
    last: u32,
}

/// Adds a stop, a drive and a selection, drawn behind this number.
fn add_part(items: &mut Items, x: u32) -> Result<Drawn, Memory>
    ensures items { IfOk result (λ part. items.new ≡ items.old ++ part_of x) }
    ensures seconds { IfOk result (λ part. part.seconds ≡ total_seconds (part_of x)) }
    ensures few { IfOk result (λ part. part.seconds ≤ 9000) }
    ensures last { IfOk result (λ part. part.last ≡ drawn 3 x) }
{
    let stop = next_drawn(x);
    let drive = next_drawn(stop);
    let pick = next_drawn(drive);
    let standing = stop / 65536 % 3600 + 1;
    let driving = drive / 65536 % 5400 + 1;
    items.push(Item::Run {
        seconds: standing,
        speed: 0,
    })?;
    items.push(Item::Run {
        seconds: driving,
        speed: (drive / 256 % 90 + 1) as u8,
    })?;
    items.push(Item::Act(Action::Select {
        slot: Slot::Driver,
        pick: pick_numbered(pick / 65536 % 3),
    }))?;
    Ok(Drawn {
        seconds: standing + driving,
        last: pick,
    })
}

/// Adds a day, drawn behind this number, and answers the last one that was drawn.
fn add_day(items: &mut Items, x: u32) -> Result<u32, Memory>
    ensures items { IfOk result (λ last. items.new ≡ items.old ++ day_of x) }
    ensures last { IfOk result (λ last. last ≡ drawn (3 * PARTS) x) }
{
    let mut last = x;
    let mut seconds = 0;
    for k in 0..PARTS {
        let part = add_part(items, last)?;
        seconds += part.seconds;
        last = part.last;
    }
    items.push(Item::Run {
        seconds: DAY_SECONDS - seconds,
        speed: 0,
    })?;
    Ok(last)
}

/// The trace that is drawn from a number: a card is put into the driver slot, and then the days follow.
///
/// # Errors
///
/// `Memory` where there is none.
pub fn demo_trace(alloc: Global, x: u32) -> Result<Trace, Memory>
    ensures items { IfOk result (λ trace. trace.items ≡ demo_items x) }
    ensures start { IfOk result (λ trace. trace.start ≡ FIRST_SECOND) }
    ensures well { IfOk result (λ trace. IsWellFormed trace.start trace.items) }
{
    let mut items = Items::new(alloc);
    items.push(Item::Act(Action::Insert {
        slot: Slot::Driver,
        card: Card::A,
    }))?;
    let mut last = x;
    for d in 0..DAYS {
        last = add_day(&mut items, last)?;
    }
    Ok(Trace {
        start: FIRST_SECOND,
        items,
    })
}
