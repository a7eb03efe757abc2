//! Two demonstrations; the numbers are worked out apart from this code.
use activity_codec::{Pick, Slot};
use std::rt::HostRuntime;
use std::test::Fail;
use tach_media::Memory;
use trace_text::{Action, Card, Item, Items, Trace, demo_trace};

/// How many items a demonstration has.
const ALL: usize = 1001;

/// How long the vehicle stands and how long it is driven, at which speed, and what is then selected.
type Part = (u32, u32, u8, Pick);

/// The parts of the demonstration of 0.
const OF_ZERO: [Part; 8] = [
    (1, 5269, 71, Pick::Available),
    (518, 3499, 49, Pick::Available),
    (1646, 3542, 44, Pick::Work),
    (1211, 1462, 28, Pick::Available),
    (2060, 4359, 7, Pick::Rest),
    (676, 5369, 62, Pick::Available),
    (813, 1462, 29, Pick::Rest),
    (992, 1466, 11, Pick::Work),
];

/// The parts of the demonstration of 1.
const OF_ONE: [Part; 8] = [
    (2439, 359, 25, Pick::Rest),
    (3116, 4052, 30, Pick::Work),
    (1411, 2020, 79, Pick::Rest),
    (487, 2750, 85, Pick::Work),
    (1885, 1261, 61, Pick::Work),
    (3144, 3490, 66, Pick::Rest),
    (3538, 3967, 32, Pick::Work),
    (1379, 4296, 60, Pick::Rest),
];

const fn run(seconds: u32, speed: u8) -> Item {
    Item::Run { seconds, speed }
}

const fn act(action: Action) -> Item {
    Item::Act(action)
}

/// Whether the items are so many, and these are those of a part from an index on.
fn has_part(items: &Items, at: usize, part: &Part) -> bool {
    if items.len() != ALL || at > 900 {
        return false;
    }
    let (stop, drive, speed, pick) = *part;
    let select = Action::Select {
        slot: Slot::Driver,
        pick,
    };
    *items.get(at) == run(stop, 0)
        && *items.get(at + 1) == run(drive, speed)
        && *items.get(at + 2) == act(select)
}

/// Whether the items are so many: first a card is put in, then come these eight parts, and the vehicle stands up to
/// midnight; and in the end it stands so long.
fn is_demo(trace: &Trace, parts: &[Part], standing: u32, last: u32) -> bool {
    let items = &trace.items;
    if items.len() != ALL || parts.len() != 8 {
        return false;
    }
    for (k, part) in parts.iter().enumerate() {
        if !has_part(items, 3 * k + 1, part) {
            return false;
        }
    }
    let insert = Action::Insert {
        slot: Slot::Driver,
        card: Card::A,
    };
    trace.start == 1267401600
        && *items.get(0) == act(insert)
        && *items.get(25) == run(standing, 0)
        && *items.get(1000) == run(last, 0)
}

/// The trace that is drawn from a number.
fn demo(rt: &HostRuntime, x: u32) -> Result<Trace, Fail> {
    match demo_trace(rt.alloc(), x) {
        Ok(trace) => Ok(trace),
        Err(Memory) => Err(Fail::from(Memory)),
    }
}

#[test]
fn from_zero(rt: HostRuntime) -> Result<(), Fail> {
    let trace = demo(&rt, 0)?;
    assert!(rt; is_demo(&trace, &OF_ZERO, 52055, 47494));
    Ok(())
}

#[test]
fn from_one(rt: HostRuntime) -> Result<(), Fail> {
    let trace = demo(&rt, 1)?;
    assert!(rt; is_demo(&trace, &OF_ONE, 46806, 57086));
    Ok(())
}
