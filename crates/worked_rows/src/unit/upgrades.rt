//! A unit of version 1 that gets version 2, whatever stops it: it goes by the original rule until the version is
//! written, and by the amended one from then on.
use minute_model::Rule;
use std::alloc::Global;
use std::process::Abort;
use std::rt::HostRuntime;
use std::test::Fail;
use tach_media::{Left, Medium, Stop};
use unit_memory::{UnitFault, UnitMemory};
use unit_model::layout::IMAGE_SIZE;
use worked_media::image::put;
use worked_media::{Room, Untold, new_image, one_stop, unit_with};

/// How many reads an upgrade of a new unit makes before it writes.
const READS: u64 = 444;

/// Room for its two writes.
const ROOM: Room = Room {
    writes: 2,
    bytes: 5,
};

/// What a load tells of a unit: version, rule byte and rule.
#[derive(Clone, Copy, Debug, PartialEq, Eq)]
struct Ruled {
    version: u8,
    rule_byte: u8,
    rule: Rule,
}

const PLAIN: Ruled = Ruled {
    version: 1,
    rule_byte: 0,
    rule: Rule::Original,
};

const RULED: Ruled = Ruled {
    version: 2,
    rule_byte: 1,
    rule: Rule::Amended,
};

const UNRULED: Ruled = Ruled {
    version: 2,
    rule_byte: 0,
    rule: Rule::Original,
};

/// What an upgrade of a unit with this version and this rule byte answers, how many calls it makes, and what a load
/// tells then.
#[derive(Clone, Copy)]
struct Upgraded {
    answer: Result<bool, UnitFault>,
    calls: u64,
    ruled: Result<Ruled, UnitFault>,
}

fn upgrade(
    alloc: Global,
    version: u8,
    rule_byte: u8,
    stops: Vec<Stop>,
) -> Result<Upgraded, Untold> {
    let mut image = new_image(alloc, 90)?;
    put(image.as_mut_slice(), 3, &[version]);
    put(image.as_mut_slice(), 561, &[rule_byte]);
    let mut unit = unit_with(alloc, image, ROOM, stops)?;
    let answer = UnitMemory::upgrade(&mut unit);
    let calls = unit.calls();
    let ruled = loaded(&mut unit)?;
    Ok(Upgraded {
        answer,
        calls,
        ruled,
    })
}

/// What a load tells of a unit that works again.
fn loaded<M: Medium>(unit: &mut M) -> Result<Result<Ruled, UnitFault>, Untold> {
    unit.revive()?;
    if unit.size() != IMAGE_SIZE {
        return Err(Untold::Size);
    }
    Ok(match UnitMemory::load(unit) {
        Ok(memory) => Ok(Ruled {
            version: memory.version(),
            rule_byte: memory.rule_byte(),
            rule: memory.rule(),
        }),
        Err(fault) => Err(fault),
    })
}

#[test]
fn a_unit_is_upgraded_once(rt: HostRuntime) -> Result<(), Fail> {
    let alloc = rt.alloc();
    let newly = upgrade(alloc, 1, 7, Vec::new(alloc))?;
    assert_eq!(rt;
        (newly.answer, newly.calls, newly.ruled),
        (Ok(true), READS + 2, Ok(RULED))
    );
    let already = upgrade(alloc, 2, 1, Vec::new(alloc))?;
    assert_eq!(rt;
        (already.answer, already.calls, already.ruled),
        (Ok(false), READS, Ok(RULED))
    );
    let unruled = upgrade(alloc, 2, 0, Vec::new(alloc))?;
    assert_eq!(rt;
        (unruled.answer, unruled.calls, unruled.ruled),
        (Ok(false), READS, Ok(UNRULED))
    );
    let bad = upgrade(alloc, 2, 2, Vec::new(alloc))?;
    let fault = UnitFault::BadUnit(561);
    assert_eq!(rt; (bad.answer, bad.ruled), (Err(fault), Err(fault)));
    Ok(())
}

/// That an upgrade that stops so leaves a unit of which a load tells this.
fn leaves(
    rt: &(impl Abort + AllocGlobal),
    call: u64,
    left: Left,
    ruled: Ruled,
) -> Result<(), Fail> {
    let alloc = rt.alloc();
    let stopped = upgrade(alloc, 1, 0, one_stop(alloc, call, left)?)?;
    assert_eq!(rt;
        (stopped.answer, stopped.ruled),
        (Err(UnitFault::Failed), Ok(ruled))
    );
    Ok(())
}

#[test]
fn a_stopped_upgrade_leaves_the_old_rule_or_the_new_one(rt: HostRuntime) -> Result<(), Fail> {
    for read in 0..READS {
        leaves(&rt, read, Left::Before, PLAIN)?;
    }
    leaves(&rt, READS, Left::Before, PLAIN)?;
    leaves(&rt, READS, Left::Torn(7), PLAIN)?;
    leaves(&rt, READS, Left::After, PLAIN)?;
    leaves(&rt, READS + 1, Left::Before, PLAIN)?;
    leaves(&rt, READS + 1, Left::Torn(7), PLAIN)?;
    leaves(&rt, READS + 1, Left::After, RULED)
}
