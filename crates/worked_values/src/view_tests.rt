ghost use Rattle.std.specs.Prelude.{◌≡◌};

use activity_codec::{Activity, Entry, Slot};
use std::process::Abort;
use std::test::Fail;
use view_model::{Line, State, UnitShown, Viewed};
use view_text::{add_minute, card_text, unit_text};

/// A minute of a unit, with this activity of the driver.
fn minute(number: u32, act: Activity) -> Viewed<UnitShown>
    ensures { result.minute ≡ number }
{
    Viewed {
        minute: number,
        shown: UnitShown {
            driver: State { act, present: true },
            codriver: State {
                act: Activity::Rest,
                present: false,
            },
            crew: false,
        },
    }
}

#[test]
fn a_line_for_each_change_and_each_day(rt: HostRuntime) -> Result<(), Fail> {
    // 2010-03-01 from 23:57 on, and later a gap of one minute
    let text = unit_text(
        rt.alloc(),
        &[
            minute(21124797, Activity::Work),
            minute(21124798, Activity::Work),
            minute(21124799, Activity::Driving),
            minute(21124800, Activity::Driving),
            minute(21124802, Activity::Driving),
        ],
    )?;
    assert!(rt;
        text.as_slice()
            == b"2010-03-01 23:57-23:58 driver=work,in codriver=rest,out single\n2010-03-01 23:59-23:59 driver=drive,in codriver=rest,out single\n2010-03-02 00:00-00:00 driver=drive,in codriver=rest,out single\n2010-03-02 00:02-00:02 driver=drive,in codriver=rest,out single\n".as_slice()
    );
    Ok(())
}

#[test]
fn the_last_day_that_a_time_names(rt: HostRuntime) -> Result<(), Fail> {
    let text = unit_text(rt.alloc(), &[minute(71583839, Activity::Rest)])?;
    assert!(rt;
        text.as_slice()
            == b"2106-02-07 23:59-23:59 driver=rest,in codriver=rest,out single\n".as_slice()
    );
    Ok(())
}

/// An entry of a card, available.
fn entry(minute: u32, slot: Slot, crew: bool) -> Entry
    ensures { result.minute ≡ minute }
{
    Entry {
        minute,
        slot,
        crew,
        act: Activity::Available,
    }
}

#[test]
fn entries_of_a_card(rt: HostRuntime) -> Result<(), Fail> {
    let text = card_text(
        rt.alloc(),
        &[
            entry(540, Slot::Driver, false),
            entry(541, Slot::Driver, false),
            entry(542, Slot::CoDriver, false),
            entry(543, Slot::CoDriver, true),
        ],
    )?;
    assert!(rt;
        text.as_slice()
            == b"1970-01-01 09:00-09:01 driver=available single\n1970-01-01 09:02-09:02 codriver=available single\n1970-01-01 09:03-09:03 codriver=available crew\n".as_slice()
    );
    Ok(())
}

#[test]
fn a_day_of_one_activity_is_one_line(rt: HostRuntime) -> Result<(), Fail> {
    let mut lines: Vec<Line<UnitShown>> = Vec::new(rt.alloc());
    for i in 0..1440u32 {
        add_minute(&mut lines, minute(i, Activity::Rest))?;
    }
    assert_eq!(rt; lines.len(), 1);
    assert!(rt;
        lines
            .iter()
            .all(|line| line.first == 0 && line.last == 1439)
    );
    Ok(())
}
