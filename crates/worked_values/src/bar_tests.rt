use activity_codec::{Activity, Slot};
use slot_bars::{Gaps, unit_bars};
use std::process::Abort;
use std::test::Fail;
use view_model::{Gap, Line, State, UnitShown};

/// A line of a unit with this activity of the driver, or with no card.
fn line(first: u32, last: u32, act: Activity, present: bool) -> Line<UnitShown> {
    Line {
        first,
        last,
        shown: UnitShown {
            driver: State { act, present },
            codriver: State {
                act: Activity::Rest,
                present: false,
            },
            crew: false,
        },
    }
}

#[test]
fn bars_of_a_day_with_a_gap(rt: HostRuntime) -> Result<(), Fail> {
    let lines = [
        line(0, 59, Activity::Driving, true),
        line(60, 119, Activity::Rest, false),
        line(120, 1439, Activity::Work, true),
    ];
    let inner = Gap {
        first: 72,
        behind: 74,
    };
    let outer = Gap {
        first: 70,
        behind: 80,
    };
    let gaps = Gaps::of(rt.alloc(), &[inner, outer])?;
    let driver = unit_bars(rt.alloc(), &lines, &gaps, Slot::Driver)?;
    assert_eq!(rt; driver.len(), 5);
    assert_eq!(rt; driver[2].first, 70);
    assert_eq!(rt; driver[2].last, 79);
    assert!(rt; !driver[2].shown.known);
    let codriver = unit_bars(rt.alloc(), &lines, &gaps, Slot::CoDriver)?;
    assert_eq!(rt; codriver.len(), 3);
    Ok(())
}
