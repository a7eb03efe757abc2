ghost use Rattle.std.specs.Prelude.{IfOk, OnOk, IfSome};
ghost use Rattle.unit_model.specs.Image.{IsUnit};
ghost use Rattle.unit_minutes.specs.Image.{Agrees};
ghost use Rattle.unit_minutes.specs.Reading.{IsSlotPlace};

use activity_codec::Activity;
use std::io::{self, Print};
use tach_media::{Failed, Medium};
use tacho_types::Odometer;
use unit_minutes::{Journal, KeptMinute, State, UnitDay};
use unit_model::layout::{HIGHEST_ODOMETER, IMAGE_SIZE, LAST_MINUTE};

const REST: State = State {
    act: Activity::Rest,
    present: true,
};

const REST_OUT: State = State {
    act: Activity::Rest,
    present: false,
};

const AVAILABLE: State = State {
    act: Activity::Available,
    present: true,
};

const AVAILABLE_OUT: State = State {
    act: Activity::Available,
    present: false,
};

const DRIVING: State = State {
    act: Activity::Driving,
    present: true,
};

const DRIVING_OUT: State = State {
    act: Activity::Driving,
    present: false,
};

/// 00:00 to 00:02 and 00:10 of 2010-03-01, and 00:05 and 00:06 of the day after.
pub const KEPT: [KeptMinute; 6] = [
    KeptMinute {
        minute: 21123360,
        driver: REST_OUT,
        codriver: REST_OUT,
        odometer: Odometer(5000),
    },
    KeptMinute {
        minute: 21123361,
        driver: DRIVING_OUT,
        codriver: AVAILABLE_OUT,
        odometer: Odometer(5000),
    },
    KeptMinute {
        minute: 21123362,
        driver: DRIVING_OUT,
        codriver: AVAILABLE_OUT,
        odometer: Odometer(5001),
    },
    KeptMinute {
        minute: 21123370,
        driver: DRIVING,
        codriver: AVAILABLE,
        odometer: Odometer(5002),
    },
    KeptMinute {
        minute: 21124805,
        driver: REST,
        codriver: REST_OUT,
        odometer: Odometer(5003),
    },
    KeptMinute {
        minute: 21124806,
        driver: REST,
        codriver: REST,
        odometer: Odometer(5004),
    },
];

/// Loads and mends a unit.
pub fn open<M: Medium>(unit: &mut M) -> Result<Journal, Failed>
    requires { IsUnit (M.state unit.old) }
    ensures unit { IsUnit (M.state unit.new) }
    ensures agrees { IfOk result (λ journal. IfSome (M.state unit.new).image (Agrees journal)) }
{
    let Ok(mut journal) = Journal::load(unit) else {
        return Err(Failed);
    };
    journal.mend(unit)?;
    Ok(journal)
}

/// Keeps these minutes.
pub fn keep_all<M: Medium>(
    journal: &mut Journal,
    unit: &mut M,
    minutes: &[KeptMinute],
) -> Result<(), Failed>
    requires unit { IsUnit (M.state unit.old) }
    requires agrees { IfSome (M.state unit.old).image (Agrees journal.old) }
    ensures unit { IsUnit (M.state unit.new) }
    ensures agrees { OnOk result (IfSome (M.state unit.new).image (Agrees journal.new)) }
{
    for kept in minutes {
        keep_one(journal, unit, kept)?;
    }
    Ok(())
}

fn keep_one<M: Medium>(journal: &mut Journal, unit: &mut M, kept: &KeptMinute) -> Result<(), Failed>
    requires unit { IsUnit (M.state unit.old) }
    requires agrees { IfSome (M.state unit.old).image (Agrees journal.old) }
    ensures unit { IsUnit (M.state unit.new) }
    ensures agrees { OnOk result (IfSome (M.state unit.new).image (Agrees journal.new)) }
{
    let is_minute = kept.minute >= 1440 && kept.minute <= LAST_MINUTE;
    if !is_minute || kept.minute <= journal.last_kept() || kept.odometer.0 > HIGHEST_ODOMETER {
        return Err(Failed);
    }
    journal.keep(unit, kept)?;
    Ok(())
}

/// The last-kept minute, the odometer, and each recorded day with its words.
pub fn show_days<R: Print, M: Medium>(rt: &R, journal: &Journal, unit: &mut M) -> io::Result<()> {
    print!(rt;
        "kept {}, odometer {}",
        journal.last_kept(),
        journal.odometer().0
    )?;
    for nth in 0..journal.days() {
        if unit.size() != IMAGE_SIZE {
            return println!(rt; "no unit");
        }
        match journal.day_at(unit, nth) {
            Ok(day) => show_day(rt, journal, unit, &day)?,
            Err(_) => print!(rt; "; failed")?,
        }
    }
    println!(rt; "")
}

fn show_day<R: Print, M: Medium>(
    rt: &R,
    journal: &Journal,
    unit: &mut M,
    day: &UnitDay,
) -> io::Result<()>
    requires { IsSlotPlace day.now.place }
{
    print!(rt;
        "; {} at {} from {}:",
        day.date.0, day.place, day.odometer.0
    )?;
    for index in 0..day.words {
        if unit.size() != IMAGE_SIZE || day.words > 2880 {
            return Ok(());
        }
        match journal.word(unit, day, index) {
            Ok(word) => print!(rt; " {word:04X}")?,
            Err(_) => print!(rt; " failed")?,
        }
    }
    Ok(())
}
