//! What is counted of one minute.
ghost use Rattle.std.specs.Prelude.{◌^◌, ◌-◌, ◌≡◌, ◌+◌, ◌*◌, ◌<◌, ◌≤◌, map, length};
ghost use Rattle.std.specs.List.{AllByRecursion};
ghost use Rattle.activity_codec.specs.Activity.{is_driving};
ghost use Rattle.std.specs.Bool.{OnFalse};
ghost use Rattle.minute_rules.specs.Alike.{further};
ghost use Rattle.minute_rules.specs.Counted.{Fits, closed, moved, waited, waits_on};
ghost use Rattle.minute_rules.specs.Counted.{past_waited, drivers_longest, class_by};

use crate::tally::{Tally, tallies_differ};
use activity_codec::{Activity, Steps};
use arrayvec::ArrayVec;
use minute_model::{Rule, WAIT};
use std::sync::ledger::Ledger;

/// How many minutes before that of the next second are kept: as many as may be undecided, and one more.
pub const PAST: usize = 5;

/// What is counted of one minute.
#[derive(Clone, Copy, Debug, Default, PartialEq, Eq)]
pub struct Counted {
    /// The driver's seconds whose activity is settled.
    pub driver: Tally,
    /// The driver's seconds since the stop for which rest or availability may still be selected. They come last.
    pub open_seconds: u32,
    /// Whether it has a moving second.
    pub drives: bool,
    /// The co-driver's seconds.
    pub codriver: Tally,
    /// The sum of the speeds of the span's seconds up to the minute's last.
    pub travelled: u64,
}

impl Counted {
    /// The open seconds get this activity, where there are any.
    pub fn close(&mut self, act: Activity)
        requires { self.old.driver.going_seconds + self.old.open_seconds ≤ 2 ^ 32 - 1 }
        ensures { self.new ≡ closed act self.old }
    {
        if self.open_seconds > 0 {
            self.driver.add(act, self.open_seconds);
            self.open_seconds = 0;
        }
    }

    /// So many more of the driver's seconds at speed 0: they are open till the 120th second after the stop.
    pub fn wait(&mut self, waiting: Option<u32>, act: Activity, seconds: u32)
        requires { self.old.driver.going_seconds + self.old.open_seconds + seconds ≤ 2 ^ 32 - 1 }
        ensures { self.new ≡ waited waiting act seconds self.old }
    {
        let Some(count) = waiting else {
            self.driver.add(act, seconds);
            return;
        };
        let left = WAIT.saturating_sub(count);
        if seconds <= left {
            self.open_seconds += seconds;
            return;
        }
        self.open_seconds += left;
        self.close(Activity::Work);
        self.driver.add(act, seconds - left);
    }

    /// So many more moving seconds.
    pub fn drive(&mut self, seconds: u32, speed: u8)
        requires driver { self.old.driver.going_seconds + seconds ≤ 2 ^ 32 - 1 }
        requires codriver { self.old.codriver.going_seconds + seconds ≤ 2 ^ 32 - 1 }
        requires travelled { self.old.travelled ≤ 255 * (2 ^ 32 - 1) }
        ensures { self.new ≡ moved seconds speed self.old }
    {
        self.driver.add(Activity::Driving, seconds);
        self.drives = true;
        self.codriver.add(Activity::Available, seconds);
        self.travelled += seconds as u64 * speed as u64;
    }

    /// The same, so much further on.
    pub fn further(self, more: u64) -> Self
        requires { self.travelled + more < 2 ^ 64 }
        ensures { result ≡ further more self }
    {
        Counted {
            driver: self.driver,
            open_seconds: self.open_seconds,
            drives: self.drives,
            codriver: self.codriver,
            travelled: self.travelled + more,
        }
    }

    /// The driver's longest activity: what is open counts as WORK.
    pub fn drivers_longest(self) -> Activity
        requires { Fits (2 ^ 32 - 1) self }
        ensures { result ≡ drivers_longest self }
    {
        self.driver
            .with(Activity::Work, self.open_seconds)
            .longest()
    }
}

/// The open seconds of these minutes get this activity.
pub fn close_all<L: Ledger>(minutes: &mut [Counted], act: Activity, steps: &mut Steps<L>)
    requires { AllByRecursion (Fits (2 ^ 32 - 1)) minutes.old }
    ensures closed { minutes.new ≡ map (closed act) minutes.old }
    ensures cost { steps.new ≡ steps.old + length minutes.old }
{
    for i in 0..minutes.len() {
        minutes[i].close(act);
        steps.tick();
    }
}

/// Whether one is so and the other is not.
fn flags_differ(one: bool, other: bool) -> bool
    ensures { OnFalse result (one ≡ other) }
{
    if one {
        return !other;
    }
    other
}

/// Whether something else is counted of one minute than of another.
pub fn counts_differ(one: Counted, other: Counted) -> bool
    ensures { OnFalse result (one ≡ other) }
{
    if one.open_seconds != other.open_seconds || one.travelled != other.travelled {
        return true;
    }
    let drives = flags_differ(one.drives, other.drives);
    let drivers = tallies_differ(one.driver, other.driver);
    let codrivers = tallies_differ(one.codriver, other.codriver);
    if drives || drivers || codrivers {
        return true;
    }
    false
}

/// Whether something else is counted of some minutes than of as many others.
pub fn differ(ones: &[Counted], others: &[Counted]) -> bool
    requires { length ones.now ≡ length others.now }
    ensures { OnFalse result (ones.now ≡ others.now) }
{
    for i in 0..ones.len() {
        if counts_differ(ones[i], others[i]) {
            return true;
        }
    }
    false
}

/// Where the wait since the stop ends in the next seconds, the open seconds get WORK.
pub fn end_late<L: Ledger>(
    past: &mut ArrayVec<Counted, PAST>,
    waiting: Option<u32>,
    seconds: u32,
    steps: &mut Steps<L>,
)
    requires { AllByRecursion (Fits (2 ^ 32 - 1)) past.old.items }
    ensures kept { past.new.items ≡ past_waited waiting seconds past.old.items }
    ensures cost { steps.new ≤ steps.old + 5 }
{
    if let Some(count) = waiting {
        if seconds > WAIT.saturating_sub(count) {
            close_all(past.as_mut_slice(), Activity::Work, steps);
        }
    }
}

/// How long the driver has waited after the next seconds.
pub fn still_waiting(waiting: Option<u32>, seconds: u32) -> Option<u32>
    ensures { result ≡ waits_on waiting seconds }
{
    let count = waiting?;
    if seconds > WAIT.saturating_sub(count) {
        return None;
    }
    Some(count + seconds)
}

/// The driver's class of a minute, by it and the minutes before and after it.
pub fn driver_class(rule: Rule, before: Counted, this: Counted, after: Counted) -> Activity
    requires { Fits (2 ^ 32 - 1) before × Fits (2 ^ 32 - 1) this × Fits (2 ^ 32 - 1) after }
    ensures { result ≡ class_by rule before this after }
{
    let driving = match rule {
        Rule::Original => this.drives || (before.drives && after.drives),
        Rule::Amended => drives(before.drivers_longest()) && drives(after.drivers_longest()),
    };
    if driving {
        Activity::Driving
    } else {
        this.drivers_longest()
    }
}

/// Whether it is DRIVING.
fn drives(act: Activity) -> bool
    ensures { result ≡ is_driving act }
{
    matches!(act, Activity::Driving)
}
