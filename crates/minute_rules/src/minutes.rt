//! A span of seconds with power, fed one after another (Annex IB, section III.4).
ghost use Rattle.std.specs.Prelude.{◌^◌, ◌≡◌, ◌+◌, ◌-◌, ◌*◌, ◌/◌, ◌%◌, ◌<◌, ◌≤◌, ◌++◌, map, length};
ghost use Rattle.activity_codec.specs.Activity.{activity_of};
ghost use Rattle.minute_model.specs.Minute.{minutes_ahead};
ghost use Rattle.minute_model.specs.Span.{Span, activity_next, begin, fed, fed_many, picked, settled, decided_in};
ghost use Rattle.minute_model.specs.Span.{travelled_of, end_of};
ghost use Rattle.std.specs.List.{AllByRecursion};
ghost use Rattle.std.specs.Bool.{OnTrue, OnFalse};
ghost use Rattle.minute_rules.specs.Alike.{later, moment_of, decided_alike};
ghost use Rattle.minute_rules.specs.Kept.{CountsSpan};

use crate::counted::{
    Counted, PAST, close_all, counts_differ, differ, driver_class, end_late, still_waiting,
};
use crate::slots::{CodriverSlot, DriverSlot, codrivers_differ, drivers_differ};
use activity_codec::{Activity, Pick, Slot, Steps};
use arrayvec::ArrayVec;
use minute_model::{Minute, Rule};
use std::marker::{Brand, Model};
use std::sync::ledger::{Blank, Ledger};

/// The minutes that one call decides, in order.
pub type Decided = ArrayVec<Minute, 3>;

/// What a run of seconds at one speed decides: how many seconds they were, and minutes so many times, each time a
/// minute later at that speed.
#[derive(Drop)]
pub struct Alike {
    /// How many seconds of them were fed.
    pub seconds: u32,
    /// The minutes that they decide, at first.
    pub decided: Decided,
    /// How many times they decide them, each time a minute later at that speed; 1 at least.
    pub times: u32,
}

/// A span of seconds with power, so far.
///
/// It gives each minute with its class as soon as it is decided: when the last of the minutes that may bear on it ends,
/// at which nothing that may still be selected changes it, or when a card is inserted or withdrawn in a later minute
/// (Annex IB, section III.4; the moment: profile). It keeps counts of the last minutes, and no second.
#[derive(Drop)]
pub struct Minutes {
    rule: Rule,
    /// The number of the next second, from 1970-01-01 00:00 GMT.
    next: u32,
    /// How many minutes before that of the next second were not given yet.
    owing: u32,
    /// The minutes before that of the next second.
    past: ArrayVec<Counted, PAST>,
    /// The minute of the next second.
    here: Counted,
    driver: DriverSlot,
    codriver: CodriverSlot,
}

/// What is kept of a span but for the minutes before that of the next second.
#[derive(Clone, Copy)]
pub struct Moment {
    /// Which rule of minutes holds.
    pub rule: Rule,
    /// The number of the next second, from 1970-01-01 00:00 GMT.
    pub next: u32,
    /// How many minutes before that of the next second were not given yet.
    pub owing: u32,
    /// The minute of the next second.
    pub here: Counted,
    /// What is selected for the driver.
    pub driver: DriverSlot,
    /// What is selected for the co-driver.
    pub codriver: CodriverSlot,
}

impl Model for Minutes {
    ghost use Rattle.std.specs.Prelude.{◌^◌, ◌-◌, ◌+◌, ◌/◌, ◌≤◌};
    ghost use Rattle.std.specs.List.{AllByRecursion};
    ghost use Rattle.minute_rules.specs.Counted.{Fits};
    ghost use Rattle.minute_rules.specs.Kept.{Kept};

    ghost Value = { Kept };

    ghost view = { λ m. record {
      rule = m.rule;
      next = m.next;
      owing = m.owing;
      past = m.past.items;
      here = m.here;
      driver = m.driver;
      codriver = m.codriver;
    } };

    ghost invariant = { λ m. AllByRecursion (Fits m.next) m.past.items × Fits m.next m.here × (m.owing ≤ 3) };
}

impl Minutes {
    ghost use Rattle.minute_rules.specs.Kept.{kept_closed, ended, heard, passed, driven, run, turned, minute_ended};
    ghost use Rattle.minute_rules.specs.Kept.{minute_back, owed, class_kept, decided_now};

    /// A span that begins at the second of this number (seconds since 1970-01-01 00:00 GMT), judged by this rule of
    /// minutes.
    pub fn new(rule: Rule, first: u32) -> Self
        ensures span { CountsSpan result (begin rule first) }
        ensures next { result.next ≡ first }
    {
        Minutes {
            rule,
            next: first,
            owing: 0,
            past: ArrayVec::new(),
            here: Counted::default(),
            driver: DriverSlot::default(),
            codriver: CodriverSlot::default(),
        }
    }

    /// The number of the next second.
    pub fn next(&self) -> u32
        ensures value { result ≡ self.now.next }
        ensures span { (span : Span) → CountsSpan self.now span → result ≡ end_of span }
    {
        self.next
    }

    /// The sum of the speeds of the span's seconds so far, in km/h.
    pub fn travelled(&self) -> u64
        ensures { (span : Span) → CountsSpan self.now span → result ≡ travelled_of span }
    {
        self.here.travelled
    }

    /// The selection that holds at the next second if that is at speed 0.
    pub fn selected(&self, slot: Slot) -> Pick
        ensures { (span : Span) → CountsSpan self.now span → activity_of result ≡ activity_next slot span }
    {
        match slot {
            Slot::Driver => self.driver.picked.unwrap_or(self.driver.current),
            Slot::CoDriver => self.codriver.picked.unwrap_or(self.codriver.current),
        }
    }

    /// Selects an activity for the next second. Several selections for one second count in their order; those for a
    /// moving second do not count.
    pub fn select(&mut self, slot: Slot, pick: Pick)
        ensures picked { (span : Span) → CountsSpan self.old span → CountsSpan self.new (picked span slot pick) }
        ensures next { self.new.next ≡ self.old.next }
    {
        match slot {
            Slot::Driver => self.driver.select(pick),
            Slot::CoDriver => self.codriver.picked = Some(pick),
        }
    }

    /// Feeds the next second, at this speed in km/h, and gives the minutes that it decides: over all calls each decided
    /// minute once, and in order.
    ///
    /// The number of the next second is below 4294967295.
    pub fn feed(&mut self, speed: u8) -> Decided
        requires { self.old.next < 2 ^ 32 - 1 }
        ensures fed { (span : Span) → CountsSpan self.old span → CountsSpan self.new (fed span speed) }
        ensures given { (span : Span) → CountsSpan self.old span
            → decided_in (fed span speed) ≡ decided_in span ++ result.items }
        ensures next { self.new.next ≡ self.old.next + 1 }
    {
        self.feed_once::<Brand>(speed, Blank::new(1))
    }

    /// `feed`, by steps that nobody counts.
    fn feed_once<L: Ledger>(&mut self, speed: u8, blank: Blank) -> Decided
        requires name { blank.name ≡ L.name }
        requires parts { blank.parts ≡ L.parts }
        requires one { blank.parts ≡ 1 }
        requires fits { self.old.next < 2 ^ 32 - 1 }
        ensures fed { (span : Span) → CountsSpan self.old span → CountsSpan self.new (fed span speed) }
        ensures given { (span : Span) → CountsSpan self.old span
            → decided_in (fed span speed) ≡ decided_in span ++ result.items }
        ensures next { self.new.next ≡ self.old.next + 1 }
    {
        let mut steps = Steps::<L>::new(blank);
        self.feed_run(1, speed, &mut steps)
    }

    /// Feeds the next `n` seconds, which lie in one minute, at one speed: as so many calls of `feed`, in steps that do
    /// not grow with `n`.
    ///
    /// The number of the next second and `n` together are at most 4294967295.
    pub fn feed_run<L: Ledger>(&mut self, n: u32, speed: u8, steps: &mut Steps<L>) -> Decided
        requires fits { self.old.next + n ≤ 2 ^ 32 - 1 }
        requires minute { self.old.next % 60 + n ≤ 60 }
        ensures fed { (span : Span) → CountsSpan self.old span → CountsSpan self.new (fed_many span speed n) }
        ensures given { (span : Span) → CountsSpan self.old span
            → decided_in (fed_many span speed n) ≡ decided_in span ++ result.items }
        ensures next { self.new.next ≡ self.old.next + n }
        ensures cost { steps.new ≤ steps.old + 10 }
    {
        if n == 0 {
            return ArrayVec::new();
        }
        self.run(n, speed, steps);
        self.end_minute()
    }

    /// Feeds the next seconds at one speed, some of so many: those that are left of the next second's minute; or that
    /// minute, where it is whole, and all whole minutes behind it, where they go on alike.
    ///
    /// The number of the next second and `most` together are at most 4294967295.
    pub fn feed_long<L: Ledger>(&mut self, most: u32, speed: u8, steps: &mut Steps<L>) -> Alike
        requires some { 0 < most }
        requires fits { self.old.next + most ≤ 2 ^ 32 - 1 }
        ensures seconds { (0 < result.seconds) × (result.seconds ≤ most) }
        ensures fed { (span : Span) → CountsSpan self.old span
            → CountsSpan self.new (fed_many span speed result.seconds) }
        ensures given { (span : Span) → CountsSpan self.old span
            → decided_in (fed_many span speed result.seconds) ≡ decided_in span ++ decided_alike speed result }
        ensures next { self.new.next ≡ self.old.next + result.seconds }
        ensures late { AllByRecursion (λ m. m.minute + result.times ≤ 2 ^ 32 - 1) result.decided.items }
    {
        let n = most.min(60 - self.next % 60);
        let more = (most - n) / 60;
        if n < 60 || more == 0 {
            return self.feed_within(n, speed, steps);
        }
        self.feed_alike(more, speed, steps)
    }

    /// Seconds of one minute.
    fn feed_within<L: Ledger>(&mut self, n: u32, speed: u8, steps: &mut Steps<L>) -> Alike
        requires some { 0 < n }
        requires fits { self.old.next + n ≤ 2 ^ 32 - 1 }
        requires minute { self.old.next % 60 + n ≤ 60 }
        ensures seconds { result.seconds ≡ n }
        ensures fed { (span : Span) → CountsSpan self.old span
            → CountsSpan self.new (fed_many span speed result.seconds) }
        ensures given { (span : Span) → CountsSpan self.old span
            → decided_in (fed_many span speed result.seconds) ≡ decided_in span ++ decided_alike speed result }
        ensures next { self.new.next ≡ self.old.next + result.seconds }
        ensures late { AllByRecursion (λ m. m.minute + result.times ≤ 2 ^ 32 - 1) result.decided.items }
    {
        self.run(n, speed, steps);
        let decided = self.end_minute();
        Alike {
            seconds: n,
            decided,
            times: 1,
        }
    }

    /// A whole minute, and so many more where they go on alike.
    fn feed_alike<L: Ledger>(&mut self, more: u32, speed: u8, steps: &mut Steps<L>) -> Alike
        requires whole { self.old.next % 60 ≡ 0 }
        requires fits { self.old.next + 60 + 60 * more ≤ 2 ^ 32 - 1 }
        ensures seconds { (0 < result.seconds) × (result.seconds ≤ 60 + 60 * more) }
        ensures fed { (span : Span) → CountsSpan self.old span
            → CountsSpan self.new (fed_many span speed result.seconds) }
        ensures given { (span : Span) → CountsSpan self.old span
            → decided_in (fed_many span speed result.seconds) ≡ decided_in span ++ decided_alike speed result }
        ensures next { self.new.next ≡ self.old.next + result.seconds }
        ensures late { AllByRecursion (λ m. m.minute + result.times ≤ 2 ^ 32 - 1) result.decided.items }
    {
        let then = self.later(1, speed);
        self.run(60, speed, steps);
        let decided = self.end_minute();
        if self.is_as(&then) {
            let after = self.later(more, speed);
            *self = after;
            return Alike {
                seconds: 60 + 60 * more,
                decided,
                times: 1 + more,
            };
        }
        Alike {
            seconds: 60,
            decided,
            times: 1,
        }
    }

    /// The same, so many minutes later at this speed.
    fn later(&self, minutes: u32, speed: u8) -> Minutes
        requires { self.now.next + 60 * minutes ≤ 2 ^ 32 - 1 }
        ensures { result ≡ later minutes speed self.now }
    {
        let more = 60 * minutes as u64 * speed as u64;
        let were = self.past.as_slice();
        let mut past = ArrayVec::new();
        for i in 0..were.len() {
            past.push(were[i].further(more));
        }
        Minutes {
            rule: self.rule,
            next: self.next + 60 * minutes,
            owing: self.owing,
            past,
            here: self.here.further(more),
            driver: self.driver,
            codriver: self.codriver,
        }
    }

    /// Whether they are the same, with all minutes that are kept of a long span.
    fn is_as(&self, other: &Minutes) -> bool
        ensures { OnTrue result ((self.now ≡ other.now) × (length self.now.past ≡ PAST)) }
    {
        if self.past.len() != PAST || other.past.len() != PAST {
            return false;
        }
        let past = self.past.as_slice();
        let theirs = other.past.as_slice();
        if differ(past, theirs) {
            return false;
        }
        let moment = self.moment();
        let others = other.moment();
        if moments_differ(moment, others) {
            return false;
        }
        true
    }

    /// All but the minutes before that of the next second.
    fn moment(&self) -> Moment
        ensures { result ≡ moment_of self.now }
    {
        Moment {
            rule: self.rule,
            next: self.next,
            owing: self.owing,
            here: self.here,
            driver: self.driver,
            codriver: self.codriver,
        }
    }

    /// A settling at the next second: gives the minutes before the next second's minute that were not given yet.
    pub fn settle(&mut self) -> Decided
        ensures settled { (span : Span) → CountsSpan self.old span → CountsSpan self.new (settled span) }
        ensures given { (span : Span) → CountsSpan self.old span
            → decided_in (settled span) ≡ decided_in span ++ result.items }
        ensures next { self.new.next ≡ self.old.next }
    {
        let decided = self.owed();
        self.owing = 0;
        decided
    }

    /// The minutes before the next second's minute that were not given yet.
    fn owed(&self) -> Decided
        ensures { result.items ≡ owed self.now }
    {
        let mut decided = ArrayVec::new();
        for i in 0..self.owing {
            decided.push(self.class(self.owing - i));
        }
        decided
    }

    /// So many seconds of one minute.
    fn run<L: Ledger>(&mut self, n: u32, speed: u8, steps: &mut Steps<L>)
        requires { self.old.next + n ≤ 2 ^ 32 - 1 }
        ensures kept { self.new ≡ run n speed self.old }
        ensures cost { steps.new ≤ steps.old + 10 }
    {
        if speed == 0 {
            self.hear(steps);
            self.pass(n, steps);
        } else {
            self.drive(n, speed, steps);
        }
    }

    /// The driver's open seconds get this activity.
    fn close<L: Ledger>(&mut self, act: Activity, steps: &mut Steps<L>)
        ensures kept { self.new ≡ kept_closed act self.old }
        ensures cost { steps.new ≤ steps.old + 5 }
    {
        close_all(self.past.as_mut_slice(), act, steps);
        self.here.close(act);
    }

    /// The first rest or availability within 120 seconds of the stop counts from the stop on.
    fn end_early<L: Ledger>(&mut self, steps: &mut Steps<L>)
        ensures kept { self.new ≡ ended self.old.driver.waiting self.old.driver.early self.old }
        ensures cost { steps.new ≤ steps.old + 5 }
    {
        if let (Some(_), Some(pick)) = (self.driver.waiting, self.driver.early) {
            self.close(pick.activity(), steps);
            self.driver.waiting = None;
        }
    }

    /// What was selected for a second at speed 0: the first rest or availability within 120 seconds of the stop counts
    /// from the stop on.
    fn hear<L: Ledger>(&mut self, steps: &mut Steps<L>)
        ensures kept { self.new ≡ heard self.old }
        ensures cost { steps.new ≤ steps.old + 5 }
    {
        self.end_early(steps);
        self.driver.hear();
        self.codriver.hear();
    }

    /// Seconds at speed 0, for which nothing is selected any more: the driver waits till the 120th second after the
    /// stop.
    fn pass<L: Ledger>(&mut self, n: u32, steps: &mut Steps<L>)
        requires { self.old.next + n ≤ 2 ^ 32 - 1 }
        ensures kept { self.new ≡ passed n self.old }
        ensures cost { steps.new ≤ steps.old + 5 }
    {
        let waiting = self.driver.waiting;
        end_late(&mut self.past, waiting, n, steps);
        self.here.wait(waiting, self.driver.current.activity(), n);
        self.here.codriver.add(self.codriver.current.activity(), n);
        self.driver.waiting = still_waiting(waiting, n);
        self.next += n;
    }

    /// Moving seconds: what was selected for them does not count, and a stop may follow.
    fn drive<L: Ledger>(&mut self, n: u32, speed: u8, steps: &mut Steps<L>)
        requires { self.old.next + n ≤ 2 ^ 32 - 1 }
        ensures kept { self.new ≡ driven n speed self.old }
        ensures cost { steps.new ≤ steps.old + 5 }
    {
        self.close(Activity::Work, steps);
        self.here.drive(n, speed);
        self.driver = DriverSlot {
            current: Pick::Work,
            waiting: Some(0),
            early: None,
            picked: None,
        };
        self.codriver = CodriverSlot {
            current: Pick::Available,
            picked: None,
        };
        self.next += n;
    }

    /// The minute that the last second decides, if it ended its minute.
    fn end_minute(&mut self) -> Decided
        ensures given { result.items ≡ decided_now self.old }
        ensures kept { self.new ≡ minute_ended self.old }
    {
        let mut decided = ArrayVec::new();
        if self.next % 60 == 0 {
            self.turn();
            let owing = self.owing + 1;
            if owing > ahead(self.rule) {
                decided.push(self.class(owing));
            } else {
                self.owing = owing;
            }
        }
        decided
    }

    /// Another minute begins.
    fn turn(&mut self)
        ensures { self.new ≡ turned self.old }
    {
        if self.past.is_full() {
            let _oldest = self.past.remove(0);
        }
        self.past.push(self.here);
        self.here = Counted {
            travelled: self.here.travelled,
            ..Counted::default()
        };
    }

    /// The class of the minute so many before that of the next second, by what is known now.
    fn class(&self, back: u32) -> Minute
        requires { 0 < back × back ≤ 4 }
        ensures { result ≡ class_kept self.now back }
    {
        let this = self.minute_back(back);
        Minute {
            minute: (self.next / 60).saturating_sub(back),
            driver: driver_class(
                self.rule,
                self.minute_back(back + 1),
                this,
                self.minute_back(back - 1),
            ),
            codriver: this.codriver.longest(),
            travelled: this.travelled,
        }
    }

    /// What is counted of the minute so many before that of the next second; nothing where it is not kept.
    fn minute_back(&self, back: u32) -> Counted
        ensures { result ≡ minute_back self.now back }
    {
        if back == 0 {
            return self.here;
        }
        let back = back as usize;
        if back <= self.past.len() {
            self.past[self.past.len() - back]
        } else {
            Counted::default()
        }
    }
}

/// Whether something else is kept, but for the minutes before that of the next second.
fn moments_differ(one: Moment, other: Moment) -> bool
    ensures { OnFalse result (one ≡ other) }
{
    let first = ahead(one.rule);
    let second = ahead(other.rule);
    if first != second || one.next != other.next || one.owing != other.owing {
        return true;
    }
    let counts = counts_differ(one.here, other.here);
    let drivers = drivers_differ(one.driver, other.driver);
    let codrivers = codrivers_differ(one.codriver, other.codriver);
    if counts || drivers || codrivers {
        return true;
    }
    false
}

/// How many whole minutes after a minute may bear on it.
fn ahead(rule: Rule) -> u32
    ensures value { result ≡ minutes_ahead rule }
    ensures most { result ≤ 3 }
{
    match rule {
        Rule::Original => 2,
        Rule::Amended => 3,
    }
}
