//! Random spans of seconds, fed in runs, beside the rule as one reads it off the whole list of seconds.
ghost use Rattle.std.specs.Prelude.{◌≡◌, ◌<◌, ◌≤◌};

use activity_codec::{Activity, Pick, Slot, Steps};
use minute_rules::{Alike, Minute, Minutes, Rule};
use std::alloc::Global;
use std::marker::Brand;
use std::sync::ledger::{Blank, Ledger};
use std::test::Fail;

/// The first second of each span: 2010-03-01 00:00 GMT.
const START: u32 = 1267401600;

/// A second: its speed, and what was selected for it.
#[derive(Clone, Copy, Debug, PartialEq, Eq)]
struct Second {
    speed: u8,
    driver: [Option<Pick>; 2],
    codriver: Option<Pick>,
}

/// A span: its seconds, and before which of them a card was inserted or withdrawn.
#[derive(Drop)]
struct Whole {
    rule: Rule,
    seconds: Vec<Second>,
    settlings: Vec<usize>,
}

/// Numbers that look random.
#[derive(Drop)]
struct Dice {
    state: u32,
}

impl Dice {
    /// A number below `most`, or 0.
    fn below(&mut self, most: u32) -> u32
        ensures { result ≤ most }
    {
        self.state = self.state.wrapping_mul(1664525).wrapping_add(1013904223);
        if most == 0 {
            0
        } else {
            (self.state >> 8) % most
        }
    }

    /// A selection.
    fn pick(&mut self) -> Pick {
        match self.below(3) {
            0 => Pick::Rest,
            1 => Pick::Available,
            _ => Pick::Work,
        }
    }
}

/// The last selection of this second for the driver.
fn last_of(second: &Second) -> Option<Pick> {
    second.driver[1].or(second.driver[0])
}

/// The first second at speed 0 after the last motion before this place, if there was motion.
fn stop_before(known: &[Second], at: usize) -> Option<usize> {
    let mut stop = None;
    for i in 0..known.len() {
        if i < at && known[i].speed > 0 {
            stop = Some(i.saturating_add(1));
        }
    }
    stop
}

/// The driver's first rest or availability within 120 seconds of the stop, with no motion between.
fn early(known: &[Second], stop: usize) -> Option<(usize, Pick)> {
    for i in 0..known.len() {
        if i >= stop && i <= stop.saturating_add(120) {
            if known[i].speed > 0 {
                return None;
            }
            for pick in known[i].driver {
                match pick {
                    Some(Pick::Rest) | Some(Pick::Available) => return Some((i, pick?)),
                    _ => {}
                }
            }
        }
    }
    None
}

/// The driver's last selection at speed 0 from one place to another.
fn last_pick(known: &[Second], from: usize, to: usize) -> Option<Pick> {
    let mut last = None;
    for i in 0..known.len() {
        if i >= from && i <= to && known[i].speed == 0 {
            last = last_of(&known[i]).or(last);
        }
    }
    last
}

/// The driver's activity in this second.
fn driver_in(known: &[Second], at: usize) -> Activity {
    if at < known.len() && known[at].speed > 0 {
        return Activity::Driving;
    }
    let Some(stop) = stop_before(known, at) else {
        return last_pick(known, 0, at).map_or(Activity::Rest, Pick::activity);
    };
    if let Some((when, pick)) = early(known, stop) {
        if at < when {
            return pick.activity();
        }
    }
    last_pick(known, stop, at).map_or(Activity::Work, Pick::activity)
}

/// The co-driver's activity in this second.
fn codriver_in(known: &[Second], at: usize) -> Activity {
    if at < known.len() && known[at].speed > 0 {
        return Activity::Available;
    }
    let stop = stop_before(known, at);
    let mut act = stop.map_or(Activity::Rest, |_| Activity::Available);
    for i in 0..known.len() {
        if i >= stop.unwrap_or(0) && i <= at && known[i].speed == 0 {
            act = known[i].codriver.map_or(act, Pick::activity);
        }
    }
    act
}

/// The activity of the longest run of equal ones, the latest of equally long ones.
fn longest(acts: &[Activity]) -> Activity {
    let mut best = Activity::Rest;
    let mut most = 0u32;
    let mut run = 0u32;
    for i in 0..acts.len() {
        let same = i > 0 && acts[i] == acts[i - 1];
        run = if same { run.saturating_add(1) } else { 1 };
        if run >= most {
            best = acts[i];
            most = run;
        }
    }
    best
}

/// A span: its seconds, and before which of them a card was inserted or withdrawn.
impl Whole {
    /// How many seconds are known when this minute is judged: up to the last of the second (amended: third) minute
    /// after it, or up to the one before the first settling in a later minute.
    fn known(&self, minute: usize) -> usize {
        let ahead = match self.rule {
            Rule::Original => 3,
            Rule::Amended => 4,
        };
        for i in 0..self.settlings.len() {
            let settling = self.settlings[i];
            if settling / 60 > minute {
                return settling.min(minute.saturating_add(ahead).saturating_mul(60));
            }
        }
        minute.saturating_add(ahead).saturating_mul(60)
    }

    /// Whether a minute has a moving second among the first so many.
    fn drives(&self, known: usize, minute: Option<usize>) -> bool {
        let Some(minute) = minute else {
            return false;
        };
        for at in 0..self.seconds.len() {
            if at < known && at / 60 == minute && self.seconds[at].speed > 0 {
                return true;
            }
        }
        false
    }

    /// The longest activity of driver and co-driver in a minute, by the first so many seconds.
    fn longest(
        &self,
        alloc: Global,
        known: usize,
        minute: Option<usize>,
    ) -> Result<(Activity, Activity), Fail> {
        let seconds = self.seconds.get(..known).unwrap_or(&[]);
        let mut driver = Vec::new(alloc);
        let mut codriver = Vec::new(alloc);
        for at in 0..seconds.len() {
            if Some(at / 60) == minute {
                driver.push(driver_in(seconds, at))?;
                codriver.push(codriver_in(seconds, at))?;
            }
        }
        Ok((longest(&driver), longest(&codriver)))
    }

    /// The class of a minute, by the first so many seconds.
    fn class(&self, alloc: Global, known: usize, minute: usize) -> Result<Minute, Fail> {
        let before = minute.checked_sub(1);
        let after = minute.checked_add(1);
        let (longest, codriver) = self.longest(alloc, known, Some(minute))?;
        let driving = match self.rule {
            Rule::Original => {
                self.drives(known, Some(minute))
                    || (self.drives(known, before) && self.drives(known, after))
            }
            Rule::Amended => {
                self.longest(alloc, known, before)?.0 == Activity::Driving
                    && self.longest(alloc, known, after)?.0 == Activity::Driving
            }
        };
        Ok(Minute {
            minute: (START / 60).saturating_add(u32::try_from(minute).unwrap_or(0)),
            driver: if driving { Activity::Driving } else { longest },
            codriver,
            travelled: self.travelled(minute),
        })
    }

    /// The sum of the speeds up to the end of a minute.
    fn travelled(&self, minute: usize) -> u64 {
        let mut sum = 0u64;
        for at in 0..self.seconds.len() {
            if at / 60 <= minute {
                sum = sum.saturating_add(self.seconds[at].speed as u64);
            }
        }
        sum
    }

    /// The decided minutes.
    fn decided(&self, alloc: Global) -> Result<Vec<Minute>, Fail> {
        let mut all = Vec::new(alloc);
        for minute in 0..self.seconds.len().div_ceil(60) {
            let known = self.known(minute);
            if known <= self.seconds.len() {
                all.push(self.class(alloc, known, minute)?)?;
            }
        }
        Ok(all)
    }
}

/// A span as it is fed, and beside it the whole of it.
#[derive(Drop)]
struct Fed {
    minutes: Minutes,
    given: Vec<Minute>,
    whole: Whole,
    coming: Second,
}

/// A second at speed 0 for which nothing is selected.
const STILL: Second = Second {
    speed: 0,
    driver: [None, None],
    codriver: None,
};

impl Fed {
    fn new(alloc: Global, rule: Rule) -> Self {
        Fed {
            minutes: Minutes::new(rule, START),
            given: Vec::new(alloc),
            whole: Whole {
                rule,
                seconds: Vec::new(alloc),
                settlings: Vec::new(alloc),
            },
            coming: STILL,
        }
    }

    /// A selection for the next second: of the driver's the second-last and the last are noted.
    fn select(&mut self, slot: Slot, pick: Pick) {
        match slot {
            Slot::Driver => {
                if self.coming.driver[1].is_some() {
                    return;
                }
                let first = self.coming.driver[0];
                self.coming.driver = if first.is_none() {
                    [Some(pick), None]
                } else {
                    [first, Some(pick)]
                };
            }
            Slot::CoDriver => self.coming.codriver = Some(pick),
        }
        self.minutes.select(slot, pick);
    }

    /// A settling at the next second.
    fn settle(&mut self) -> Result<(), Fail> {
        let settling = self.whole.seconds.len();
        self.whole.settlings.push(settling)?;
        let decided = self.minutes.settle();
        self.given.extend_from_slice(decided.as_slice())?;
        Ok(())
    }

    /// So many seconds at a speed are more of the whole.
    fn note(&mut self, seconds: u32, speed: u8) -> Result<(), Fail> {
        for _i in 0..seconds {
            self.whole.seconds.push(Second {
                speed,
                ..self.coming
            })?;
            self.coming = STILL;
        }
        Ok(())
    }

    /// These minutes are given once more, so many minutes later.
    fn give_later(&mut self, decided: &[Minute], later: u32, speed: u8) -> Result<(), Fail> {
        let more = 60 * later as u64 * speed as u64;
        for minute in decided {
            self.given.push(Minute {
                minute: minute.minute.saturating_add(later),
                travelled: minute.travelled.saturating_add(more),
                ..*minute
            })?;
        }
        Ok(())
    }

    /// All minutes that go on alike are given.
    fn give_alike(&mut self, alike: &Alike, speed: u8) -> Result<(), Fail> {
        for turn in 0..alike.times {
            self.give_later(alike.decided.as_slice(), turn, speed)?;
        }
        Ok(())
    }

    /// So many seconds at a speed, of which minutes that go on alike are fed at once.
    fn run_long<L: Ledger>(
        &mut self,
        seconds: u32,
        speed: u8,
        steps: &mut Steps<L>,
    ) -> Result<(), Fail> {
        self.note(seconds, speed)?;
        let mut left = seconds;
        for _piece in 0..seconds {
            if left == 0 || left > 10000 || self.minutes.next() > 4000000000 {
                return Ok(());
            }
            let alike = self.minutes.feed_long(left, speed, steps);
            self.give_alike(&alike, speed)?;
            left = left.saturating_sub(alike.seconds);
        }
        Ok(())
    }

    /// So many seconds at a speed, cut at the ends of minutes.
    fn run<L: Ledger>(
        &mut self,
        seconds: u32,
        speed: u8,
        steps: &mut Steps<L>,
    ) -> Result<(), Fail> {
        self.note(seconds, speed)?;
        let mut left = seconds;
        for _piece in 0..seconds {
            let n = left.min(60 - self.minutes.next() % 60);
            if n == 0 || self.minutes.next() > 4000000000 {
                return Ok(());
            }
            let decided = self.minutes.feed_run(n, speed, steps);
            self.given.extend_from_slice(decided.as_slice())?;
            left = left.saturating_sub(n);
        }
        Ok(())
    }

    /// One step of a random span.
    fn step<L: Ledger>(&mut self, dice: &mut Dice, steps: &mut Steps<L>) -> Result<(), Fail> {
        match dice.below(11) {
            0 | 1 => self.select(Slot::Driver, dice.pick()),
            2 => self.select(Slot::CoDriver, dice.pick()),
            3 => self.settle()?,
            4 | 5 => self.run(dice.below(60) + 1, dice.below(90) as u8 + 1, steps)?,
            6 => self.run(dice.below(200) + 1, 0, steps)?,
            7 => self.run(118 + dice.below(5), 0, steps)?,
            8 | 9 => self.run_long(dice.below(900) + 1, (dice.below(2) * 50) as u8, steps)?,
            _ => self.run(1, (dice.below(2) * 40) as u8, steps)?,
        }
        Ok(())
    }
}

/// `given_and_read`, by steps that nobody counts.
fn given_and_read_by<L: Ledger>(
    alloc: Global,
    rule: Rule,
    seed: u32,
    blank: Blank,
) -> Result<(Vec<Minute>, Vec<Minute>), Fail>
    requires name { blank.name ≡ L.name }
    requires parts { blank.parts ≡ L.parts }
    requires some { 0 < blank.parts }
{
    let mut steps = Steps::<L>::new(blank);
    let mut dice = Dice { state: seed };
    let mut fed = Fed::new(alloc, rule);
    for _i in 0..24 {
        fed.step(&mut dice, &mut steps)?;
    }
    let read = fed.whole.decided(alloc)?;
    Ok((fed.given, read))
}

/// The minutes that a random span gave, and those that are read off the whole of it.
fn given_and_read(
    alloc: Global,
    rule: Rule,
    seed: u32,
) -> Result<(Vec<Minute>, Vec<Minute>), Fail> {
    given_and_read_by::<Brand>(alloc, rule, seed, Blank::new(1))
}

#[test]
fn random_spans_are_as_read_off_the_whole_list(rt: HostRuntime) -> Result<(), Fail> {
    for seed in 0..40 {
        for rule in [Rule::Original, Rule::Amended] {
            let (given, read) = given_and_read(rt.alloc(), rule, seed)?;
            assert!(rt; read.len() > 2, "seed {seed}");
            assert_eq!(rt; given, read, "seed {seed}");
        }
    }
    Ok(())
}
