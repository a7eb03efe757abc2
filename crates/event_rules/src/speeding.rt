//! Over speeding (Annex IB, section III.12).
ghost use Rattle.std.specs.Prelude.{◌^◌, ◌≡◌, ◌+◌, ◌*◌, ◌/◌, ◌==◌, ◌≤◌, ◌<◌, List, [], ◌++◌, option_to_list};
ghost use Rattle.std.specs.Prelude.{if◌then◌else◌, nat_lt};
ghost use Rattle.event_model.specs.Spans.{SpeedSecond, overs_of, at_speed};
ghost use Rattle.event_rules.specs.Speeding.{Speeding, CountsSpeedSeconds, IsNext, no_run, grown, over_in};

use event_model::Over;
use std::marker::Model;

/// How many seconds above the limit make no over speeding yet.
const TOLERATED_SECONDS: u64 = 60;

/// The run of seconds above the limit that goes on: its first second, how many seconds it has, the sum of their speeds
/// and the highest of them. No run has no seconds.
#[derive(Clone, Copy, Debug, Default, PartialEq, Eq)]
pub struct Fast {
    pub begin: u32,
    pub seconds: u64,
    pub sum: u64,
    pub most: u8,
}

impl Fast {
    /// With so many seconds more at one speed, which follow its own.
    #[tactic(auto, using(crate::proofs::Sums::sum_fits))]
    fn grown(self, second: u32, n: u32, speed: u8) -> Self
        requires next { IsNext self second }
        requires fits { second + n ≤ 2 ^ 32 }
        requires sum { self.sum ≤ 255 * self.seconds }
        ensures value { result ≡ grown second n speed self }
        ensures end { result.begin + result.seconds ≡ second + n }
        ensures sum { result.sum ≤ 255 * result.seconds }
    {
        Fast {
            begin: self.first(second),
            seconds: self.seconds + n as u64,
            sum: self.sum + n as u64 * speed as u64,
            most: self.most.max(speed),
        }
    }

    /// Its first second where this one follows its own.
    fn first(self, second: u32) -> u32
        requires next { IsNext self second }
        ensures value { result ≡ (if self.seconds == 0 then second else self.begin) }
        ensures end { result + self.seconds ≡ second }
    {
        if self.seconds == 0 {
            return second;
        }
        self.begin
    }

    /// The over speeding that it is where it ends now.
    fn over(self) -> Option<Over>
        requires end { self.begin + self.seconds ≤ 2 ^ 32 }
        requires sum { self.sum ≤ 255 * self.seconds }
        ensures { result ≡ over_in self }
    {
        if self.seconds <= TOLERATED_SECONDS {
            return None;
        }
        Some(Over {
            begin: self.begin,
            end: (self.begin as u64 + self.seconds - 1) as u32,
            most: self.most,
            average: average(self.sum, self.seconds),
        })
    }
}

/// The average of so many speeds with this sum, rounded down.
#[tactic(auto, using(crate::proofs::Sums::average_fits))]
fn average(sum: u64, seconds: u64) -> u8
    requires some { 0 < seconds }
    requires sum { sum ≤ 255 * seconds }
    ensures { result ≡ sum / seconds }
{
    (sum / seconds) as u8
}

/// The over speedings of a power span: each run of more than 60 seconds above the limit. It keeps a few counts and no
/// second.
#[derive(Drop)]
pub struct Overspeed {
    limit: u8,
    run: Fast,
}

impl Model for Overspeed {
    ghost use Rattle.std.specs.Prelude.{◌^◌, ◌+◌, ◌*◌, ◌≤◌};
    ghost use Rattle.event_rules.specs.Speeding.{Speeding};

    ghost Value = { Speeding };

    ghost view = { λ o. record { limit = o.limit; run = o.run } };

    ghost invariant = { λ o. (o.run.begin + o.run.seconds ≤ 2 ^ 32) × (o.run.sum ≤ 255 * o.run.seconds) };
}

impl Overspeed {
    /// A span with no second yet, and this limit in km/h.
    pub fn new(limit: u8) -> Self
        ensures stands { CountsSpeedSeconds result [] }
        ensures value { result ≡ record { limit = limit; run = no_run } }
    {
        Overspeed {
            limit,
            run: Fast::default(),
        }
    }

    /// Feeds a second, at this speed in km/h: the over speeding that ended with the second before, if there is one.
    ///
    /// It is the second after the one that was fed before, where there is one.
    pub fn feed(&mut self, second: u32, speed: u8) -> Option<Over>
        requires next { IsNext self.old.run second }
        ensures fed { (seconds : List SpeedSecond) → CountsSpeedSeconds self.old seconds
            → CountsSpeedSeconds self.new (seconds ++ at_speed second 1 speed) }
        ensures given { (seconds : List SpeedSecond) → CountsSpeedSeconds self.old seconds
            → overs_of self.old.limit (seconds ++ at_speed second 1 speed) ≡ overs_of self.old.limit seconds
            ++ option_to_list result }
        ensures limit { self.new.limit ≡ self.old.limit }
        ensures next { IsNext self.new.run (second + 1) }
    {
        self.feed_run(second, 1, speed)
    }

    /// Feeds `n` seconds, one at least, at one speed, from `second` on: as so many calls of `feed`, with no loop. The
    /// over speeding that ended with the second before the first, if there is one: no later one of them can end one.
    ///
    /// The last of them is at most 4294967295, and `second` is the one after the one that was fed before, where there
    /// is one.
    pub fn feed_run(&mut self, second: u32, n: u32, speed: u8) -> Option<Over>
        requires some { 0 < n }
        requires fits { second + n ≤ 2 ^ 32 }
        requires next { IsNext self.old.run second }
        ensures fed { (seconds : List SpeedSecond) → CountsSpeedSeconds self.old seconds
            → CountsSpeedSeconds self.new (seconds ++ at_speed second n speed) }
        ensures given { (seconds : List SpeedSecond) → CountsSpeedSeconds self.old seconds
            → overs_of self.old.limit (seconds ++ at_speed second n speed) ≡ overs_of self.old.limit seconds
            ++ option_to_list result }
        ensures limit { self.new.limit ≡ self.old.limit }
        ensures next { IsNext self.new.run (second + n) }
    {
        if self.is_above(speed) {
            self.grow(second, n, speed);
            return None;
        }
        self.end()
    }

    /// Whether a speed is above the limit.
    fn is_above(&self, speed: u8) -> bool
        ensures { result ≡ nat_lt self.now.limit speed }
    {
        speed > self.limit
    }

    /// The run goes on, with so many seconds more.
    fn grow(&mut self, second: u32, n: u32, speed: u8)
        requires fits { second + n ≤ 2 ^ 32 }
        requires next { IsNext self.old.run second }
        ensures kept { self.new ≡ record { limit = self.old.limit; run = grown second n speed self.old.run } }
        ensures end { self.new.run.begin + self.new.run.seconds ≡ second + n }
    {
        self.run = self.run.grown(second, n, speed);
    }

    /// The run ends.
    fn end(&mut self) -> Option<Over>
        ensures value { result ≡ over_in self.old.run }
        ensures kept { self.new ≡ record { limit = self.old.limit; run = no_run } }
    {
        let over = self.run.over();
        self.run = Fast::default();
        over
    }
}
