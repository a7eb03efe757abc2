//! Driving without an appropriate card, and power supply interruptions (Annex IB, section III.12).
ghost use Rattle.std.specs.Prelude.{◌^◌, ◌≡◌, ◌+◌, ◌/◌, ◌==◌, ◌≤◌, ◌<◌, List, [], ◌++◌, option_to_list, if◌then◌else◌};
ghost use Rattle.event_model.specs.Spans.{DriverSecond, bares_of, all_bare, gap_of};
ghost use Rattle.event_rules.specs.Bare.{Bare, CountsDriverSeconds, IsNext, no_run, grown, span_in};

use activity_codec::MINUTE_SECONDS;
use event_model::Span;
use std::marker::Model;

/// The runs of a power span's moving seconds without an accepted card in the driver slot. It keeps two counts and no
/// second.
#[derive(Drop)]
pub struct NoCardRun {
    /// The first second of the run that goes on.
    begin: u32,
    /// How many seconds it has; 0 where none goes on.
    seconds: u64,
}

impl Model for NoCardRun {
    ghost use Rattle.std.specs.Prelude.{◌^◌, ◌+◌, ◌≤◌};
    ghost use Rattle.event_rules.specs.Bare.{Bare};

    ghost Value = { Bare };

    ghost view = { λ r. record { begin = r.begin; seconds = r.seconds } };

    ghost invariant = { λ r. r.begin + r.seconds ≤ 2 ^ 32 };
}

impl NoCardRun {
    /// A span with no second yet.
    pub fn new() -> Self
        ensures stands { CountsDriverSeconds result [] }
        ensures value { result ≡ no_run }
    {
        NoCardRun {
            begin: 0,
            seconds: 0,
        }
    }

    /// Feeds a second; `bare` is whether it is a moving one without an accepted card in the driver slot. The run that
    /// ended with the second before, if there is one.
    ///
    /// It is the second after the one that was fed before, where there is one.
    pub fn feed(&mut self, second: u32, bare: bool) -> Option<Span>
        requires next { IsNext self.old second }
        ensures fed { (seconds : List DriverSecond) → CountsDriverSeconds self.old seconds
            → CountsDriverSeconds self.new (seconds ++ all_bare second 1 bare) }
        ensures given { (seconds : List DriverSecond) → CountsDriverSeconds self.old seconds
            → bares_of (seconds ++ all_bare second 1 bare) ≡ bares_of seconds ++ option_to_list result }
        ensures next { IsNext self.new (second + 1) }
    {
        self.feed_run(second, 1, bare)
    }

    /// Feeds `n` seconds, one at least, that are all bare, or none of them, from `second` on: as so many calls of
    /// `feed`, with no loop. The run that ended with the second before the first, if there is one.
    ///
    /// The last of them is at most 4294967295, and `second` is the one after the one that was fed before, where there
    /// is one.
    pub fn feed_run(&mut self, second: u32, n: u32, bare: bool) -> Option<Span>
        requires some { 0 < n }
        requires fits { second + n ≤ 2 ^ 32 }
        requires next { IsNext self.old second }
        ensures fed { (seconds : List DriverSecond) → CountsDriverSeconds self.old seconds
            → CountsDriverSeconds self.new (seconds ++ all_bare second n bare) }
        ensures given { (seconds : List DriverSecond) → CountsDriverSeconds self.old seconds
            → bares_of (seconds ++ all_bare second n bare) ≡ bares_of seconds ++ option_to_list result }
        ensures next { IsNext self.new (second + n) }
    {
        if bare {
            self.grow(second, n);
            return None;
        }
        self.end()
    }

    /// The run goes on, with so many seconds more.
    fn grow(&mut self, second: u32, n: u32)
        requires fits { second + n ≤ 2 ^ 32 }
        requires next { IsNext self.old second }
        ensures kept { self.new ≡ grown second n self.old }
        ensures end { self.new.begin + self.new.seconds ≡ second + n }
    {
        self.begin = self.first(second);
        self.seconds += n as u64;
    }

    /// The run's first second where this one follows its own.
    fn first(&self, second: u32) -> u32
        requires next { IsNext self.now second }
        ensures value { result ≡ (if self.now.seconds == 0 then second else self.now.begin) }
        ensures end { result + self.now.seconds ≡ second }
    {
        if self.seconds == 0 {
            return second;
        }
        self.begin
    }

    /// The run ends.
    fn end(&mut self) -> Option<Span>
        ensures value { result ≡ span_in self.old }
        ensures kept { self.new ≡ no_run }
    {
        let ended = run_of(self.begin, self.seconds);
        self.begin = 0;
        self.seconds = 0;
        ended
    }
}

/// The run of so many seconds, if there is one.
fn run_of(begin: u32, seconds: u64) -> Option<Span>
    requires { begin + seconds ≤ 2 ^ 32 }
    ensures { result ≡ span_in (record { begin = begin; seconds = seconds }) }
{
    if seconds == 0 {
        return None;
    }
    Some(Span {
        begin,
        end: (begin as u64 + seconds - 1) as u32,
    })
}

/// The interruption of power where minute `kept` was the last one that was kept, and power is back at second `now`:
/// from the begin of the next minute on. `None` exactly where none was kept (`kept` is 0).
///
/// The minute of `now` is later than `kept`.
pub fn power_gap(kept: u32, now: u32) -> Option<Span>
    requires { kept < now / 60 }
    ensures { result ≡ gap_of kept now }
{
    if kept == 0 {
        return None;
    }
    Some(Span {
        begin: MINUTE_SECONDS * (kept + 1),
        end: now,
    })
}
