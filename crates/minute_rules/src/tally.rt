//! Runs of equal seconds, counted as they come.
ghost use Rattle.std.specs.Prelude.{◌^◌, ◌-◌, ◌≡◌, ◌+◌, ◌≤◌};
ghost use Rattle.activity_codec.specs.Activity.{same_activity};
ghost use Rattle.std.specs.Bool.{OnFalse};
ghost use Rattle.minute_rules.specs.Tally.{with_run, longest_in};

use activity_codec::Activity;

/// The longest finished run of equal seconds, the latest of equally long ones, and the run that goes on.
#[derive(Clone, Copy, Debug, Default, PartialEq, Eq)]
pub struct Tally {
    pub best: Activity,
    pub best_seconds: u32,
    pub going: Activity,
    pub going_seconds: u32,
}

impl Tally {
    /// So many more seconds of this activity.
    pub fn with(self, act: Activity, seconds: u32) -> Self
        requires { self.going_seconds + seconds ≤ 2 ^ 32 - 1 }
        ensures { result ≡ with_run self act seconds }
    {
        if seconds == 0 {
            return self;
        }
        if act == self.going {
            return Tally {
                best: self.best,
                best_seconds: self.best_seconds,
                going: self.going,
                going_seconds: self.going_seconds + seconds,
            };
        }
        if self.going_seconds < self.best_seconds {
            return Tally {
                best: self.best,
                best_seconds: self.best_seconds,
                going: act,
                going_seconds: seconds,
            };
        }
        Tally {
            best: self.going,
            best_seconds: self.going_seconds,
            going: act,
            going_seconds: seconds,
        }
    }

    /// The same, where it stands.
    pub fn add(&mut self, act: Activity, seconds: u32)
        requires { self.old.going_seconds + seconds ≤ 2 ^ 32 - 1 }
        ensures { self.new ≡ with_run self.old act seconds }
    {
        if seconds == 0 {
            return;
        }
        if act == self.going {
            self.going_seconds += seconds;
            return;
        }
        if self.going_seconds < self.best_seconds {
            self.going = act;
            self.going_seconds = seconds;
            return;
        }
        self.best = self.going;
        self.best_seconds = self.going_seconds;
        self.going = act;
        self.going_seconds = seconds;
    }

    /// The activity of the longest run, the latest of equally long ones.
    pub fn longest(self) -> Activity
        ensures { result ≡ longest_in self }
    {
        if self.best_seconds > self.going_seconds {
            self.best
        } else {
            self.going
        }
    }
}

/// Whether they are the same.
fn is_same(one: Activity, other: Activity) -> bool
    ensures { result ≡ same_activity one other }
{
    one == other
}

/// Whether they are two activities.
pub fn acts_differ(one: Activity, other: Activity) -> bool
    ensures { OnFalse result (one ≡ other) }
{
    let same = is_same(one, other);
    if same {
        return false;
    }
    true
}

/// Whether they are two tallies.
pub fn tallies_differ(one: Tally, other: Tally) -> bool
    ensures { OnFalse result (one ≡ other) }
{
    if one.best_seconds != other.best_seconds || one.going_seconds != other.going_seconds {
        return true;
    }
    let bests = acts_differ(one.best, other.best);
    let goings = acts_differ(one.going, other.going);
    if bests || goings {
        return true;
    }
    false
}
