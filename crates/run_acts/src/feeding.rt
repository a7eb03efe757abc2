//! Seconds of one minute.
ghost use Rattle.std.specs.Prelude.{◌≡◌, ◌+◌, ◌%◌, ◌<◌, ◌≤◌, ◌++◌};
ghost use Rattle.unit_model.specs.minute_model.Span.{Span, decided_in, fed_many};
ghost use Rattle.minute_rules.specs.Kept.{CountsSpan};
ghost use Rattle.run_acts.specs.Going.{largest_number};

use activity_codec::{MINUTE_SECONDS, Steps};
use minute_rules::{Decided, Minutes};
use std::marker::Brand;
use std::sync::ledger::{Blank, Ledger};

/// How many seconds a turn takes: the first of a minute alone, and then up to the minute's end.
pub fn turn_length(next: u32, left: u32) -> u32
    requires { 0 < left }
    ensures some { 0 < result }
    ensures most { result ≤ left }
    ensures minute { next % 60 + result ≤ 60 }
    // Behind it, where seconds are left, a minute begins, or its first second is over.
    ensures opens { result < left → (next + result) % 60 ≤ 1 }
{
    if next % MINUTE_SECONDS == 0 {
        return 1;
    }
    left.min(MINUTE_SECONDS - next % MINUTE_SECONDS)
}

/// So many seconds of one minute, in steps that nobody counts.
pub(crate) fn feed(minutes: &mut Minutes, seconds: u32, speed: u8) -> Decided
    requires fits { minutes.old.next + seconds ≤ largest_number }
    requires minute { minutes.old.next % 60 + seconds ≤ 60 }
    ensures fed { (span : Span) → CountsSpan minutes.old span → CountsSpan minutes.new (fed_many span speed seconds) }
    ensures given { (span : Span) → CountsSpan minutes.old span
        → decided_in (fed_many span speed seconds) ≡ decided_in span ++ result.items }
    ensures next { minutes.new.next ≡ minutes.old.next + seconds }
{
    feed_by::<Brand>(minutes, seconds, speed, Blank::new(1))
}

fn feed_by<L: Ledger>(minutes: &mut Minutes, seconds: u32, speed: u8, blank: Blank) -> Decided
    requires name { blank.name ≡ L.name }
    requires parts { blank.parts ≡ L.parts }
    requires one { blank.parts ≡ 1 }
    requires fits { minutes.old.next + seconds ≤ largest_number }
    requires minute { minutes.old.next % 60 + seconds ≤ 60 }
    ensures fed { (span : Span) → CountsSpan minutes.old span → CountsSpan minutes.new (fed_many span speed seconds) }
    ensures given { (span : Span) → CountsSpan minutes.old span
        → decided_in (fed_many span speed seconds) ≡ decided_in span ++ result.items }
    ensures next { minutes.new.next ≡ minutes.old.next + seconds }
{
    let mut steps = Steps::<L>::new(blank);
    minutes.feed_run(seconds, speed, &mut steps)
}
