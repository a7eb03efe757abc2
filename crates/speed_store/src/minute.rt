//! The speeds of a minute as its seconds come.
ghost use Rattle.std.specs.Prelude.{◌≡◌, ℕ, ◌+◌, ◌%◌, ◌<◌, ◌≤◌, ◌^◌, List, [], ◌++◌, length, replicate, option_to_list};
ghost use Rattle.std.specs.Prelude.{IfSome};
ghost use Rattle.event_model.specs.Spans.{SpeedSecond, at_speed};
ghost use Rattle.speed_model.specs.Blocks.{blocks_of, is_moving};
ghost use Rattle.speed_store.specs.Feeding.{KeepsSpeedsOf, Follows, block_in};

use activity_codec::MINUTE_SECONDS;
use speed_model::Block;
use std::marker::Model;

/// The speeds of the minute that goes on, as far as they were fed: all of its seconds, or those from the span's first
/// on.
#[derive(Drop)]
pub struct SpeedMinute {
    speeds: [u8; 60],
    count: usize,
}

impl Model for SpeedMinute {
    ghost use Rattle.std.specs.Prelude.{◌≤◌, ℕ, List, take};

    ghost Value = { List ℕ };

    ghost view = { λ m. take m.count m.speeds };

    ghost invariant = { λ m. m.count ≤ 60 };
}

impl SpeedMinute {
    /// A span with no second yet.
    pub fn new() -> SpeedMinute
        ensures none { result ≡ [] }
        ensures stands { (next : ℕ) → KeepsSpeedsOf result [] next }
    {
        SpeedMinute {
            speeds: [0; 60],
            count: 0,
        }
    }

    /// So many seconds of one minute at one speed, one at least, which follow those before. The block of the minute,
    /// where it ends with them, all of its seconds were fed since `new`, and one of them is moving.
    pub fn feed(&mut self, second: u32, n: u32, speed: u8) -> Option<Block>
        requires some { 0 < n }
        requires minute { second % 60 + n ≤ 60 }
        requires fits { second + n ≤ 2 ^ 32 }
        requires follows { Follows self.old second }
        ensures fed { (seconds : List SpeedSecond) → KeepsSpeedsOf self.old seconds second
            → KeepsSpeedsOf self.new (seconds ++ at_speed second n speed) (second + n) }
        ensures given { (seconds : List SpeedSecond) → KeepsSpeedsOf self.old seconds second
            → blocks_of (seconds ++ at_speed second n speed) ≡ blocks_of seconds ++ option_to_list result }
        ensures time { IfSome result (λ b. b.time + 60 ≡ second + n) }
        ensures whole { IfSome result (λ b. length b.speeds ≡ 60) }
    {
        self.put(n, speed);
        let behind = second % MINUTE_SECONDS + n;
        if behind < MINUTE_SECONDS {
            return None;
        }
        self.close(second - (MINUTE_SECONDS - n))
    }

    /// So many seconds more.
    fn put(&mut self, n: u32, speed: u8)
        requires { length self.old + n ≤ 60 }
        ensures { self.new ≡ self.old ++ replicate n speed }
    {
        let end = self.count + n as usize;
        self.speeds[self.count..end].fill(speed);
        self.count = end;
    }

    /// The minute is over, which began at this second.
    fn close(&mut self, time: u32) -> Option<Block>
        ensures block { result ≡ block_in time self.old }
        ensures time { IfSome result (λ b. b.time ≡ time) }
        ensures none { self.new ≡ [] }
    {
        let is_whole = self.count == MINUTE_SECONDS as usize;
        self.count = 0;
        if is_whole && moves(&self.speeds) {
            Some(Block {
                time,
                speeds: self.speeds,
            })
        } else {
            None
        }
    }
}

/// Whether a speed above 0 is among these.
fn moves(speeds: &[u8]) -> bool
    ensures { result ≡ is_moving speeds.now }
{
    speeds.iter().any(|speed| *speed > 0)
}
