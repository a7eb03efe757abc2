//! Seconds of one minute at one speed.
ghost use Rattle.std.specs.Prelude.{◌≡◌, ◌+◌, ◌*◌, false, length, is_err};
ghost use Rattle.run_minutes.specs.Writes.{WroteAtMost, minute_most, minute_unit_most};
ghost use Rattle.run_events.specs.Writes.{watch_most};
ghost use Rattle.run_minutes.specs.Keeping.{DevicesMayBeCalled};
ghost use Rattle.run_acts.specs.declared.run.Power.TheVariants.{Lit};
ghost use Rattle.run_acts.specs.Power.{is_lit, passed};
ghost use Rattle.run_acts.specs.Going.{IsInsideSecond, IsStretch};
ghost use Rattle.run_acts.specs.Room.{HasRoomWithin};
ghost use Rattle.run_minutes.specs.run_promise.Between.{devices};
ghost use Rattle.run_minutes.specs.Kept.{MayKeepAll};
ghost use Rattle.run_minutes.specs.Stand.{StandsAfter, KeepingGoes, AreBare};
ghost use Rattle.run_acts.specs.Keepings.{acting, MayWatch, KeepsTurn};
ghost use Rattle.run_acts.specs.Acts.{LeavesLit, LeavesTurned, LitTurns, PromisesTurn, StandsTurned, TurnGoes, Turns};
ghost use Rattle.run_acts.specs.Writes.{turn_unit_most, settle_card_most};

use crate::feeding::feed;
use crate::run::Run;
use minute_rules::Minute;
use run_events::Seconds;
use run_minutes::{MinutesDecided, Moment};
use run_outcome::Outcome;
use tach_media::{Chip, Failed, Medium};

/// Seconds of one minute, one after another, at one speed.
#[derive(Clone, Copy)]
pub struct Stretch {
    /// From 1 to 60.
    pub seconds: u32,
    /// In km/h.
    pub speed: u8,
    /// How many actions the last of them has.
    pub begun: u32,
}

/// So many seconds of one minute, the last of which has so many actions, and the keeping of what they decide.
pub fn turn<M: Medium, C: Chip, D: Chip>(
    run: &mut Run,
    stretch: Stretch,
    unit: &mut M,
    card_a: &mut C,
    card_b: &mut D,
    outcome: &mut Outcome,
)
    requires going { IsInsideSecond run.old (M.state unit.old) (C.card card_a.old) (D.card card_b.old)
        (C.state card_a.old) (D.state card_b.old) }
    requires stretch { IsStretch stretch.seconds run.old.next }
    requires room { HasRoomWithin run.old outcome.old stretch.seconds 0 0 0 }
    ensures turned { Turns stretch.seconds stretch.speed stretch.begun run.old run.new outcome.old outcome.new }
    ensures leaves { LeavesTurned stretch.seconds stretch.speed stretch.begun run.old run.new outcome.old outcome.new
        (devices (M.state unit.old) (C.state card_a.old) (D.state card_b.old))
        (devices (M.state unit.new) (C.state card_a.new) (D.state card_b.new)) }
    // What a run promises goes on with them, and what they bring of events is noted.
    ensures promises { PromisesTurn stretch.seconds stretch.speed stretch.begun run.old run.new outcome.old
        outcome.new
        (devices (M.state unit.old) (C.state card_a.old) (D.state card_b.old))
        (devices (M.state unit.new) (C.state card_a.new) (D.state card_b.new)) }
    ensures dark { is_lit run.old.power ≡ false
        → (unit.new ≡ unit.old) × (card_a.new ≡ card_a.old) × (card_b.new ≡ card_b.old) }
    ensures behind { StandsTurned stretch.seconds run.old run.new outcome.old outcome.new (M.state unit.new)
        (C.card card_a.new) (D.card card_b.new) (C.state card_a.new) (D.state card_b.new) }
    ensures goes { TurnGoes turn_unit_most settle_card_most outcome.old.breaks.items outcome.new.breaks.items
        (devices (M.state unit.old) (C.state card_a.old) (D.state card_b.old))
        (devices (M.state unit.new) (C.state card_a.new) (D.state card_b.new)) }
{
    if !run.is_lit() {
        run.pass(stretch.seconds, stretch.begun);
        return;
    }
    lit_turn(run, stretch, unit, card_a, card_b, outcome);
    run.pass(stretch.seconds, stretch.begun);
}

/// The same with power. Where the keeping fails, or a note, the power is lost in the last of the seconds.
fn lit_turn<M: Medium, C: Chip, D: Chip>(
    run: &mut Run,
    stretch: Stretch,
    unit: &mut M,
    card_a: &mut C,
    card_b: &mut D,
    outcome: &mut Outcome,
)
    requires lit { run.old.power ≡ Lit }
    requires going { IsInsideSecond run.old (M.state unit.old) (C.card card_a.old) (D.card card_b.old)
        (C.state card_a.old) (D.state card_b.old) }
    requires stretch { IsStretch stretch.seconds run.old.next }
    requires room { HasRoomWithin run.old outcome.old stretch.seconds 0 0 0 }
    ensures turned { LitTurns stretch.seconds stretch.speed stretch.begun run.old run.new outcome.old outcome.new }
    ensures leaves { LeavesLit stretch.seconds stretch.speed stretch.begun run.old run.new outcome.old outcome.new
        (devices (M.state unit.old) (C.state card_a.old) (D.state card_b.old))
        (devices (M.state unit.new) (C.state card_a.new) (D.state card_b.new)) }
    ensures behind { StandsTurned stretch.seconds run.old (passed stretch.seconds stretch.begun run.new) outcome.old
        outcome.new (M.state unit.new)
        (C.card card_a.new) (D.card card_b.new) (C.state card_a.new) (D.state card_b.new) }
    ensures goes { TurnGoes turn_unit_most settle_card_most outcome.old.breaks.items outcome.new.breaks.items
        (devices (M.state unit.old) (C.state card_a.old) (D.state card_b.old))
        (devices (M.state unit.new) (C.state card_a.new) (D.state card_b.new)) }
{
    let decided = feed(&mut run.minutes, stretch.seconds, stretch.speed);
    let at = Moment {
        second: run.next + stretch.seconds - 1,
        begun: stretch.begun,
        late: true,
    };
    let turned = StretchDecided {
        decided: decided.as_slice(),
        stretch,
        at,
    };
    let kept = keep_turn(run, turned, unit, card_a, card_b, outcome);
    if kept.is_err() {
        run.cut(at.second, true, stretch.begun, &mut outcome.breaks);
    }
}

/// Minutes that a stretch of seconds has decided, and the moment of their keeping.
#[derive(Clone, Copy)]
struct StretchDecided<D> {
    decided: D,
    stretch: Stretch,
    at: Moment,
}

/// Keeps the minutes that so many seconds have decided, and then notes what has ended with the second before them:
/// nothing has unless they are one.
fn keep_turn<M: Medium, C: Chip, D: Chip>(
    run: &mut Run,
    turned: StretchDecided<&[Minute]>,
    unit: &mut M,
    card_a: &mut C,
    card_b: &mut D,
    outcome: &mut Outcome,
) -> Result<(), Failed>
    requires ready { DevicesMayBeCalled run.old.keeper (M.state unit.old) (C.card card_a.old) (D.card card_b.old)
        (C.state card_a.old) (D.state card_b.old) }
    requires may { MayKeepAll turned.decided.now turned.at
        (acting run.old outcome.old (M.state unit.old) (C.state card_a.old) (D.state card_b.old) (C.card card_a.old)
        (D.card card_b.old)) }
    requires watch { MayWatch turned.stretch.seconds run.old (M.state unit.old) }
    ensures kept { KeepsTurn turned.entry.decided.now turned.entry.stretch.seconds turned.entry.stretch.speed
        turned.entry.at (is_err result) run.old run.new outcome.old outcome.new
        (devices (M.state unit.old) (C.state card_a.old) (D.state card_b.old))
        (devices (M.state unit.new) (C.state card_a.new) (D.state card_b.new)) }
    ensures stands { StandsAfter turned.entry.at (is_err result)
        (acting run.old outcome.old (M.state unit.old) (C.state card_a.old) (D.state card_b.old) (C.card card_a.old)
        (D.card card_b.old))
        (acting run.new outcome.new (M.state unit.new) (C.state card_a.new) (D.state card_b.new) (C.card card_a.new)
        (D.card card_b.new)) }
    ensures goes { KeepingGoes
        (acting run.old outcome.old (M.state unit.old) (C.state card_a.old) (D.state card_b.old) (C.card card_a.old)
        (D.card card_b.old))
        (acting run.new outcome.new (M.state unit.new) (C.state card_a.new) (D.state card_b.new) (C.card card_a.new)
        (D.card card_b.new)) }
    ensures most { WroteAtMost (minute_unit_most * length turned.entry.decided.now + watch_most)
        (minute_most * length turned.entry.decided.now)
        (devices (M.state unit.old) (C.state card_a.old) (D.state card_b.old))
        (devices (M.state unit.new) (C.state card_a.new) (D.state card_b.new)) }
    ensures bare { AreBare run.old.keeper.cabin.cards card_a.old card_a.new card_b.old card_b.new }
{
    let crew = run.keeper.cabin.crew();
    let minutes = MinutesDecided {
        decided: turned.decided,
        at: turned.at,
    };
    run.keeper.keep_all(minutes, unit, card_a, card_b, outcome)?;
    let first = run.next;
    let seconds = Seconds {
        first,
        count: turned.stretch.seconds,
        speed: turned.stretch.speed,
    };
    run.watch.turn(&run.keeper.memory, seconds, crew, unit)
}
