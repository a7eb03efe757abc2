//! Seconds at one speed.
ghost use Rattle.std.specs.Prelude.{ℕ, ◌+◌, ◌-◌, ◌<◌, OnOk, []};
ghost use Rattle.trace_model.specs.Trace.{driven};
ghost use Rattle.run_minutes.specs.run_promise.Between.{devices};
ghost use Rattle.run_acts.specs.Going.{IsBetweenSeconds, IsStretch};
ghost use Rattle.run_acts.specs.Room.{HasRoom};
ghost use Rattle.recorder_with_cards.specs.Items.{between, insertions_in};
ghost use Rattle.recorder_with_cards.specs.Recorded.{actions_in};
ghost use Rattle.recorder_with_cards.specs.Acts.{ItemGoes, PromisesMore, PromisesSeconds};
ghost use Rattle.recorder_with_cards.specs.Acts.{AreAmong, HasRoomFor, MayGoOn};
ghost use Rattle.recorder_with_cards.specs.Gone.{HasGone};
ghost use Rattle.recorder_with_cards.specs.Writes.{turns_among};

use crate::acts::{ActsOfSecond, act_all, number_of};
use crate::resuming::begin_second;
use run_acts::{Run, Stretch, turn, turn_length};
use run_opening::RunFault;
use run_outcome::Outcome;
use tach_media::{Chip, Medium};
use trace_text::Items;

/// So many seconds at one speed in km/h, with the items of the actions at their beginning, from one index to another.
#[derive(Clone, Copy)]
pub(crate) struct DrivenSeconds<I> {
    pub items: I,
    pub from: usize,
    pub to: usize,
    pub seconds: u32,
    pub speed: u8,
}

/// So many more seconds at one speed in km/h.
#[derive(Clone, Copy)]
struct MoreSeconds {
    seconds: u32,
    speed: u8,
}

/// So many seconds at one speed, from 1 on, with the actions among the items from one index to another at their
/// beginning.
///
/// # Errors
///
/// `BadUnit` or `ClockBack`, of a unit that is read anew at a power-on.
pub(crate) fn drive<M: Medium, C: Chip, D: Chip>(
    run: &mut Run,
    due: DrivenSeconds<&Items>,
    unit: &mut M,
    card_a: &mut C,
    card_b: &mut D,
    outcome: &mut Outcome,
) -> Result<(), RunFault>
    requires going { IsBetweenSeconds run.old (M.state unit.old) (C.card card_a.old) (D.card card_b.old)
        (C.state card_a.old) (D.state card_b.old) }
    requires some { 0 < due.seconds }
    requires may { MayGoOn due.seconds 0 (insertions_in due.from due.to due.items.now) (due.to - due.from) run.old
        outcome.old }
    requires among { AreAmong due.items.now due.from due.to }
    // What a run promises goes on over them.
    ensures promises { PromisesSeconds result due.entry.seconds due.entry.speed (due.entry.to - due.entry.from)
        (actions_in (between due.entry.from due.entry.to due.entry.items.now)) run.old run.new outcome.old outcome.new
        (devices (M.state unit.old) (C.state card_a.old) (D.state card_b.old))
        (devices (M.state unit.new) (C.state card_a.new) (D.state card_b.new)) }
    // Its first two seconds are turns, and of the others each that opens.
    ensures goes { ItemGoes result (turns_among 2 (driven due.entry.seconds run.old.next due.entry.speed []))
        (due.entry.to - due.entry.from) 0 run.old run.new outcome.old outcome.new
        (devices (M.state unit.old) (C.state card_a.old) (D.state card_b.old))
        (devices (M.state unit.new) (C.state card_a.new) (D.state card_b.new)) }
    ensures gone { HasGone result due.entry.seconds run.old run.new outcome.new (M.state unit.new) (C.card card_a.new)
        (D.card card_b.new) (C.state card_a.new) (D.state card_b.new) }
    ensures room { (left offs insertions actions : ℕ)
        → HasRoom run.old outcome.old (due.entry.seconds + left) offs
        (insertions_in due.entry.from due.entry.to due.entry.items.now + insertions)
        (due.entry.to - due.entry.from + actions) → OnOk result
        (HasRoom run.new outcome.new left offs insertions actions) }
{
    let has_power = begin_second(run, due.speed, unit, card_a, card_b, outcome)?;
    let first = ActsOfSecond {
        items: due.items,
        from: due.from,
        to: due.to,
        has_power,
        speed: due.speed,
    };
    act_all(run, first, unit, card_a, card_b, outcome);
    let begun = number_of(due.to - due.from);
    let stretch = Stretch {
        seconds: 1,
        speed: due.speed,
        begun,
    };
    turn(run, stretch, unit, card_a, card_b, outcome);
    let more = MoreSeconds {
        seconds: due.seconds - 1,
        speed: due.speed,
    };
    drive_on(run, more, unit, card_a, card_b, outcome)
}

/// So many more seconds at one speed, at most a minute at a time.
fn drive_on<M: Medium, C: Chip, D: Chip>(
    run: &mut Run,
    more: MoreSeconds,
    unit: &mut M,
    card_a: &mut C,
    card_b: &mut D,
    outcome: &mut Outcome,
) -> Result<(), RunFault>
    requires going { IsBetweenSeconds run.old (M.state unit.old) (C.card card_a.old) (D.card card_b.old)
        (C.state card_a.old) (D.state card_b.old) }
    requires may { MayGoOn more.seconds 0 0 0 run.old outcome.old }
    // What a run promises goes on over them.
    ensures promises { PromisesMore result more.seconds more.speed run.old run.new outcome.old outcome.new
        (devices (M.state unit.old) (C.state card_a.old) (D.state card_b.old))
        (devices (M.state unit.new) (C.state card_a.new) (D.state card_b.new)) }
    // The first of them is a turn, and of the others each that opens.
    ensures goes { ItemGoes result (turns_among 1 (driven more.seconds run.old.next more.speed [])) 0 0 run.old run.new
        outcome.old outcome.new
        (devices (M.state unit.old) (C.state card_a.old) (D.state card_b.old))
        (devices (M.state unit.new) (C.state card_a.new) (D.state card_b.new)) }
    ensures gone { HasGone result more.seconds run.old run.new outcome.new (M.state unit.new) (C.card card_a.new)
        (D.card card_b.new) (C.state card_a.new) (D.state card_b.new) }
    ensures room { (left offs insertions actions : ℕ)
        → HasRoom run.old outcome.old (more.seconds + left) offs insertions actions
        → OnOk result (HasRoom run.new outcome.new left offs insertions actions) }
{
    let mut left = more.seconds;
    while left > 0 {
        let n = turn_length(run.next, left);
        let turned = MoreSeconds {
            seconds: n,
            speed: more.speed,
        };
        step(run, turned, unit, card_a, card_b, outcome)?;
        left -= n;
    }
    Ok(())
}

/// So many seconds of one minute without actions.
fn step<M: Medium, C: Chip, D: Chip>(
    run: &mut Run,
    more: MoreSeconds,
    unit: &mut M,
    card_a: &mut C,
    card_b: &mut D,
    outcome: &mut Outcome,
) -> Result<(), RunFault>
    requires going { IsBetweenSeconds run.old (M.state unit.old) (C.card card_a.old) (D.card card_b.old)
        (C.state card_a.old) (D.state card_b.old) }
    requires stretch { IsStretch more.seconds run.old.next }
    requires room { HasRoomFor more.seconds run.old outcome.old }
    // What a run promises goes on over them.
    ensures promises { PromisesMore result more.seconds more.speed run.old run.new outcome.old outcome.new
        (devices (M.state unit.old) (C.state card_a.old) (D.state card_b.old))
        (devices (M.state unit.new) (C.state card_a.new) (D.state card_b.new)) }
    ensures goes { ItemGoes result 1 0 0 run.old run.new outcome.old outcome.new
        (devices (M.state unit.old) (C.state card_a.old) (D.state card_b.old))
        (devices (M.state unit.new) (C.state card_a.new) (D.state card_b.new)) }
    ensures gone { HasGone result more.seconds run.old run.new outcome.new (M.state unit.new) (C.card card_a.new)
        (D.card card_b.new) (C.state card_a.new) (D.state card_b.new) }
    ensures room { (left offs insertions actions : ℕ) → HasRoom run.old outcome.old
        (more.seconds + left) offs insertions actions
        → OnOk result (HasRoom run.new outcome.new left offs insertions actions) }
{
    begin_second(run, more.speed, unit, card_a, card_b, outcome)?;
    let stretch = Stretch {
        seconds: more.seconds,
        speed: more.speed,
        begun: 0,
    };
    turn(run, stretch, unit, card_a, card_b, outcome);
    Ok(())
}
