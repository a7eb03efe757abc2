//! A run: the seconds of a trace, one after another.
ghost use Rattle.std.specs.Prelude.{◌≡◌, ℕ, ◌+◌, ◌-◌, ◌<◌, ◌≤◌, ◌^◌, List, OnOk, IfErr, true, false};
ghost use Rattle.trace_model.specs.Trace.{item_seconds};
ghost use Rattle.trace_text.specs.Trace.{IsWellFormed};
ghost use Rattle.trace_text.specs.Line.{InRange};
ghost use Rattle.tach_media.specs.card_layout.declared.files.TheConstants.{LARGEST_IMAGE};
ghost use Rattle.unit_minutes.specs.unit_model.Image.{IsUnit};
ghost use Rattle.run_outcome.specs.Room.{off_count, IsReserved};
ghost use Rattle.run_minutes.specs.run_promise.Between.{devices};
ghost use Rattle.run_acts.specs.Going.{IsBetweenSeconds};
ghost use Rattle.run_acts.specs.Room.{HasRoom};
ghost use Rattle.recorder_with_cards.specs.Items.{between, insertions_in};
ghost use Rattle.recorder_with_cards.specs.Recorded.{actions_in};
ghost use Rattle.recorder_with_cards.specs.Ends.{BeginAs, IsTold, RecordsTrace, MayRecord, IsKeptFrom, recording_of};
ghost use Rattle.short_promise.specs.InShort.{KeepsInShort};
ghost use Rattle.recorder_with_cards.specs.Gone.{first_waiting, has_seconds, HasGone, IsRefusedBy, TellsBreakdowns};
ghost use Rattle.recorder_with_cards.specs.Writes.{turns_at, acts_at};
ghost use Rattle.recorder_with_cards.specs.Acts.{ItemGoes, PromisesItem, AreAmong, MayGoOn, RunGoes};

use crate::driving::{DrivenSeconds, drive};
use run_acts::Run;
use run_opening::{RunFault, judge};
use run_outcome::Outcome;
use tach_media::{Chip, Medium};
use trace_text::{Item, Items, Trace};

/// Records a trace on the unit and the cards.
///
/// # Errors
///
/// In the opening, before any write: `MediumFault` only where that device failed, `BadUnit` with the place of the first
/// field that fails, `ClockBack` where the minute of the first second is not later than the last-kept minute, and
/// `SameCard` where both cards are valid and have this number. Later only `BadUnit` and `ClockBack`, of a unit that is
/// read anew at a power-on: no failed call is an error. Over devices that tell their images (`fault`) there is no later
/// one: each device is as it was.
pub fn run_trace<U: Medium, C: Chip>(
    trace: &Trace,
    unit: &mut U,
    card_a: &mut C,
    card_b: &mut C,
    outcome: &mut Outcome,
) -> Result<(), RunFault>
    requires well { IsWellFormed trace.now.start trace.now.items }
    requires reserved { IsReserved trace.now.items outcome.old }
    requires unit { IsUnit (U.state unit.old) }
    requires card_a { LARGEST_IMAGE ≤ (C.state card_a.old).size }
    requires card_b { LARGEST_IMAGE ≤ (C.state card_b.old).size }
    // THE CRASH-SAFETY THEOREM: over devices that began with these images alone all is recorded that a run promises,
    // and each has broken down just as often as it is told.
    ensures recorded { (x a b : List ℕ)
        → IsTold x a b trace.now.items (devices (U.state unit.old) (C.state card_a.old) (C.state card_b.old))
        (devices (U.state unit.new) (C.state card_a.new) (C.state card_b.new))
        → OnOk result (RecordsTrace x a b trace.now.start trace.now.items outcome.new
        (devices (U.state unit.old) (C.state card_a.old) (C.state card_b.old))
        (devices (U.state unit.new) (C.state card_a.new) (C.state card_b.new))) }
    // IN SHORT: what every image of the unit says of each minute, what stands of what was acknowledged, what a card
    // has, and that neither is ahead of the other or misses a minute.
    ensures short { (x a b : List ℕ)
        → IsTold x a b trace.now.items (devices (U.state unit.old) (C.state card_a.old) (C.state card_b.old))
        (devices (U.state unit.new) (C.state card_a.new) (C.state card_b.new))
        → OnOk result (KeepsInShort (recording_of x a b trace.now.start trace.now.items outcome.new)
        outcome.new.marks.items (devices (U.state unit.old) (C.state card_a.old) (C.state card_b.old))
        (devices (U.state unit.new) (C.state card_a.new) (C.state card_b.new))) }
    // A run that is recorded could begin, and what keeps one from being recorded is in these images, or a call has
    // failed in the opening.
    ensures begun { (x a b : List ℕ)
        → BeginAs x a b (devices (U.state unit.old) (C.state card_a.old) (C.state card_b.old))
        → OnOk result (MayRecord x a b trace.now.start) }
    ensures fault { (x a b : List ℕ)
        → IsTold x a b trace.now.items (devices (U.state unit.old) (C.state card_a.old) (C.state card_b.old))
        (devices (U.state unit.new) (C.state card_a.new) (C.state card_b.new))
        → IfErr result (λ fault. IsKeptFrom x a b trace.now.start
        (devices (U.state unit.old) (C.state card_a.old) (C.state card_b.old))
        (devices (U.state unit.new) (C.state card_a.new) (C.state card_b.new)) fault × (outcome.new ≡ outcome.old)) }
    ensures refused { IfErr result (IsRefusedBy trace.now.start outcome.old outcome.new (U.state unit.old)
        (U.state unit.new) (C.state card_a.old) (C.state card_a.new) (C.state card_b.old) (C.state card_b.new)) }
    ensures unit { IsUnit (U.state unit.new) }
    // No clock falls; and so many writes it begins at most, by its power-ons, its turns and its actions, whatever
    // fails.
    ensures goes { RunGoes trace.now.start trace.now.items outcome.new
        (devices (U.state unit.old) (C.state card_a.old) (C.state card_b.old))
        (devices (U.state unit.new) (C.state card_a.new) (C.state card_b.new)) }
    // Each cut that a failed call made is a breakdown of the unit more, whatever it tells. And each breakdown has its
    // cut: where no failed call has cut the power of a run that is recorded, the unit has not broken down; and where
    // none has torn a card out, neither card has. And no breakdown is untold: they are no more than those cuts and
    // tears.
    ensures breakdowns { TellsBreakdowns result outcome.new
        (devices (U.state unit.old) (C.state card_a.old) (C.state card_b.old))
        (devices (U.state unit.new) (C.state card_a.new) (C.state card_b.new)) }
{
    card_a.holds_bytes();
    card_b.holds_bytes();
    let opened = judge(unit, card_a, card_b, trace.start)?;
    let mut run = Run::new(trace.start, opened);
    let mut first = 0;
    for i in 0..trace.items.len() {
        let item = *trace.items.get(i);
        let due = NextItem {
            items: &trace.items,
            from: first,
            to: i,
            item,
        };
        go_on(&mut run, due, unit, card_a, card_b, outcome)?;
        first = first_waiting(item, first, i);
    }
    Ok(())
}

/// The first item that waits for its second behind an item, where it was this one before: an action waits itself.
fn first_waiting(item: Item, first: usize, index: usize) -> usize
    requires { index < 2 ^ 64 - 1 }
    ensures { result ≡ first_waiting item first index }
{
    match item {
        Item::Run { .. } | Item::Off { .. } => index + 1,
        Item::Act(_) => first,
    }
}

/// An item, with the items of the actions that wait for their second, from one index to another.
#[derive(Clone, Copy)]
struct NextItem<I> {
    items: I,
    from: usize,
    to: usize,
    item: Item,
}

/// An item, where the actions among the items from one index to another wait for their second.
fn go_on<M: Medium, C: Chip, D: Chip>(
    run: &mut Run,
    due: NextItem<&Items>,
    unit: &mut M,
    card_a: &mut C,
    card_b: &mut D,
    outcome: &mut Outcome,
) -> Result<(), RunFault>
    requires among { AreAmong due.items.now due.from due.to }
    requires item { InRange due.item }
    requires may { MayGoOn (item_seconds due.item) (off_count due.item) (insertions_in due.from due.to due.items.now)
        (due.to - due.from) run.old outcome.old }
    requires going { IsBetweenSeconds run.old (M.state unit.old) (C.card card_a.old) (D.card card_b.old)
        (C.state card_a.old) (D.state card_b.old) }
    // What a run promises goes on over it.
    ensures promises { PromisesItem result due.entry.item (due.entry.to - due.entry.from)
        (actions_in (between due.entry.from due.entry.to due.entry.items.now)) run.old run.new outcome.old outcome.new
        (devices (M.state unit.old) (C.state card_a.old) (D.state card_b.old))
        (devices (M.state unit.new) (C.state card_a.new) (D.state card_b.new)) }
    ensures goes { ItemGoes result (turns_at run.old.next due.entry.item) (acts_at (due.entry.to - due.entry.from)
        due.entry.item) (off_count due.entry.item) run.old run.new outcome.old outcome.new
        (devices (M.state unit.old) (C.state card_a.old) (D.state card_b.old))
        (devices (M.state unit.new) (C.state card_a.new) (D.state card_b.new)) }
    ensures gone { HasGone result (item_seconds due.entry.item) run.old run.new outcome.new (M.state unit.new)
        (C.card card_a.new)
        (D.card card_b.new) (C.state card_a.new) (D.state card_b.new) }
    ensures idle { OnOk result
        (has_seconds due.entry.item ≡ false → (run.new ≡ run.old) × (outcome.new ≡ outcome.old)) }
    ensures room { (left offs insertions actions : ℕ)
        → HasRoom run.old outcome.old (item_seconds due.entry.item + left) (off_count due.entry.item + offs)
        (insertions_in due.entry.from due.entry.to due.entry.items.now + insertions)
        (due.entry.to - due.entry.from + actions)
        → OnOk result (has_seconds due.entry.item ≡ true → HasRoom run.new outcome.new left offs insertions actions) }
{
    match due.item {
        Item::Act(_) => Ok(()),
        Item::Off { seconds } => {
            run.off(seconds, &mut outcome.breaks);
            Ok(())
        }
        Item::Run { seconds, speed } => {
            let driven = DrivenSeconds {
                items: due.items,
                from: due.from,
                to: due.to,
                seconds,
                speed,
            };
            drive(run, driven, unit, card_a, card_b, outcome)
        }
    }
}
