//! What a run has recorded, from second to second: laws.
ghost use Rattle.std.specs.Prelude.{◌≡◌, List};
ghost use Rattle.run_course.specs.trace_model.Trace.{TraceSecond};
ghost use Rattle.run_course.specs.log_model.declared.lines.Mark.{Mark};
ghost use Rattle.run_course.specs.log_model.declared.lines.Refused.{Refused};
ghost use Rattle.unit_rule.specs.unit_model.Decoding.{Decodes};
ghost use Rattle.unit_rule.specs.run_unit_course.Legs.{Travel};
ghost use Rattle.unit_rule.specs.safety_model.Safe.{breakdowns_of};
ghost use Rattle.run_promise.specs.Between.{RunLedger, LedgerStands, IsFound, devices};
ghost use Rattle.run_course.specs.Followed.{Progress};
ghost use Rattle.run_promise.specs.Origin.{Origin, HistoryIsRecorded};
ghost use Rattle.run_promise.specs.Beside.{FindsGoOn, NothingIsFound, CardsAreSpared, IdleCardsAreSpared};
ghost use Rattle.run_promise.specs.Beside.{ASecondTellsMore, FoundTellsNoMore, QuietSecondsTellMore};
ghost use Rattle.run_promise.specs.Beside.{DarkSecondsTellMore, AnOffLineTellsMore, AnOffCutTellsMore, FewerAreFound};
ghost use Rattle.run_promise.specs.Beside.{FewAreFoundOn};
ghost use Rattle.run_promise.specs.Ends.{recording_by, recording_with, HandsBeside, IsBeside, EndsRun};
ghost use Rattle.run_promise.specs.Seconds.{NothingIsRecorded, WhatWasKeptIsFound, MoreIsRecorded, ASecondIsRecorded};
ghost use Rattle.run_promise.specs.Seconds.{ASecondIsBroken, AFailedPowerOnIsRecorded, QuietSecondsAreRecorded};
ghost use Rattle.run_promise.specs.Seconds.{DarkSecondsAreRecorded, AnOffLineIsRecorded, AnOffCutIsRecorded};

use tach_media::{Chip, Medium};

/// A run begins with nothing recorded.
pub fn nothing_is_recorded()
    ensures { NothingIsRecorded }
{}

/// Power is back, and it is found what was kept.
pub fn what_was_kept_is_found()
    ensures { WhatWasKeptIsFound }
{}

/// Breakdowns of which nothing is told, and further marks, take nothing away.
pub fn more_is_recorded()
    ensures { MoreIsRecorded }
{}

/// One second more with power, all whose decided minutes are kept.
pub fn a_second_is_recorded()
    ensures { ASecondIsRecorded }
{}

/// One second more that is a cut's.
pub fn a_second_is_broken()
    ensures { ASecondIsBroken }
{}

/// Seconds of a minute without actions, of which nothing is told.
pub fn quiet_seconds_are_recorded()
    ensures { QuietSecondsAreRecorded }
{}

/// Seconds after a failed call, up to the minute's end.
pub fn dark_seconds_are_recorded()
    ensures { DarkSecondsAreRecorded }
{}

/// An `off` line while there is no power.
pub fn an_off_line_is_recorded()
    ensures { AnOffLineIsRecorded }
{}

/// An `off` line while there is power.
pub fn an_off_cut_is_recorded()
    ensures { AnOffCutIsRecorded }
{}

/// THE END OF A RUN: what was recorded, and carried by unit and cards, is what a run promises.
pub fn what_is_recorded_is_promised<M: Medium, C: Chip, D: Chip, N: Medium, E: Chip, F: Chip>(
    old_unit: &M,
    old_a: &C,
    old_b: &D,
    unit: &N,
    card_a: &E,
    card_b: &F,
)
    ensures { (o : Origin) (done : List TraceSecond) (p : Progress) (g : Travel) (marks : List Mark)
        (stops : List Refused)
        (w : RunLedger) → Decodes o.recording.unit →
        IsFound (recording_by o done p.log) o.found
        (devices (M.state old_unit.now) (C.state old_a.now) (D.state old_b.now)) →
        o.breakdowns ≡ breakdowns_of (devices (M.state old_unit.now) (C.state old_a.now) (D.state old_b.now)) →
        HistoryIsRecorded o done p g marks (breakdowns_of
        (devices (N.state unit.now) (E.state card_a.now) (F.state card_b.now))) w.brought →
        LedgerStands o.found w (devices (N.state unit.now) (E.state card_a.now) (F.state card_b.now)) → w.book ≡ p.book
        → w.marks ≡ marks →
        IsBeside o done p g marks (devices (N.state unit.now) (E.state card_a.now) (F.state card_b.now))
        → HandsBeside (recording_with o done p.log stops) w marks →
        EndsRun (recording_with o done p.log stops) marks
        (devices (M.state old_unit.now) (C.state old_a.now) (D.state old_b.now))
        (devices (N.state unit.now) (E.state card_a.now) (F.state card_b.now)) }
{}

/// A power-on that fails at once.
pub fn a_failed_power_on_is_recorded()
    ensures { AFailedPowerOnIsRecorded }
{}

/// A second that the trace gives power tells of cards what it tells, behind all others.
pub fn a_second_tells_more()
    ensures { ASecondTellsMore }
{}

/// At a power-on the seconds tell of cards as before.
pub fn found_tells_no_more()
    ensures { FoundTellsNoMore }
{}

/// In quiet seconds no card enters.
pub fn quiet_seconds_tell_more()
    ensures { QuietSecondsTellMore }
{}

/// Nor in those after a failed call.
pub fn dark_seconds_tell_more()
    ensures { DarkSecondsTellMore }
{}

/// Nor in those of an `off` line,
pub fn an_off_line_tells_more()
    ensures { AnOffLineTellsMore }
{}

/// also where it takes the power.
pub fn an_off_cut_tells_more()
    ensures { AnOffCutTellsMore }
{}

/// No more is found of cards than they entered.
pub fn fewer_are_found()
    ensures { FewerAreFound }
{}

/// And so it is from second to second.
pub fn few_are_found_on()
    ensures { FewAreFoundOn }
{}

/// What was found of cards stays found, and further finds are made.
pub fn finds_go_on<M: Medium, C: Chip, D: Chip, N: Medium, E: Chip, F: Chip>(
    old_unit: &M,
    old_a: &C,
    old_b: &D,
    unit: &N,
    card_a: &E,
    card_b: &F,
)
    ensures { FindsGoOn (devices (M.state old_unit.now) (C.state old_a.now) (D.state old_b.now))
        (devices (N.state unit.now) (E.state card_a.now) (F.state card_b.now)) }
{}

/// Where no card enters nothing is found.
pub fn nothing_is_found<M: Medium, C: Chip, D: Chip, N: Medium, E: Chip, F: Chip>(
    old_unit: &M,
    old_a: &C,
    old_b: &D,
    unit: &N,
    card_a: &E,
    card_b: &F,
)
    ensures { NothingIsFound (devices (M.state old_unit.now) (C.state old_a.now) (D.state old_b.now))
        (devices (N.state unit.now) (E.state card_a.now) (F.state card_b.now)) }
{}

/// Which cards may be written may be written from then on.
pub fn cards_are_spared<M: Medium, C: Chip, D: Chip, N: Medium, E: Chip, F: Chip>(
    old_unit: &M,
    old_a: &C,
    old_b: &D,
    unit: &N,
    card_a: &E,
    card_b: &F,
)
    ensures { CardsAreSpared (devices (M.state old_unit.now) (C.state old_a.now) (D.state old_b.now))
        (devices (N.state unit.now) (E.state card_a.now) (F.state card_b.now)) }
{}

/// So it is where no card enters.
pub fn idle_cards_are_spared<M: Medium, C: Chip, D: Chip, N: Medium, E: Chip, F: Chip>(
    old_unit: &M,
    old_a: &C,
    old_b: &D,
    unit: &N,
    card_a: &E,
    card_b: &F,
)
    ensures { IdleCardsAreSpared (devices (M.state old_unit.now) (C.state old_a.now) (D.state old_b.now))
        (devices (N.state unit.now) (E.state card_a.now) (F.state card_b.now)) }
{}
