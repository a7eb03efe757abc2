//! How the run of a unit with cards goes on, second by second: laws.
ghost use Rattle.run_course.specs.Moments.{ABreakMoreIsSeen, AFindMoreIsSeen, ARefusalMoreIsNotSeen};
ghost use Rattle.run_course.specs.Moments.{LaterLinesChangeNoMoment, AnActionMoreIsActed, OneActionMore};
ghost use Rattle.run_course.specs.Seconds.{ARunBegins, APowerOnFinds, APowerOnFails, ASecondGoesOn, ASecondBreaksOff};
ghost use Rattle.run_course.specs.Seconds.{RulesSeeTheSecond, DecidedMinutesAreNew, AMinuteStaysDark, AnOffLineIsDark};
ghost use Rattle.run_course.specs.Seconds.{AnOffLineCuts};
ghost use Rattle.run_course.specs.Within.{ASecondBegins, AnActionIsAMoment, ASecondEnds, ACutEndsTheSecond};
ghost use Rattle.run_course.specs.Within.{ATearIsTold, AFindIsTold, SlotsTellATear, SlotsTellAnAcceptance};
ghost use Rattle.run_course.specs.Complete.{NothingIsDecidedYet, ASecondIsAcknowledged, PowerAloneDecidesNothing};
ghost use Rattle.run_course.specs.Complete.{FoundStaysComplete, AFailureStaysComplete, RefusalsStayComplete};
ghost use Rattle.run_course.specs.Complete.{ACutStaysComplete, MoreMarksStay};
ghost use Rattle.run_course.specs.Caused.{ARunIsCaused, ASecondIsCaused, FoundStaysCaused, AnOffLineIsCaused};
ghost use Rattle.run_course.specs.Caused.{AnOffCutIsCaused};
ghost use Rattle.run_course.specs.Travelled.{NothingIsTravelled, FoundIsTravelled, AFailureIsTravelled};
ghost use Rattle.run_course.specs.Travelled.{ASecondIsTravelled, ABrokenSecondIsTravelled, ADarkMinuteIsTravelled};
ghost use Rattle.run_course.specs.Travelled.{AnOffLineIsTravelled, AnOffCutIsTravelled, ShownLegsAreThose};
ghost use Rattle.run_course.specs.Quiet.{QuietSecondsAreTold, RulesSeeQuietSeconds, QuietSecondsGoOn};
ghost use Rattle.run_course.specs.Quiet.{QuietSecondsStayTravelled, QuietSecondsStayCaused, QuietSecondsStayComplete};
ghost use Rattle.run_course.specs.Quiet.{QuietSecondsTell};
ghost use Rattle.run_course.specs.Dark.{LostSecondsAreTold, OffSecondsAreTold, ADarkMinuteIsCaused};
ghost use Rattle.run_course.specs.Dark.{ADarkMinuteStaysComplete, OffSecondsStayComplete, DarkSecondsTell};
ghost use Rattle.run_course.specs.Presence.{SlotsAgree, SlotsTellWhoIsPresent, NobodySits, ACardIsPutIn};
ghost use Rattle.run_course.specs.Presence.{ACardIsTakenOut, PowerIsLost, ASecondHasGone, TheLastSecondIsCut};
ghost use Rattle.run_course.specs.Presence.{TheMinuteGoesOn, AMinuteEnds, TimePasses, MinutesAreKept};
ghost use Rattle.run_course.specs.Presence.{WhatWasKeptIsFound};

/// A run begins with nothing kept.
pub fn a_run_begins()
    ensures { ARunBegins }
{}

/// Power is back: the last-kept minute is found, and it counts for all cuts of which nothing was known.
pub fn a_power_on_finds()
    ensures { APowerOnFinds }
{}

/// A power-on fails in the second with which power came.
pub fn a_power_on_fails()
    ensures { APowerOnFails }
{}

/// One second more with power, of which all decided minutes are kept.
pub fn a_second_goes_on()
    ensures { ASecondGoesOn }
{}

/// One second more that is a cut's: some of the minutes that it decides are kept, one more may be, or none was begun.
pub fn a_second_breaks_off()
    ensures { ASecondBreaksOff }
{}

/// The minutes that a second decides: from the first undecided one on, and over as it begins.
pub fn decided_minutes_are_new()
    ensures { DecidedMinutesAreNew }
{}

/// What the rules of minutes see of a second with power.
pub fn rules_see_the_second()
    ensures { RulesSeeTheSecond }
{}

/// After a failed call the seconds up to the minute's end are dark.
pub fn a_minute_stays_dark()
    ensures { AMinuteStaysDark }
{}

/// An `off` line while there is no power.
pub fn an_off_line_is_dark()
    ensures { AnOffLineIsDark }
{}

/// An `off` line while there is power: the last second turns out to be a cut's.
pub fn an_off_line_cuts()
    ensures { AnOffLineCuts }
{}

/// What a log tells of a second with one break more.
pub fn a_break_more_is_seen()
    ensures { ABreakMoreIsSeen }
{}

/// What it tells with one find more.
pub fn a_find_more_is_seen()
    ensures { AFindMoreIsSeen }
{}

/// Refusals tell nothing of how a second went.
pub fn a_refusal_more_is_not_seen()
    ensures { ARefusalMoreIsNotSeen }
{}

/// Lines that come later change no earlier moment of their second.
pub fn later_lines_change_no_moment()
    ensures { LaterLinesChangeNoMoment }
{}

/// An action more of a second is one step more, whatever the log tells of it.
pub fn an_action_more_is_acted()
    ensures { AnActionMoreIsActed }
{}

/// An action of which the log tells nothing yet is carried out or refused, and that is all.
pub fn one_action_more()
    ensures { OneActionMore }
{}

/// The slots refuse what the course of the second refuses.
pub fn slots_that_tell_agree()
    ensures { SlotsAgree }
{}

/// Who was present in an ended minute is told as the history says.
pub fn slots_tell_who_is_present()
    ensures { SlotsTellWhoIsPresent }
{}

/// At the start both slots are empty.
pub fn nobody_sits_at_the_start()
    ensures { NobodySits }
{}

/// A card is put into a free slot, or accepted where it sits.
pub fn a_card_is_put_in()
    ensures { ACardIsPutIn }
{}

/// A card is withdrawn, pulled or torn out.
pub fn a_card_is_taken_out()
    ensures { ACardIsTakenOut }
{}

/// At a cut both cards lose power.
pub fn power_is_lost()
    ensures { PowerIsLost }
{}

/// A second has gone.
pub fn a_second_has_gone()
    ensures { ASecondHasGone }
{}

/// The last second turns out to be a cut's.
pub fn the_last_second_is_cut()
    ensures { TheLastSecondIsCut }
{}

/// The next second of the same minute begins.
pub fn the_minute_goes_on()
    ensures { TheMinuteGoesOn }
{}

/// A minute ends: who is present in it is remembered.
pub fn a_minute_ends()
    ensures { AMinuteEnds }
{}

/// Time passes of which no minute is to be kept.
pub fn time_passes()
    ensures { TimePasses }
{}

/// Minutes are kept, or need not be kept any more.
pub fn minutes_are_kept()
    ensures { MinutesAreKept }
{}

/// At a power-on it is found what was kept, before a card is accepted.
pub fn what_was_kept_is_found()
    ensures { WhatWasKeptIsFound }
{}

/// A second begins with its power-on, if it is one.
pub fn a_second_begins()
    ensures { ASecondBegins }
{}

/// It goes on with an action.
pub fn an_action_is_a_moment()
    ensures { AnActionIsAMoment }
{}

/// It ends with its keeping.
pub fn a_second_ends()
    ensures { ASecondEnds }
{}

/// A cut ends it behind one of its actions.
pub fn a_cut_ends_the_second()
    ensures { ACutEndsTheSecond }
{}

/// A tear is told at a moment.
pub fn a_tear_is_told()
    ensures { ATearIsTold }
{}

/// What was found of a card is told at the moment at which it entered.
pub fn a_find_is_told()
    ensures { AFindIsTold }
{}

/// What the slots tell behind a tear.
pub fn slots_tell_a_tear()
    ensures { SlotsTellATear }
{}

/// What they tell behind an acceptance.
pub fn slots_tell_an_acceptance()
    ensures { SlotsTellAnAcceptance }
{}

/// Nothing is to be acknowledged before the first second.
pub fn nothing_is_decided_yet()
    ensures { NothingIsDecidedYet }
{}

/// One second more with power, whose minutes are acknowledged but where a break came in between.
pub fn a_second_is_acknowledged()
    ensures { ASecondIsAcknowledged }
{}

/// A second without power, or with which power begins, asks no more to be acknowledged.
pub fn power_alone_decides_nothing()
    ensures { PowerAloneDecidesNothing }
{}

/// More marks take nothing away.
pub fn more_marks_stay()
    ensures { MoreMarksStay }
{}

/// At a power-on that finds what was kept, nothing more is to be acknowledged.
pub fn found_stays_complete()
    ensures { FoundStaysComplete }
{}

/// Nor at one that fails.
pub fn a_failure_stays_complete()
    ensures { AFailureStaysComplete }
{}

/// Refusals are nothing to it.
pub fn refusals_stay_complete()
    ensures { RefusalsStayComplete }
{}

/// Nor where the last second turns out to be a cut's.
pub fn a_cut_stays_complete()
    ensures { ACutStaysComplete }
{}

/// A run begins with an empty log.
pub fn a_run_is_caused()
    ensures { ARunIsCaused }
{}

/// One second more whose new lines tell exactly what happened in it.
pub fn a_second_is_caused()
    ensures { ASecondIsCaused }
{}

/// At a power-on that finds what was kept, each line has its cause still.
pub fn found_stays_caused()
    ensures { FoundStaysCaused }
{}

/// An `off` line while there is no power asks no line.
pub fn an_off_line_is_caused()
    ensures { AnOffLineIsCaused }
{}

/// An `off` line while there is power is a cut of the last second.
pub fn an_off_cut_is_caused()
    ensures { AnOffCutIsCaused }
{}

/// Nothing is travelled at the start.
pub fn nothing_is_travelled()
    ensures { NothingIsTravelled }
{}

/// At a power-on what was travelled before has its leg.
pub fn found_is_travelled()
    ensures { FoundIsTravelled }
{}

/// A power-on that fails leaves what was travelled.
pub fn a_failure_is_travelled()
    ensures { AFailureIsTravelled }
{}

/// One second more with power, all whose minutes are kept.
pub fn a_second_is_travelled()
    ensures { ASecondIsTravelled }
{}

/// One second more that is a cut's.
pub fn a_broken_second_is_travelled()
    ensures { ABrokenSecondIsTravelled }
{}

/// Seconds after a failed call leave what was travelled.
pub fn a_dark_minute_is_travelled()
    ensures { ADarkMinuteIsTravelled }
{}

/// So does an `off` line,
pub fn an_off_line_is_travelled()
    ensures { AnOffLineIsTravelled }
{}

/// also where it takes the power.
pub fn an_off_cut_is_travelled()
    ensures { AnOffCutIsTravelled }
{}

/// Whatever the unit may show, the legs that come of it are those of the spans.
pub fn shown_legs_are_those()
    ensures { ShownLegsAreThose }
{}

/// Seconds with power of which the log tells nothing go as such.
pub fn quiet_seconds_are_told()
    ensures { QuietSecondsAreTold }
{}

/// For the rules of minutes they are so many seconds at their speed.
pub fn rules_see_quiet_seconds()
    ensures { RulesSeeQuietSeconds }
{}

/// Within a minute they decide nothing, and the run is followed behind them.
pub fn quiet_seconds_go_on()
    ensures { QuietSecondsGoOn }
{}

/// What was travelled so far is so behind them,
pub fn quiet_seconds_stay_travelled()
    ensures { QuietSecondsStayTravelled }
{}

/// each line has its cause,
pub fn quiet_seconds_stay_caused()
    ensures { QuietSecondsStayCaused }
{}

/// what is decided is acknowledged,
pub fn quiet_seconds_stay_complete()
    ensures { QuietSecondsStayComplete }
{}

/// and who is present is told.
pub fn quiet_seconds_tell()
    ensures { QuietSecondsTell }
{}

/// Seconds after a failed call go without power.
pub fn lost_seconds_are_told()
    ensures { LostSecondsAreTold }
{}

/// So do those that the trace gives none.
pub fn off_seconds_are_told()
    ensures { OffSecondsAreTold }
{}

/// What is refused in them is so for lack of power, and each line has its cause;
pub fn a_dark_minute_is_caused()
    ensures { ADarkMinuteIsCaused }
{}

/// what is decided is acknowledged as before,
pub fn a_dark_minute_stays_complete()
    ensures { ADarkMinuteStaysComplete }
{}

/// also behind an `off` line,
pub fn off_seconds_stay_complete()
    ensures { OffSecondsStayComplete }
{}

/// and who is present is told.
pub fn dark_seconds_tell()
    ensures { DarkSecondsTell }
{}
