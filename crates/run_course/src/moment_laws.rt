//! What lines of a log make of the moments of a second: laws.
ghost use Rattle.run_course.specs.Lines.{ASecondIsReached, AnActionIsReached, TheKeepingIsReached, LinesOfTheMoment};
ghost use Rattle.run_course.specs.Lines.{WhoSitsIsNotTorn, ATearIsSeen, AFindIsSeen, ARefusalIsSeen};
ghost use Rattle.run_course.specs.Moment.{AMomentBegins, AnActionIsRefused, AnActionIsDone, ACardIsPulled};
ghost use Rattle.run_course.specs.Telling.{BreakdownsOnly, ACardIsTorn, ATornCardWaitsNoMore, ACardIsJudged};
ghost use Rattle.run_course.specs.Telling.{TheKeepingComes, TheSecondEnds, ACutEnds, APowerOnIsCut};
ghost use Rattle.run_course.specs.Kept.{NothingIsDecidedYet, ASelectionIsHeard, ASettlingDecides, NothingElseDecides};
ghost use Rattle.run_course.specs.Kept.{AMinuteIsKept, TheSecondIsFed, TheSecondHasDecided, TheCutHasDecided};
ghost use Rattle.run_course.specs.Kept.{OneMoreIsTravelled, NothingIsMarkedYet, MarksStay, OneMoreIsMarked};
ghost use Rattle.run_course.specs.Kept.{AllAreAcknowledged};

/// A second begins: nothing is told of it yet.
pub fn a_second_is_reached()
    ensures { ASecondIsReached }
{}

/// It goes on with an action.
pub fn an_action_is_reached()
    ensures { AnActionIsReached }
{}

/// It reaches its keeping.
pub fn the_keeping_is_reached()
    ensures { TheKeepingIsReached }
{}

/// Lines of a moment leave it reached.
pub fn lines_of_the_moment()
    ensures { LinesOfTheMoment }
{}

/// Who sits in a slot was not torn out of it at this moment.
pub fn who_sits_is_not_torn()
    ensures { WhoSitsIsNotTorn }
{}

/// What a tear makes of the moment.
pub fn a_tear_is_seen()
    ensures { ATearIsSeen }
{}

/// What a find makes of it.
pub fn a_find_is_seen()
    ensures { AFindIsSeen }
{}

/// A refusal changes nothing of it.
pub fn a_refusal_is_seen()
    ensures { ARefusalIsSeen }
{}

/// The second begins, with nothing told of it.
pub fn a_moment_begins()
    ensures { AMomentBegins }
{}

/// An action is refused.
pub fn an_action_is_refused()
    ensures { AnActionIsRefused }
{}

/// An action is done.
pub fn an_action_is_done()
    ensures { AnActionIsDone }
{}

/// A card is pulled out.
pub fn a_card_is_pulled()
    ensures { ACardIsPulled }
{}

/// Breakdowns of which nothing is told take nothing away.
pub fn breakdowns_take_nothing_away()
    ensures { BreakdownsOnly }
{}

/// A card is torn out, since a call on it failed.
pub fn a_card_is_torn()
    ensures { ACardIsTorn }
{}

/// A card that is torn out is not judged.
pub fn a_torn_card_waits_no_more()
    ensures { ATornCardWaitsNoMore }
{}

/// A card that entered is judged.
pub fn a_card_is_judged()
    ensures { ACardIsJudged }
{}

/// The keeping comes behind all actions.
pub fn the_keeping_comes()
    ensures { TheKeepingComes }
{}

/// The second ends behind its keeping.
pub fn the_second_ends()
    ensures { TheSecondEnds }
{}

/// A cut ends the second at a moment.
pub fn a_cut_ends()
    ensures { ACutEnds }
{}

/// A power-on fails at once.
pub fn a_power_on_is_cut()
    ensures { APowerOnIsCut }
{}

/// Nothing is decided as a second begins.
pub fn nothing_is_decided_as_a_second_begins()
    ensures { NothingIsDecidedYet }
{}

/// A selection is heard.
pub fn a_selection_is_heard()
    ensures { ASelectionIsHeard }
{}

/// A settling decides the minutes before this one.
pub fn a_settling_decides()
    ensures { ASettlingDecides }
{}

/// Whatever else happens decides nothing.
pub fn nothing_else_decides()
    ensures { NothingElseDecides }
{}

/// A minute is kept with its cards.
pub fn a_minute_is_kept()
    ensures { AMinuteIsKept }
{}

/// The second is fed behind all of its actions.
pub fn the_second_is_fed()
    ensures { TheSecondIsFed }
{}

/// The minutes that a second has decided, as it went.
pub fn the_second_has_decided()
    ensures { TheSecondHasDecided }
{}

/// What was travelled up to the minutes that are kept.
pub fn one_more_is_travelled()
    ensures { OneMoreIsTravelled }
{}

/// Of no minute nothing is to be acknowledged.
pub fn nothing_is_marked_yet()
    ensures { NothingIsMarkedYet }
{}

/// Further marks and tears take nothing away.
pub fn marks_stay()
    ensures { MarksStay }
{}

/// One minute more is acknowledged.
pub fn one_more_is_marked()
    ensures { OneMoreIsMarked }
{}

/// At the second's end all is acknowledged that is to be.
pub fn all_are_acknowledged()
    ensures { AllAreAcknowledged }
{}

/// What a cut's second has decided.
pub fn the_cut_has_decided()
    ensures { TheCutHasDecided }
{}
