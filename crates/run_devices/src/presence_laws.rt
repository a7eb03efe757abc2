//! How the cards stand that were present in minutes that have ended: laws.
ghost use Rattle.run_devices.specs.Presence.{NoneIsToBeKept, AMinuteEndsSo, AStepLeavesSo, TheNextBeginsSo};
ghost use Rattle.run_devices.specs.Presence.{WhatAMinuteSays};

/// No minute that has ended is to be kept, as behind a settling and at a power-on.
pub fn none_is_to_be_kept()
    ensures { NoneIsToBeKept }
{}

/// A minute ends, and who is present in it stands so.
pub fn a_minute_ends_so()
    ensures { AMinuteEndsSo }
{}

/// Minutes are kept, cards are torn out, or taken out.
pub fn a_step_leaves_so()
    ensures { AStepLeavesSo }
{}

/// The next second begins.
pub fn the_next_begins_so()
    ensures { TheNextBeginsSo }
{}

/// What a minute says on a card: nothing, or that stands so.
pub fn what_a_minute_says()
    ensures { WhatAMinuteSays }
{}
