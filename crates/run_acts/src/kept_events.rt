//! What a keeping notes, and whom it names. Laws.
ghost use Rattle.run_minutes.specs.declared.keeper.Keeper.{Keeper};
ghost use Rattle.run_minutes.specs.declared.keeper.Moment.{Moment};
ghost use Rattle.run_minutes.specs.Minutes.{Reach, KeepingState};
ghost use Rattle.run_minutes.specs.Faults.{faults_to};
ghost use Rattle.run_acts.specs.KeptEvents.{AreFaults};
ghost use Rattle.run_acts.specs.EventCrews.{CardsAreNamed, CardsAreNamedBehind, CrewIsNamed, SessionsAreKnown};
ghost use Rattle.run_acts.specs.EventCrews.{FaultsAreTold};

/// As far as a keeping came, what it notes are faults of cards.
pub fn keepings_note_faults()
    ensures { (k : Keeper) (at : Moment) (reach : Reach) (t : KeepingState) → AreFaults (faults_to k at reach t) }
{}

/// The numbers that the slots give are those of the accepted cards that the run has in them.
pub fn the_cards_of_a_moment_are_named()
    ensures { CardsAreNamed }
{}

/// And the crew are these cards.
pub fn the_crew_of_a_moment_is_named()
    ensures { CrewIsNamed }
{}

/// So the numbers are behind a tear.
pub fn the_cards_behind_a_tear_are_named()
    ensures { CardsAreNamedBehind }
{}

/// Each card that has a session is known by its number.
pub fn who_has_a_session_is_known()
    ensures { SessionsAreKnown }
{}

/// What is noted as the card of an entry is torn out tells its fault, with the cards that are left.
pub fn faults_of_entries_are_told()
    ensures { FaultsAreTold }
{}
