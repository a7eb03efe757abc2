//! What the unit notes of a card that enters.
ghost use Rattle.std.specs.Prelude.{◌≢◌};
ghost use Rattle.unit_notes.specs.event_model.declared.kinds.TheConstants.{CARD_NOT_VALID, TIME_OVERLAP};
ghost use Rattle.unit_notes.specs.event_model.declared.kinds.TheConstants.{INSERTION_WHILE_DRIVING};
ghost use Rattle.unit_notes.specs.event_model.declared.kinds.TheConstants.{SESSION_NOT_CLOSED};
ghost use Rattle.unit_notes.specs.Entries.{fault_bytes};
ghost use Rattle.run_events.specs.Entries.{entry_of};
ghost use Rattle.run_crew.specs.Cabin.{crew_of};
ghost use Rattle.run_minutes.specs.Keeping.{UnitMayBeCalled};
ghost use Rattle.run_insertion.specs.Calls.{NotesEvent, StandsNoted};

use run_crew::Crew;
use run_events::{card_driving, card_not_valid, card_overlap, card_unclosed};
use run_minutes::Keeper;
use tach_media::{Failed, Medium};
use unit_notes::{UnitEvent, UnitNotes};

// A card that is not valid was inserted.
pub(crate) fn note_not_valid<M: Medium>(
    keeper: &Keeper,
    second: u32,
    unit: &mut M,
) -> Result<(), Failed>
    requires ready { UnitMayBeCalled keeper.now (M.state unit.old) }
    requires begin { second ≢ 0 }
    ensures note { NotesEvent CARD_NOT_VALID
        (fault_bytes (entry_of CARD_NOT_VALID second second (crew_of keeper.now.cabin) (crew_of keeper.now.cabin)))
        result (M.state unit.old) (M.state unit.new) }
    ensures stands { StandsNoted result keeper.now (M.state unit.old) (M.state unit.new) }
{
    let crew = keeper.cabin.crew();
    keeper
        .memory
        .note_event(unit, &card_not_valid(second, crew))
}

// A card tells of a later time.
pub(crate) fn note_overlap<M: Medium>(
    keeper: &Keeper,
    second: u32,
    stored: u32,
    unit: &mut M,
) -> Result<(), Failed>
    requires ready { UnitMayBeCalled keeper.now (M.state unit.old) }
    requires begin { second ≢ 0 }
    ensures note { NotesEvent TIME_OVERLAP
        (fault_bytes (entry_of TIME_OVERLAP second stored (crew_of keeper.now.cabin) (crew_of keeper.now.cabin)))
        result (M.state unit.old) (M.state unit.new) }
    ensures stands { StandsNoted result keeper.now (M.state unit.old) (M.state unit.new) }
{
    let crew = keeper.cabin.crew();
    keeper
        .memory
        .note_event(unit, &card_overlap(second, stored, crew))
}

// A card was accepted while the vehicle moved.
pub(crate) fn note_driving<M: Medium>(
    keeper: &Keeper,
    second: u32,
    unit: &mut M,
) -> Result<(), Failed>
    requires ready { UnitMayBeCalled keeper.now (M.state unit.old) }
    requires begin { second ≢ 0 }
    ensures note { NotesEvent INSERTION_WHILE_DRIVING
        (fault_bytes (entry_of INSERTION_WHILE_DRIVING second second (crew_of keeper.now.cabin)
        (crew_of keeper.now.cabin))) result (M.state unit.old) (M.state unit.new) }
    ensures stands { StandsNoted result keeper.now (M.state unit.old) (M.state unit.new) }
{
    let crew = keeper.cabin.crew();
    keeper.memory.note_event(unit, &card_driving(second, crew))
}

// The session of a card that is accepted was left open since another.
pub(crate) fn note_unclosed<M: Medium>(
    keeper: &Keeper,
    crew: Crew,
    second: u32,
    session: u32,
    unit: &mut M,
) -> Result<(), Failed>
    requires ready { UnitMayBeCalled keeper.now (M.state unit.old) }
    requires begin { session ≢ 0 }
    ensures note { NotesEvent SESSION_NOT_CLOSED
        (fault_bytes (entry_of SESSION_NOT_CLOSED session second crew crew))
        result (M.state unit.old) (M.state unit.new) }
    ensures stands { StandsNoted result keeper.now (M.state unit.old) (M.state unit.new) }
{
    keeper
        .memory
        .note_event(unit, &card_unclosed(session, second, crew))
}
