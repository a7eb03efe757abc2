//! What a mark is read from stands where the unit and the card write it.
ghost use Rattle.std.specs.Prelude.{◌≡◌};
ghost use Rattle.card_layout.specs.Fields.{place_in, total_width};
ghost use Rattle.card_files.specs.Events.{event_widths as card_event_widths};
ghost use Rattle.message_model.specs.Records.{place_widths};
ghost use Rattle.note_model.specs.Tables.{event_widths, fault_widths, over_widths};
ghost use Rattle.tacho_types.specs.Places.{place_widths as card_place_widths};
ghost use Rattle.unit_marks.specs.declared.cards.TheConstants.{CARD_COUNTRY, CARD_ENTRY_TIME, CARD_ENTRY_TYPE};
ghost use Rattle.unit_marks.specs.declared.cards.TheConstants.{CARD_EVENT, CARD_EVENT_BEGIN, CARD_PLACE};
ghost use Rattle.unit_marks.specs.declared.entries.TheConstants.{COUNTRY, ENTRY_TIME, ENTRY_TYPE};
ghost use Rattle.unit_marks.specs.declared.marks.TheConstants.{EVENT_BEGIN, EVENT_END};

/// The time, the type and the country of a place of a unit stand where the unit has them.
pub fn a_place_of_a_unit_is_read_as_it_is_written()
    ensures time { ENTRY_TIME ≡ place_in place_widths 1 }
    ensures kind { ENTRY_TYPE ≡ place_in place_widths 2 }
    ensures country { COUNTRY ≡ place_in place_widths 3 }
{}

/// The begin and the end of an event, of a fault and of an over speeding of a unit stand where the unit has them.
pub fn an_event_of_a_unit_is_read_as_it_is_written()
    ensures begin { (EVENT_BEGIN ≡ place_in event_widths 2) × (EVENT_BEGIN ≡ place_in fault_widths 2)
        × (EVENT_BEGIN ≡ place_in over_widths 2) }
    ensures end { EVENT_END ≡ place_in event_widths 3 }
{}

/// The time, the type and the country of a place of a card stand where the card has them, and it has so many bytes.
pub fn a_place_of_a_card_is_read_as_it_is_written()
    ensures time { CARD_ENTRY_TIME ≡ place_in card_place_widths 0 }
    ensures kind { CARD_ENTRY_TYPE ≡ place_in card_place_widths 1 }
    ensures country { CARD_COUNTRY ≡ place_in card_place_widths 2 }
    ensures size { CARD_PLACE ≡ total_width card_place_widths }
{}

/// The begin of an event of a card stands where the card has it, and it has so many bytes.
pub fn an_event_of_a_card_is_read_as_it_is_written()
    ensures begin { CARD_EVENT_BEGIN ≡ place_in card_event_widths 1 }
    ensures size { CARD_EVENT ≡ total_width card_event_widths }
{}
