//! The entries of events and faults, with the cards that were accepted.
ghost use Rattle.std.specs.Prelude.{◌≡◌};
ghost use Rattle.event_model.specs.declared.kinds.TheConstants.{CARD_FAULT, CARD_NOT_VALID, DRIVING_WITHOUT_CARD};
ghost use Rattle.event_model.specs.declared.kinds.TheConstants.{INSERTION_WHILE_DRIVING, POWER_INTERRUPTION};
ghost use Rattle.event_model.specs.declared.kinds.TheConstants.{SESSION_NOT_CLOSED, TIME_OVERLAP};
ghost use Rattle.run_events.specs.Entries.{number_or_no_card, entry_of, card_entry};

use card_files::CardEvent;
use event_model::{
    CARD_FAULT, CARD_NOT_VALID, DRIVING_WITHOUT_CARD, INSERTION_WHILE_DRIVING, POWER_INTERRUPTION,
    SESSION_NOT_CLOSED, Span, TIME_OVERLAP,
};
use run_crew::Crew;
use tacho_types::{FullCardNumber, Nation, Registration, TimeReal};
use unit_notes::UnitEvent;

// Why events are recorded, as EventFaultRecordPurpose numbers it (Appendix 1): one of the most recent,
const MOST_RECENT: u8 = 0;

// the longest of one of the last ten days of occurrence,
const LONGEST: u8 = 1;

// or the last of one of these.
const LAST_OF_DAY: u8 = 3;

/// A card number as a unit stores it: zeros without one.
pub fn number_or_zeros(number: Option<FullCardNumber>) -> FullCardNumber
    ensures { result ≡ number_or_no_card number }
{
    match number {
        Some(number) => number,
        None => FullCardNumber {
            kind: 0,
            state: Nation(0),
            number: [0; 16],
        },
    }
}

// An event from one second to another, with the cards at its begin and at its end.
fn event(kind: u8, purpose: u8, span: Span, begin: Crew, end: Crew) -> UnitEvent
    ensures { result ≡ record (entry_of kind span.begin span.end begin end) { purpose = purpose } }
{
    UnitEvent {
        kind,
        purpose,
        begin: TimeReal(span.begin),
        end: TimeReal(span.end),
        driver_begin: number_or_zeros(begin.driver),
        codriver_begin: number_or_zeros(begin.codriver),
        driver_end: number_or_zeros(end.driver),
        codriver_end: number_or_zeros(end.codriver),
        similar: 0,
    }
}

/// Driving without a card in the driver slot.
pub fn card_bare(span: Span, begin: Crew, end: Crew) -> UnitEvent
    ensures { result ≡ entry_of DRIVING_WITHOUT_CARD span.begin span.end begin end }
{
    event(DRIVING_WITHOUT_CARD, LONGEST, span, begin, end)
}

/// A card was found not valid in a second, with the cards accepted then.
pub fn card_not_valid(second: u32, crew: Crew) -> UnitEvent
    ensures { result ≡ entry_of CARD_NOT_VALID second second crew crew }
{
    event(CARD_NOT_VALID, MOST_RECENT, at(second), crew, crew)
}

/// A card told in a second of a later time.
pub fn card_overlap(second: u32, stored: u32, crew: Crew) -> UnitEvent
    ensures { result ≡ entry_of TIME_OVERLAP second stored crew crew }
{
    let span = Span {
        begin: second,
        end: stored,
    };
    event(TIME_OVERLAP, MOST_RECENT, span, crew, crew)
}

/// A card was accepted in a second in which the vehicle moved.
pub fn card_driving(second: u32, crew: Crew) -> UnitEvent
    ensures { result ≡ entry_of INSERTION_WHILE_DRIVING second second crew crew }
{
    event(INSERTION_WHILE_DRIVING, LAST_OF_DAY, at(second), crew, crew)
}

/// A card whose session was left open since an earlier second was accepted in this one.
pub fn card_unclosed(session: u32, second: u32, crew: Crew) -> UnitEvent
    ensures { result ≡ entry_of SESSION_NOT_CLOSED session second crew crew }
{
    let span = Span {
        begin: session,
        end: second,
    };
    event(SESSION_NOT_CLOSED, MOST_RECENT, span, crew, crew)
}

/// Power was interrupted over these seconds.
pub fn card_gap(span: Span, crew: Crew) -> UnitEvent
    ensures { result ≡ entry_of POWER_INTERRUPTION span.begin span.end crew crew }
{
    event(POWER_INTERRUPTION, LONGEST, span, crew, crew)
}

/// A call on a card failed in a second.
pub fn card_fault(second: u32, crew: Crew) -> UnitEvent
    ensures { result ≡ entry_of CARD_FAULT second second crew crew }
{
    event(CARD_FAULT, MOST_RECENT, at(second), crew, crew)
}

/// An event of a unit as it stands on a card.
pub fn on_card(event: &UnitEvent, registration: &Registration) -> CardEvent
    ensures { result ≡ card_entry event.now registration.now }
{
    CardEvent {
        kind: event.kind,
        begin: event.begin,
        end: event.end,
        registration: *registration,
    }
}

// A span of one second.
fn at(second: u32) -> Span
    ensures { result ≡ record { begin = second; end = second } }
{
    Span {
        begin: second,
        end: second,
    }
}
