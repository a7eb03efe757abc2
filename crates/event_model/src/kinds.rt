//! The types of events and faults (Appendix 1, EventFaultType) and why they are recorded (EventFaultRecordPurpose).

/// Insertion of a non valid card.
pub const CARD_NOT_VALID: u8 = 0x01;
/// Time overlap: a card tells of a later time than the unit.
pub const TIME_OVERLAP: u8 = 0x03;
/// Driving without an appropriate card.
pub const DRIVING_WITHOUT_CARD: u8 = 0x04;
/// Card insertion while driving.
pub const INSERTION_WHILE_DRIVING: u8 = 0x05;
/// Last card session not correctly closed.
pub const SESSION_NOT_CLOSED: u8 = 0x06;
/// Over speeding.
pub const OVER_SPEEDING: u8 = 0x07;
/// Power supply interruption.
pub const POWER_INTERRUPTION: u8 = 0x08;
/// Fault of a card, without further details.
pub const CARD_FAULT: u8 = 0x40;

/// So many events of each type are kept.
pub const EVENT_PLACES: usize = 10;
/// So many faults of a card are kept (profile).
pub const FAULT_PLACES: usize = 24;

/// Why events of a type are kept (Appendix 1, EventFaultRecordPurpose). Days are those of their begins.
#[derive(Clone, Copy, Debug, PartialEq, Eq)]
pub enum Purpose {
    /// One of the most recent.
    MostRecent,
    /// The longest of one of the last ten days of occurrence.
    Longest,
    /// The last of one of the last ten days of occurrence.
    Last,
    /// The one of the highest average speed of one of the last ten days of occurrence.
    HighestAverage,
}
