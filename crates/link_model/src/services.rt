//! The bytes of the link, each once and by name (Annex IB, Appendix 7): how a frame begins, the services, what a unit
//! answers to them, and the codes of its refusals. The numbers of the codes, and the counter behind an acknowledgement,
//! are this project's profile.

/// The first byte of a frame that tells its length (format byte).
pub const LONG_FORM: u8 = 0x80;
/// The first byte of a frame of one data byte that tells no length (format byte).
pub const SHORT_FORM: u8 = 0x81;
/// The address of a unit, which stands in each frame from it or to it.
pub const UNIT_ADDRESS: u8 = 0xEE;
/// The address of a loader (what downloads a unit).
pub const LOADER_ADDRESS: u8 = 0xF0;

/// The service that starts communication: this byte alone.
pub const START_COMMUNICATION: u8 = 0x81;
/// The service that stops communication: this byte alone.
pub const STOP_COMMUNICATION: u8 = 0x82;
/// The service that starts a diagnostic session, which the next byte names.
pub const START_DIAGNOSTIC: u8 = 0x10;
/// The one diagnostic session that there is, the standard one.
pub const DIAGNOSTIC_SESSION: u8 = 0x81;
/// The service that requests an upload: the first byte of `UPLOAD_REQUEST`.
pub const REQUEST_UPLOAD: u8 = 0x35;
/// The service that requests a message (transfer data): the message's number follows, and of a day its first second.
pub const TRANSFER_DATA: u8 = 0x36;
/// The service that exits from the transfer: this byte alone.
pub const TRANSFER_EXIT: u8 = 0x37;
/// The service that acknowledges a piece (acknowledge sub-message): `MESSAGE` follows, and the counter of the piece
/// that is wanted next, in two bytes.
pub const ACKNOWLEDGE: u8 = 0x83;

/// The one upload that may be requested: all data, with no compression.
pub const UPLOAD_REQUEST: [u8; 10] = [
    REQUEST_UPLOAD,
    0x00,
    0x00,
    0x00,
    0x00,
    0x00,
    0xFF,
    0xFF,
    0xFF,
    0xFF,
];

/// The positive answer to the start of communication, with the key bytes EA and 8F.
pub const COMMUNICATION_STARTED: [u8; 3] = [0xC1, 0xEA, 0x8F];
/// The positive answer to the stop of communication.
pub const COMMUNICATION_STOPPED: [u8; 1] = [0xC2];
/// The positive answer to the start of a diagnostic session.
pub const DIAGNOSTIC_STARTED: [u8; 2] = [0x50, DIAGNOSTIC_SESSION];
/// The positive answer to the request of an upload: frames of up to FF bytes of data.
pub const UPLOAD_ACCEPTED: [u8; 3] = [0x75, 0x00, 0xFF];
/// The first byte of a message, and of each piece of one (positive answer to transfer data): the number follows.
pub const MESSAGE: u8 = 0x76;
/// The positive answer to the exit from the transfer.
pub const TRANSFER_EXITED: [u8; 1] = [0x77];

/// The first byte of a refusal (negative answer): the service that is refused and one of the codes below follow.
pub const REFUSAL: u8 = 0x7F;
/// The code of a frame whose sum is wrong.
pub const GENERAL_REJECT: u8 = 0x10;
/// The code of a service that the unit has not.
pub const SERVICE_NOT_SUPPORTED: u8 = 0x11;
/// The code of a sub-function that the service has not: another session, another number of a message, or an
/// acknowledgement of what is no piece.
pub const SUB_FUNCTION_NOT_SUPPORTED: u8 = 0x12;
/// The code of a request that has another length than its service.
pub const INCORRECT_LENGTH: u8 = 0x13;
/// The code of a request that comes out of its order.
pub const SEQUENCE_ERROR: u8 = 0x22;
/// The code of a day that is no day's first second, and of a counter that is not wanted.
pub const OUT_OF_RANGE: u8 = 0x31;
/// The code of a request of another upload than `UPLOAD_REQUEST`.
pub const UPLOAD_NOT_ACCEPTED: u8 = 0x50;
/// The code of a message that the unit has not.
pub const DATA_NOT_AVAILABLE: u8 = 0xFA;

/// The number of an overview, in the request of the message and in the message (2.2.6).
pub const OVERVIEW_NUMBER: u8 = 1;
/// The number of the activities of a day.
pub const DAY_NUMBER: u8 = 2;
/// The number of events and faults.
pub const EVENTS_NUMBER: u8 = 3;
/// The number of detailed speed.
pub const SPEED_NUMBER: u8 = 4;
/// The number of technical data, the highest one.
pub const TECHNICAL_NUMBER: u8 = 5;

/// The counter that ends a transfer in pieces, where it stands in an acknowledgement (profile).
pub const END_OF_TRANSFER: u16 = 0xFFFF;

/// The seconds of a day: a day is requested by its first second, which is a multiple of these.
pub const DAY_SECONDS: u32 = 86_400;
