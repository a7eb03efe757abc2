//! The table of answers (Annex IB, Appendix 7; the numbers of the refusals' codes, and which check gives which:
//! profile). Each service has its checks as one list in their order; the first that fails refuses.
ghost use Rattle.std.specs.Prelude.{◌≡◌, ℕ, ◌<◌, ◌≤◌, ◌%◌, ◌==◌, ◌&&◌, if◌then◌else◌, bytes_eq, false, ◌∷◌, []};
ghost use Rattle.std.specs.Prelude.{slice_index, length, List, Option};
ghost use Rattle.link_model.specs.declared.request.Request.{Request as Asked};
ghost use Rattle.link_model.specs.declared.lengths.TheConstants.{FRAME_MOST};
ghost use Rattle.link_model.specs.declared.services.TheConstants.{START_COMMUNICATION, STOP_COMMUNICATION};
ghost use Rattle.link_model.specs.declared.services.TheConstants.{START_DIAGNOSTIC, DIAGNOSTIC_SESSION};
ghost use Rattle.link_model.specs.declared.services.TheConstants.{REQUEST_UPLOAD, UPLOAD_REQUEST, TRANSFER_EXIT};
ghost use Rattle.link_model.specs.declared.services.TheConstants.{COMMUNICATION_STARTED, COMMUNICATION_STOPPED};
ghost use Rattle.link_model.specs.declared.services.TheConstants.{DIAGNOSTIC_STARTED, UPLOAD_ACCEPTED};
ghost use Rattle.link_model.specs.declared.services.TheConstants.{TRANSFER_EXITED, SUB_FUNCTION_NOT_SUPPORTED};
ghost use Rattle.link_model.specs.declared.services.TheConstants.{INCORRECT_LENGTH, SEQUENCE_ERROR};
ghost use Rattle.link_model.specs.declared.services.TheConstants.{UPLOAD_NOT_ACCEPTED, DAY_NUMBER, DAY_SECONDS};
ghost use Rattle.link_model.specs.Answers.{Idle, Started, Diagnostic, Upload, check, checked, is_diagnostic, is_upload};
ghost use Rattle.link_model.specs.Answers.{answered, idle, active, served, transfer, acknowledge};
ghost use Rattle.link_model.specs.Answers.{acknowledge_checks, after_piece, day_in, request_in, code_in, answers};
ghost use Rattle.link_frames.specs.Seen.{meant};
ghost use Rattle.link_frames.specs.Steps.{state_of, performed, asks, all_hold};
ghost use Rattle.link_frames.specs.Asking.{asks_unit, asks_active, asks_by, asks_message, asks_piece};

use crate::standing::Standing;
use crate::step::{Check, Step, checked, refused};
use crate::{Frame, Seen};
use link_model::Request;
use link_model::services::{
    ACKNOWLEDGE, COMMUNICATION_STARTED, COMMUNICATION_STOPPED, DAY_NUMBER, DAY_SECONDS,
    DIAGNOSTIC_SESSION, DIAGNOSTIC_STARTED, END_OF_TRANSFER, EVENTS_NUMBER, GENERAL_REJECT,
    INCORRECT_LENGTH, MESSAGE, OUT_OF_RANGE, OVERVIEW_NUMBER, REQUEST_UPLOAD, SEQUENCE_ERROR,
    SERVICE_NOT_SUPPORTED, SPEED_NUMBER, START_COMMUNICATION, START_DIAGNOSTIC, STOP_COMMUNICATION,
    SUB_FUNCTION_NOT_SUPPORTED, TECHNICAL_NUMBER, TRANSFER_DATA, TRANSFER_EXIT, TRANSFER_EXITED,
    UPLOAD_ACCEPTED, UPLOAD_NOT_ACCEPTED, UPLOAD_REQUEST,
};

/// What a session does that stands so, about what it hears.
pub fn step_of(standing: Standing, seen: &Seen) -> Step
    ensures performs { (messages : Asked → Option (List ℕ))
        → performed messages result ≡ answered messages (state_of standing) (meant seen.now) }
    ensures asks { asks result ≡ asks_unit (state_of standing) (meant seen.now) }
{
    match standing {
        Standing::Idle => idle(seen),
        Standing::Started | Standing::Diagnostic | Standing::Upload | Standing::Sending(_, _) =>
            active(standing, seen),
    }
}

/// Before communication has started its start alone is answered.
fn idle(seen: &Seen) -> Step
    ensures performs { (messages : Asked → Option (List ℕ)) → performed messages result ≡ idle (meant seen.now) }
    ensures asks { asks result ≡ false }
{
    match seen {
        Seen::Whole(frame) if frame.bytes() == &[START_COMMUNICATION][..] => started(),
        _ => Step::Silence(Standing::Idle),
    }
}

/// The positive answer to the start of communication.
fn started() -> Step
    ensures performs { (messages : Asked → Option (List ℕ))
        → performed messages result ≡ answers COMMUNICATION_STARTED Started }
    ensures asks { asks result ≡ false }
{
    Step::Answer(Frame::new(&COMMUNICATION_STARTED), Standing::Started)
}

/// Elsewhere a wrong sum is refused.
fn active(standing: Standing, seen: &Seen) -> Step
    ensures performs { (messages : Asked → Option (List ℕ))
        → performed messages result ≡ active messages (state_of standing) (meant seen.now) }
    ensures asks { asks result ≡ asks_active (state_of standing) (meant seen.now) }
{
    match seen {
        Seen::Whole(frame) => served(standing, frame.bytes()),
        Seen::BadSum(byte) => refused(standing, *byte, GENERAL_REJECT),
    }
}

/// The table, by the service.
fn served(standing: Standing, bytes: &[u8]) -> Step
    ensures performs { (messages : Asked → Option (List ℕ))
        → performed messages result ≡ served messages (state_of standing) bytes.now }
    ensures asks { asks result ≡ asks_by (state_of standing) bytes.now }
{
    let service = byte_at(bytes, 0);
    if service == START_COMMUNICATION {
        return start_communication(standing, bytes);
    }
    if service == STOP_COMMUNICATION {
        return stop_communication(standing, bytes);
    }
    if service == START_DIAGNOSTIC {
        return start_diagnostic(standing, bytes);
    }
    if service == REQUEST_UPLOAD {
        return request_upload(standing, bytes);
    }
    if service == TRANSFER_DATA {
        return transfer_data(standing, bytes);
    }
    if service == TRANSFER_EXIT {
        return exit_transfer(standing, bytes);
    }
    if service == ACKNOWLEDGE {
        return acknowledge_piece(standing, bytes);
    }
    refused(standing, service, SERVICE_NOT_SUPPORTED)
}

/// The start of communication.
fn start_communication(standing: Standing, bytes: &[u8]) -> Step
    ensures performs { (messages : Asked → Option (List ℕ)) → performed messages result
        ≡ checked (state_of standing) START_COMMUNICATION (check (length bytes.now == 1) INCORRECT_LENGTH ∷ [])
        (answers COMMUNICATION_STARTED Started) }
    ensures asks { asks result ≡ false }
{
    let checks = [of(bytes.len() == 1, INCORRECT_LENGTH)];
    checked(standing, START_COMMUNICATION, &checks, started())
}

/// The stop of communication.
fn stop_communication(standing: Standing, bytes: &[u8]) -> Step
    ensures performs { (messages : Asked → Option (List ℕ)) → performed messages result
        ≡ checked (state_of standing) STOP_COMMUNICATION (check (length bytes.now == 1) INCORRECT_LENGTH ∷ [])
        (answers COMMUNICATION_STOPPED Idle) }
    ensures asks { asks result ≡ false }
{
    let checks = [of(bytes.len() == 1, INCORRECT_LENGTH)];
    let stopped = answer(&COMMUNICATION_STOPPED, Standing::Idle);
    checked(standing, STOP_COMMUNICATION, &checks, stopped)
}

/// The start of the diagnostic service.
fn start_diagnostic(standing: Standing, bytes: &[u8]) -> Step
    ensures performs { (messages : Asked → Option (List ℕ)) → performed messages result
        ≡ checked (state_of standing) START_DIAGNOSTIC (check (length bytes.now == 2) INCORRECT_LENGTH
        ∷ check (slice_index bytes.now 1 == DIAGNOSTIC_SESSION) SUB_FUNCTION_NOT_SUPPORTED ∷ [])
        (answers DIAGNOSTIC_STARTED Diagnostic) }
    ensures asks { asks result ≡ false }
{
    let session = byte_at(bytes, 1);
    let checks = [
        of(bytes.len() == 2, INCORRECT_LENGTH),
        of(session == DIAGNOSTIC_SESSION, SUB_FUNCTION_NOT_SUPPORTED),
    ];
    checked(
        standing,
        START_DIAGNOSTIC,
        &checks,
        answer(&DIAGNOSTIC_STARTED, Standing::Diagnostic),
    )
}

/// A request of an upload, of all data.
fn request_upload(standing: Standing, bytes: &[u8]) -> Step
    ensures performs { (messages : Asked → Option (List ℕ)) → performed messages result
        ≡ checked (state_of standing) REQUEST_UPLOAD (check (length bytes.now == 10) INCORRECT_LENGTH
        ∷ check (is_diagnostic (state_of standing)) SEQUENCE_ERROR
        ∷ check (bytes_eq bytes.now UPLOAD_REQUEST) UPLOAD_NOT_ACCEPTED ∷ []) (answers UPLOAD_ACCEPTED Upload) }
    ensures asks { asks result ≡ false }
{
    let checks = [
        of(bytes.len() == 10, INCORRECT_LENGTH),
        of(standing.is_diagnostic(), SEQUENCE_ERROR),
        of(bytes == &UPLOAD_REQUEST[..], UPLOAD_NOT_ACCEPTED),
    ];
    checked(
        standing,
        REQUEST_UPLOAD,
        &checks,
        answer(&UPLOAD_ACCEPTED, Standing::Upload),
    )
}

/// The exit from the transfer.
fn exit_transfer(standing: Standing, bytes: &[u8]) -> Step
    ensures performs { (messages : Asked → Option (List ℕ)) → performed messages result
        ≡ checked (state_of standing) TRANSFER_EXIT (check (length bytes.now == 1) INCORRECT_LENGTH
        ∷ check (is_upload (state_of standing)) SEQUENCE_ERROR ∷ []) (answers TRANSFER_EXITED Diagnostic) }
    ensures asks { asks result ≡ false }
{
    let checks = [
        of(bytes.len() == 1, INCORRECT_LENGTH),
        of(standing.is_upload(), SEQUENCE_ERROR),
    ];
    checked(
        standing,
        TRANSFER_EXIT,
        &checks,
        answer(&TRANSFER_EXITED, Standing::Diagnostic),
    )
}

/// A request of a message.
fn transfer_data(standing: Standing, bytes: &[u8]) -> Step
    ensures performs { (messages : Asked → Option (List ℕ))
        → performed messages result ≡ transfer messages (state_of standing) bytes.now }
    ensures asks { asks result ≡ asks_message (state_of standing) bytes.now }
{
    let number = byte_at(bytes, 1);
    let known = OVERVIEW_NUMBER <= number && number <= TECHNICAL_NUMBER;
    let size = size_of(number);
    let past = past_midnight(number, bytes);
    let checks = [
        of(2 <= bytes.len(), INCORRECT_LENGTH),
        of(known, SUB_FUNCTION_NOT_SUPPORTED),
        of(bytes.len() == size, INCORRECT_LENGTH),
        of(standing.is_upload(), SEQUENCE_ERROR),
        of(past == 0, OUT_OF_RANGE),
    ];
    checked(
        standing,
        TRANSFER_DATA,
        &checks,
        Step::Begin(request_in(bytes), standing),
    )
}

/// How many bytes the request of a number has.
fn size_of(number: u8) -> usize
    ensures { result ≡ (if number == DAY_NUMBER then 6 else 2) }
{
    if number == DAY_NUMBER { 6 } else { 2 }
}

/// How far into its day the second of a request of a day lies.
fn past_midnight(number: u8, bytes: &[u8]) -> u32
    ensures { result ≡ (if number == DAY_NUMBER then day_in bytes.now % DAY_SECONDS else 0) }
{
    if number == DAY_NUMBER {
        day_in(bytes) % DAY_SECONDS
    } else {
        0
    }
}

/// The request that these bytes make, behind its checks.
fn request_in(bytes: &[u8]) -> Request
    ensures { result ≡ request_in bytes.now }
{
    let number = byte_at(bytes, 1);
    if number == OVERVIEW_NUMBER {
        return Request::Overview;
    }
    if number == DAY_NUMBER {
        return Request::Day(day_in(bytes));
    }
    if number == EVENTS_NUMBER {
        return Request::Events;
    }
    if number == SPEED_NUMBER {
        return Request::Speed;
    }
    Request::Technical
}

/// The four bytes of a day, the highest first; a byte that has not come is 0.
fn day_in(bytes: &[u8]) -> u32
    ensures { result ≡ day_in bytes.now }
{
    let first = byte_at(bytes, 2);
    let second = byte_at(bytes, 3);
    let third = byte_at(bytes, 4);
    let fourth = byte_at(bytes, 5);
    u32::from_be_bytes([first, second, third, fourth])
}

/// An acknowledged piece.
fn acknowledge_piece(standing: Standing, bytes: &[u8]) -> Step
    ensures performs { (messages : Asked → Option (List ℕ))
        → performed messages result ≡ acknowledge messages (state_of standing) bytes.now }
    ensures asks { asks result ≡ (asks_piece (state_of standing) (code_in bytes.now)
        && all_hold (acknowledge_checks (state_of standing) bytes.now)) }
{
    let checks = [
        of(bytes.len() == 4, INCORRECT_LENGTH),
        of(byte_at(bytes, 1) == MESSAGE, SUB_FUNCTION_NOT_SUPPORTED),
        of(standing.is_sending(), SEQUENCE_ERROR),
    ];
    checked(
        standing,
        ACKNOWLEDGE,
        &checks,
        after_piece(standing, code_in(bytes)),
    )
}

/// The two bytes of the acknowledged counter, the higher first; a byte that has not come is 0.
fn code_in(bytes: &[u8]) -> u16
    ensures { result ≡ code_in bytes.now }
{
    let high = byte_at(bytes, 2);
    let low = byte_at(bytes, 3);
    u16::from_be_bytes([high, low])
}

/// Behind a piece: the end of the transfer, the next piece, or the same one again.
fn after_piece(standing: Standing, code: u16) -> Step
    ensures performs { (messages : Asked → Option (List ℕ))
        → performed messages result ≡ after_piece messages (state_of standing) code }
    ensures asks { asks result ≡ asks_piece (state_of standing) code }
{
    let Standing::Sending(request, counter) = standing else {
        return Step::Silence(standing);
    };
    if code == END_OF_TRANSFER {
        return Step::Silence(Standing::Upload);
    }
    let follows = code as u32 == counter as u32 + 1 || code == counter;
    checked(
        standing,
        ACKNOWLEDGE,
        &[of(follows, OUT_OF_RANGE)],
        Step::Piece(request, counter, code),
    )
}

/// This is answered.
fn answer(bytes: &[u8], standing: Standing) -> Step
    requires some { 0 < length bytes.now }
    requires few { length bytes.now ≤ FRAME_MOST }
    ensures performs { (messages : Asked → Option (List ℕ))
        → performed messages result ≡ answers bytes.now (state_of standing) }
    ensures asks { asks result ≡ false }
{
    Step::Answer(Frame::new(bytes), standing)
}

/// A check, and the code of its refusal.
fn of(holds: bool, code: u8) -> Check
    ensures { result ≡ record { holds = holds; code = code } }
{
    Check { holds, code }
}

/// The byte at an index, 0 where there is none.
fn byte_at(bytes: &[u8], index: usize) -> u8
    ensures { result ≡ slice_index bytes.now index }
{
    match bytes.get(index) {
        Some(byte) => *byte,
        None => 0,
    }
}
