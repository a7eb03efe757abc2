//! What is sent at each stage of a download, and what comes next.
ghost use Rattle.std.specs.Prelude.{◌≡◌, ◌<◌, ◌≤◌, length, IfSome};
ghost use Rattle.byteorder.specs.Endian.{big_bytes};
ghost use Rattle.link_loader.specs.Stages.{sent_at, request_bytes, acknowledgement, first_day, next_day, behind_lack};
ghost use Rattle.link_loader.specs.Stages.{passed_over, behind_answer, counter_at};

use link_frames::Frame;
use link_model::services::{
    ACKNOWLEDGE, DATA_NOT_AVAILABLE, DAY_NUMBER, DAY_SECONDS, DIAGNOSTIC_SESSION, MESSAGE,
    START_COMMUNICATION, START_DIAGNOSTIC, STOP_COMMUNICATION, TRANSFER_DATA, TRANSFER_EXIT,
    UPLOAD_REQUEST,
};
use link_model::{Request, number_of};

/// Where a download stands: what was sent, to which the answer has not come yet.
#[derive(Clone, Copy, Debug, PartialEq, Eq)]
pub enum Stage {
    /// The start of communication.
    Start,
    /// The start of the diagnostic service.
    Diagnostic,
    /// The request of an upload.
    Upload,
    /// The request of a message.
    Asked(Request),
    /// Of this message a piece was acknowledged; the one of this counter is wanted.
    Acknowledged(Request, u16),
    /// The exit from the transfer.
    Exit,
    /// The stop of communication.
    Stop,
    /// Nothing: all answers have come, or one that ended the download.
    Finished,
}

/// What is sent behind a message, and the end of the period that is downloaded.
#[derive(Clone, Copy, Debug, PartialEq, Eq)]
pub struct Next {
    /// The stage at which the next frame is sent.
    pub stage: Stage,
    /// The end of the period in seconds, as the overview told it; 0 before it has come.
    pub end: u32,
}

/// What is sent at a stage.
pub fn sent_at(stage: Stage) -> Option<Frame>
    ensures { result ≡ sent_at stage }
{
    match stage {
        Stage::Start => Some(Frame::new(&[START_COMMUNICATION])),
        Stage::Diagnostic => Some(Frame::new(&[START_DIAGNOSTIC, DIAGNOSTIC_SESSION])),
        Stage::Upload => Some(Frame::new(&UPLOAD_REQUEST)),
        Stage::Asked(request) => Some(request_frame(request)),
        Stage::Acknowledged(_, counter) => Some(acknowledgement(counter)),
        Stage::Exit => Some(Frame::new(&[TRANSFER_EXIT])),
        Stage::Stop => Some(Frame::new(&[STOP_COMMUNICATION])),
        Stage::Finished => None,
    }
}

/// The request of a message.
fn request_frame(request: Request) -> Frame
    ensures { result ≡ request_bytes request }
{
    match request {
        Request::Day(second) => day_frame(second),
        Request::Overview | Request::Events | Request::Speed | Request::Technical => {
            Frame::new(&[TRANSFER_DATA, number_of(request)])
        }
    }
}

/// The request of the day that begins at this second.
fn day_frame(second: u32) -> Frame
    ensures { result ≡ request_bytes (Request.Day second) }
{
    let [first, next, third, last] = second.to_be_bytes();
    Frame::new(&[TRANSFER_DATA, DAY_NUMBER, first, next, third, last])
}

/// The piece before the one of this counter is acknowledged.
fn acknowledgement(counter: u16) -> Frame
    ensures { result ≡ acknowledgement counter }
{
    let [high, low] = counter.to_be_bytes();
    Frame::new(&[ACKNOWLEDGE, MESSAGE, high, low])
}

/// What is asked for behind an overview that tells this period.
pub fn first_day(begin: u32, end: u32) -> Stage
    ensures stage { result ≡ first_day begin end }
    ensures first { counter_at result ≡ 1 }
{
    if begin == 0 || end < begin {
        return Stage::Asked(Request::Events);
    }
    Stage::Asked(Request::Day(begin))
}

/// What is asked for behind the day that begins at this second, or its refusal.
pub fn next_day(second: u32, end: u32) -> Stage
    ensures stage { result ≡ next_day second end }
    ensures first { counter_at result ≡ 1 }
{
    if second as u64 + DAY_SECONDS as u64 <= end as u64 {
        return Stage::Asked(Request::Day(second + DAY_SECONDS));
    }
    Stage::Asked(Request::Events)
}

/// What is asked for where there is no message of a request, if that is passed over.
fn behind_lack(end: u32, request: Request) -> Option<Stage>
    ensures stage { result ≡ behind_lack end request }
    ensures first { IfSome result (λ stage. counter_at stage ≡ 1) }
{
    match request {
        Request::Day(second) => Some(next_day(second, end)),
        Request::Speed => Some(Stage::Asked(Request::Technical)),
        Request::Overview | Request::Events | Request::Technical => None,
    }
}

/// What is sent behind a negative answer that is passed over.
pub fn passed_over(end: u32, stage: Stage, service: u8, code: u8) -> Option<Stage>
    ensures stage { result ≡ passed_over end stage service code }
    ensures first { IfSome result (λ stage. counter_at stage ≡ 1) }
{
    match stage {
        Stage::Asked(request) => lack_passed_over(end, request, service, code),
        _ => None,
    }
}

/// The same where a message was asked for.
fn lack_passed_over(end: u32, request: Request, service: u8, code: u8) -> Option<Stage>
    ensures stage { result ≡ passed_over end (Stage.Asked request) service code }
    ensures first { IfSome result (λ stage. counter_at stage ≡ 1) }
{
    if service == TRANSFER_DATA && code == DATA_NOT_AVAILABLE {
        return behind_lack(end, request);
    }
    None
}

/// What is sent behind the positive answer to what asks for no message.
pub fn behind_answer(stage: Stage) -> Stage
    ensures stage { result ≡ behind_answer stage }
    ensures first { counter_at result ≡ 1 }
{
    match stage {
        Stage::Start => Stage::Diagnostic,
        Stage::Diagnostic => Stage::Upload,
        Stage::Upload => Stage::Asked(Request::Overview),
        Stage::Exit => Stage::Stop,
        Stage::Stop | Stage::Finished | Stage::Asked(_) | Stage::Acknowledged(_, _) => {
            Stage::Finished
        }
    }
}

/// The counter of the piece that is wanted.
pub fn counter_at(stage: Stage) -> u16
    ensures { result ≡ counter_at stage }
{
    match stage {
        Stage::Acknowledged(_, counter) => counter,
        _ => 1,
    }
}
