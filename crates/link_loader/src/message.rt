//! A message of which all bytes have come: judged by the grammar, and put out.
ghost use Rattle.std.specs.Prelude.{◌≡◌, ◌≤◌, ◌≢◌, ℕ, List, length, true, false, IfOk, IfErr, IfSome, IfNone, IsErrOf};
ghost use Rattle.std.specs.Prelude.{Result};
ghost use Rattle.std.specs.Io.KnownBytes.{Appends};
ghost use Rattle.tach_media.specs.Medium.{Rose};
ghost use Rattle.message_model.specs.Messages.{Message, message_bytes};
ghost use Rattle.unit_messages.specs.Reading.{request_of};
ghost use Rattle.link_loader.specs.Loading.{IsAnswer, AnswersNone, IsNotPut, next_of};
ghost use Rattle.link_loader.specs.Stages.{counter_at};

use crate::fault::LoadFault;
use crate::stage::{Next, Stage, first_day, next_day};
use link_model::Request;
use tach_media::{Sink, put_all};
use unit_messages::{overview, read_message};

/// Puts out a message that was asked for, and tells what is sent behind it.
///
/// # Errors
///
/// `Unexpected` exactly where the bytes are no message that answers the request, and `WriteFault` where the sink
/// failed.
pub fn put_message<K: Sink>(
    sink: &mut K,
    request: Request,
    end: u32,
    bytes: &[u8],
) -> Result<Next, LoadFault>
    ensures put { IfOk result (λ next. (m : Message) × IsAnswer request bytes.now m × (next ≡ next_of end m)
        × Appends (K.held sink.old) (K.held sink.new) (message_bytes m)) }
    ensures first { IfOk result (λ next. counter_at next.stage ≡ 1) }
    ensures not { IfErr result (λ fault. IsNotPut request bytes.now fault (K.held sink.old) (K.held sink.new)) }
    ensures later { K.faults sink.old ≤ K.faults sink.new }
    ensures cause { IsErrOf result LoadFault.WriteFault → Rose (K.faults sink.old) (K.faults sink.new) }
{
    let Some(next) = behind(request, end, bytes) else {
        return Err(LoadFault::Unexpected);
    };
    if put_all(sink, bytes).is_err() {
        return Err(LoadFault::WriteFault);
    }
    Ok(next)
}

/// What is sent behind the message that these bytes are; `None` where they are none that answers the request.
fn behind(request: Request, end: u32, bytes: &[u8]) -> Option<Next>
    ensures some { IfSome result (λ next. (m : Message) × IsAnswer request bytes.now m × (next ≡ next_of end m)) }
    ensures first { IfSome result (λ next. counter_at next.stage ≡ 1) }
    ensures none { IfNone result (AnswersNone request bytes.now) }
{
    if !is_answer(request, bytes) {
        return None;
    }
    Some(behind_answer(request, end, bytes))
}

/// Whether the bytes are a message that answers the request.
fn is_answer(request: Request, bytes: &[u8]) -> bool
    ensures yes { result ≡ true → (m : Message) × IsAnswer request bytes.now m }
    ensures no { result ≡ false → AnswersNone request bytes.now }
{
    match read_message(bytes) {
        Ok(read) => read.request == request && read.len as usize == bytes.len(),
        Err(_) => false,
    }
}

/// What is sent behind a message.
fn behind_answer(request: Request, end: u32, bytes: &[u8]) -> Next
    requires { (m : Message) × IsAnswer request bytes.now m }
    ensures next { (m : Message) × IsAnswer request bytes.now m × (result ≡ next_of end m) }
    ensures first { counter_at result.stage ≡ 1 }
{
    match request {
        Request::Overview => behind_overview(bytes),
        Request::Day(second) => {
            let stage = next_day(second, end);
            Next { stage, end }
        }
        Request::Events => Next {
            stage: Stage::Asked(Request::Speed),
            end,
        },
        Request::Speed => Next {
            stage: Stage::Asked(Request::Technical),
            end,
        },
        Request::Technical => Next {
            stage: Stage::Exit,
            end,
        },
    }
}

/// What is sent behind an overview.
fn behind_overview(bytes: &[u8]) -> Next
    requires { (m : Message) × IsAnswer Request.Overview bytes.now m }
    ensures next { (end : ℕ) → (m : Message) × IsAnswer Request.Overview bytes.now m × (result ≡ next_of end m) }
    ensures first { counter_at result.stage ≡ 1 }
{
    let told = overview(bytes);
    let stage = first_day(told.begin.0, told.end.0);
    Next {
        stage,
        end: told.end.0,
    }
}
