//! A unit file at the front of bytes, and the registration that it tells.
ghost use Rattle.std.specs.Prelude.{◌≡◌, ◌+◌, ◌<◌, ◌≤◌, ◌++◌, ◌∷◌, ◌^◌, [], List, length, drop, IfOk, IfErr};
ghost use Rattle.message_model.specs.Messages.{Message as FileMessage};
ghost use Rattle.unit_messages.specs.Reading.{BeginsWith, request_of};
ghost use Rattle.file_view.specs.UnitFiles.{HasNoMessage};
ghost use Rattle.file_view.specs.Fronts.{Leads, IsFront, IsBadFront, begins_message, registration_in};
ghost use Rattle.file_view.specs.Fronts.{registration_bytes, first_registration};

use link_model::services::MESSAGE;
use tacho_types::Registration;
use unit_messages::{Request, overview, read_message};

/// A unit file at the front of bytes.
#[derive(Clone, Copy, Debug, PartialEq, Eq)]
pub struct FrontRead {
    /// How many bytes it has.
    pub end: usize,
    /// The registration that its first overview tells.
    pub registration: Option<Registration>,
}

/// Reads messages, one after another, as long as the next byte is 76.
///
/// # Errors
///
/// The place of the first message that is not in its grammar, 0 where the first byte is not 76 or there is none.
pub fn read_front(b: &[u8]) -> Result<FrontRead, u32>
    requires { length b.now < 2 ^ 32 }
    ensures front { IfOk result (IsFront b.now) }
    ensures bad { IfErr result (λ place. IsBadFront place b.now) }
{
    let nothing = FrontRead {
        end: 0,
        registration: None,
    };
    let mut front = message_behind(b, nothing)?;
    while goes_on(b, front.end) {
        front = message_behind(b, front)?;
    }
    Ok(front)
}

/// Whether a byte 76 stands at a place.
fn goes_on(b: &[u8], place: usize) -> bool
    ensures { result ≡ begins_message (drop place b.now) }
{
    place < b.len() && b[place] == MESSAGE
}

/// With the message that stands behind it.
fn message_behind(b: &[u8], front: FrontRead) -> Result<FrontRead, u32>
    requires inside { front.end ≤ length b.now }
    requires short { length b.now < 2 ^ 32 }
    ensures inside { IfOk result (λ more. (front.end < more.end) × (more.end ≤ length b.now)) }
    ensures more { (before : List FileMessage) → Leads b.now before front
        → IfOk result (λ more. (m : FileMessage) × Leads b.now (before ++ m ∷ []) more) }
    ensures bad { IfErr result (λ place. (place ≡ front.end) × HasNoMessage (drop front.end b.now)) }
{
    let rest = &b[front.end..];
    let read = match read_message(rest) {
        Ok(read) => read,
        Err(_) => return Err(front.end as u32),
    };
    Ok(FrontRead {
        end: front.end + read.len as usize,
        registration: registration_behind(front.registration, rest, read.request),
    })
}

/// The registration after the message at the front of bytes, which answers this request.
fn registration_behind(
    known: Option<Registration>,
    rest: &[u8],
    request: Request,
) -> Option<Registration>
    requires { (m : FileMessage) × BeginsWith m rest.now × (request ≡ request_of m) }
    ensures { (m : FileMessage) → BeginsWith m rest.now → request ≡ request_of m
        → registration_bytes result ≡ first_registration (registration_bytes known) (registration_in (m ∷ [])) }
{
    if known.is_some() {
        return known;
    }
    match request {
        Request::Overview => Some(overview(rest).registration),
        _ => None,
    }
}
