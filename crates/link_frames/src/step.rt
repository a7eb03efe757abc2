//! What a session does about a frame, and the checks that decide it.
ghost use Rattle.std.specs.Prelude.{◌≡◌, ℕ, false, ◌&&◌, map, List, Option};
ghost use Rattle.link_model.specs.declared.request.Request.{Request as Asked};
ghost use Rattle.link_model.specs.Answers.{checked, refuses};
ghost use Rattle.link_frames.specs.Steps.{state_of, performed, asks, check_of, all_hold, failing_code};

use crate::Frame;
use crate::standing::Standing;
use link_model::Request;
use link_model::services::REFUSAL;

/// What a session does about a frame.
#[derive(Drop)]
pub enum Step {
    /// It answers so, and stands so.
    Answer(Frame, Standing),
    /// It gives no answer, and stands so.
    Silence(Standing),
    /// It begins to send a message, where there is one; until then it stands so.
    Begin(Request, Standing),
    /// It goes on with a message: the counter of the last piece that was sent, and of the piece that is asked for.
    Piece(Request, u16, u16),
}

impl Step {
    /// Whether it hangs on the unit's messages.
    pub fn asks_unit(&self) -> bool
        ensures { result ≡ asks self.now }
    {
        match self {
            Step::Answer(_, _) | Step::Silence(_) => false,
            Step::Begin(_, _) | Step::Piece(_, _, _) => true,
        }
    }
}

/// A check of the table, and the code of the refusal where it fails.
#[derive(Clone, Copy, Debug, PartialEq, Eq)]
pub struct Check {
    /// Whether what is checked is so.
    pub holds: bool,
    /// The code of the refusal where it is not, one of `link_model::services`.
    pub code: u8,
}

/// The step where this service is refused with this code: the session stands as it stood.
pub fn refused(standing: Standing, service: u8, code: u8) -> Step
    ensures performs { (messages : Asked → Option (List ℕ))
        → performed messages result ≡ refuses (state_of standing) service code }
    ensures asks { asks result ≡ false }
{
    Step::Answer(Frame::new(&[REFUSAL, service, code]), standing)
}

/// The first check that fails refuses; where none does, the step.
pub fn checked(standing: Standing, service: u8, checks: &[Check], step: Step) -> Step
    ensures performs { (messages : Asked → Option (List ℕ))
        → performed messages result ≡ checked (state_of standing) service (map check_of checks.now)
        (performed messages step) }
    ensures asks { asks result ≡ (asks step && all_hold (map check_of checks.now)) }
{
    if let Some(code) = failing(checks) {
        return refused(standing, service, code);
    }
    step
}

/// The code of the first check that fails.
fn failing(checks: &[Check]) -> Option<u8>
    ensures { result ≡ failing_code checks.now }
{
    for check in checks {
        if !check.holds {
            return Some(check.code);
        }
    }
    None
}
