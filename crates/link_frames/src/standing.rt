//! Where a session stands on the link, and what may be asked there.
ghost use Rattle.std.specs.Prelude.{◌≡◌};
ghost use Rattle.link_model.specs.Answers.{is_diagnostic, is_upload, is_sending};
ghost use Rattle.link_frames.specs.Steps.{state_of};

use link_model::Request;

/// Where a session stands on the link.
#[derive(Clone, Copy, Debug, PartialEq, Eq)]
pub enum Standing {
    /// Communication has not started, or was stopped.
    Idle,
    /// Communication has started.
    Started,
    /// The diagnostic service has started.
    Diagnostic,
    /// An upload was requested.
    Upload,
    /// A message is sent in pieces: its request, and the counter of the last piece that was sent.
    Sending(Request, u16),
}

impl Standing {
    /// An upload may be requested.
    pub fn is_diagnostic(self) -> bool
        ensures { result ≡ is_diagnostic (state_of self) }
    {
        match self {
            Standing::Diagnostic | Standing::Upload | Standing::Sending(_, _) => true,
            Standing::Idle | Standing::Started => false,
        }
    }

    /// Messages may be asked for.
    pub fn is_upload(self) -> bool
        ensures { result ≡ is_upload (state_of self) }
    {
        match self {
            Standing::Upload | Standing::Sending(_, _) => true,
            Standing::Idle | Standing::Started | Standing::Diagnostic => false,
        }
    }

    /// A message is sent in pieces.
    pub fn is_sending(self) -> bool
        ensures { result ≡ is_sending (state_of self) }
    {
        match self {
            Standing::Sending(_, _) => true,
            Standing::Idle | Standing::Started | Standing::Diagnostic | Standing::Upload => false,
        }
    }
}
