//! What `view`, `view last N` and `view manual` print: the view text of a unit file or of a card file, or of a card
//! file's entries by hand.
ghost use Rattle.std.specs.Prelude.{◌≡◌, ◌<◌, ◌^◌, IfOk, IfErr, length};
ghost use Rattle.file_view.specs.Faults.{IfBadFile};
ghost use Rattle.file_view.specs.CardFiles.{IsBadCardFile};
ghost use Rattle.file_view.specs.UnitFiles.{IsBadUnitFile};
ghost use Rattle.file_view.specs.Showing.{ShowsCardFile};
ghost use Rattle.file_view.specs.UnitShowing.{ShowsUnitFile};
ghost use Rattle.tacho.specs.View.{is_unit_file, PrintsUnit, PrintsCard, PrintsFile, IsBadFile, PrintsHands};
ghost use Rattle.tacho.specs.View.{PrintsByHand, IsNoCardFile};
ghost use Rattle.tacho.specs.Read.{IsUnshown};

use crate::end::Fault;
use file_view::{
    CardHistory, UnitHistory, ViewFault, by_hand, card_text, last_days, last_messages,
    read_card_file, read_download, unit_text,
};
use link_model::services::MESSAGE;
use std::alloc::Global;
use view_text::by_hand_text;

/// The view text of a file, of all its days or of the last so many.
///
/// # Errors
///
/// `BadFile` with the place where it is neither a unit file nor a card file, and `Memory`.
pub fn file_view(alloc: Global, last: Option<u32>, b: &[u8]) -> Result<Vec<u8>, Fault>
    requires { length b.now < 2 ^ 32 }
    ensures text { IfOk result (λ text. PrintsFile last b.now text.items) }
    ensures err { IfErr result (IsUnshown (λ place. IsBadFile place b.now)) }
{
    if is_unit_file(b) {
        return unit_view(alloc, last, b);
    }
    card_view(alloc, last, b)
}

/// Whether a file is read as a unit file: it begins with a message (Annex IB, Appendix 7, 2.2.6), as no card file does.
pub fn is_unit_file(b: &[u8]) -> bool
    ensures { result ≡ is_unit_file b.now }
{
    match b {
        [] => false,
        [first, ..] => *first == MESSAGE,
    }
}

/// The view text of a unit file.
fn unit_view(alloc: Global, last: Option<u32>, b: &[u8]) -> Result<Vec<u8>, Fault>
    requires { length b.now < 2 ^ 32 }
    ensures text { IfOk result (λ text. PrintsUnit last b.now text.items) }
    ensures err { IfErr result (IsUnshown (λ place. IsBadUnitFile place b.now)) }
{
    let history = unit_history(alloc, last, b)?;
    Ok(unit_text(alloc, &history)?)
}

/// The minutes of a unit file, of all days or of the last so many messages of days.
fn unit_history(alloc: Global, last: Option<u32>, b: &[u8]) -> Result<UnitHistory, ViewFault>
    requires { length b.now < 2 ^ 32 }
    ensures minutes { IfOk result (λ h. ShowsUnitFile last b.now h) }
    ensures bad { IfErr result (λ fault. IfBadFile fault (λ place. IsBadUnitFile place b.now)) }
{
    match last {
        Some(n) => last_messages(alloc, b, n),
        None => read_download(alloc, b),
    }
}

/// The view text of a card file.
fn card_view(alloc: Global, last: Option<u32>, b: &[u8]) -> Result<Vec<u8>, Fault>
    requires { length b.now < 2 ^ 32 }
    ensures text { IfOk result (λ text. PrintsCard last b.now text.items) }
    ensures err { IfErr result (IsUnshown (λ place. IsBadCardFile place b.now)) }
{
    let history = card_history(alloc, last, b)?;
    Ok(card_text(alloc, &history)?)
}

/// The entries of a card file, of all days or of the newest so many.
fn card_history(alloc: Global, last: Option<u32>, b: &[u8]) -> Result<CardHistory, ViewFault>
    requires { length b.now < 2 ^ 32 }
    ensures entries { IfOk result (λ h. ShowsCardFile last b.now h) }
    ensures bad { IfErr result (λ fault. IfBadFile fault (λ place. IsBadCardFile place b.now)) }
{
    match last {
        Some(n) => last_days(alloc, b, n),
        None => read_card_file(alloc, b),
    }
}

/// The view text of a card file's entries by hand.
///
/// # Errors
///
/// `BadFile` with the place where it is no card file, 0 where it is a unit file, and `Memory`.
pub fn hand_view(alloc: Global, b: &[u8]) -> Result<Vec<u8>, Fault>
    requires { length b.now < 2 ^ 32 }
    ensures text { IfOk result (λ text. PrintsByHand b.now text.items) }
    ensures err { IfErr result (IsUnshown (λ place. IsNoCardFile place b.now)) }
{
    if is_unit_file(b) {
        return Err(Fault::BadFile(0));
    }
    hands_view(alloc, b)
}

/// That of a card file.
fn hands_view(alloc: Global, b: &[u8]) -> Result<Vec<u8>, Fault>
    requires { length b.now < 2 ^ 32 }
    ensures text { IfOk result (λ text. PrintsHands b.now text.items) }
    ensures err { IfErr result (IsUnshown (λ place. IsBadCardFile place b.now)) }
{
    let entries = by_hand(alloc, b)?;
    Ok(by_hand_text(alloc, entries.as_slice())?)
}

/// The end where a file is not shown.
impl From<ViewFault> for Fault {
    ghost use Rattle.std.specs.Prelude.{◌≡◌};
    ghost use Rattle.tacho.specs.View.{view_refusal_of};

    ghost from_gives = { λ fault end. end ≡ view_refusal_of fault };

    fn from(fault: ViewFault) -> Fault {
        match fault {
            ViewFault::BadFile(place) => Fault::BadFile(place),
            ViewFault::Memory => Fault::Memory,
        }
    }
}
