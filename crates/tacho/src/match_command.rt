//! What `match` and `match all` print: whether the entries of a card file stand in a unit file, both from one source;
//! and which do not.
ghost use Rattle.std.specs.Prelude.{◌<◌, ◌^◌, IfOk, IfErr, length};
ghost use Rattle.card_match.specs.Files.{IsBadSource};
ghost use Rattle.tacho.specs.Read.{IsUnshown};
ghost use Rattle.tacho.specs.Match.{PrintsMatch, PrintsDifferences};

use crate::end::Fault;
use card_match::{SourceFault, compare_source, differences_text, match_source, match_text};
use std::alloc::Global;

/// The text of the answer to a match.
///
/// # Errors
///
/// `BadFile` with the place where the bytes are no unit file with a card file behind it, and `Memory`.
pub fn match_answer(alloc: Global, b: &[u8]) -> Result<Vec<u8>, Fault>
    requires { length b.now < 2 ^ 32 }
    ensures text { IfOk result (λ text. PrintsMatch b.now text.items) }
    ensures err { IfErr result (IsUnshown (λ place. IsBadSource place b.now)) }
{
    let matched = match_source(alloc, b)?;
    Ok(match_text(alloc, matched)?)
}

/// The text of all that differs.
///
/// # Errors
///
/// `BadFile` with the place where the bytes are no unit file with a card file behind it, and `Memory`.
pub fn match_all_answer(alloc: Global, b: &[u8]) -> Result<Vec<u8>, Fault>
    requires { length b.now < 2 ^ 32 }
    ensures text { IfOk result (λ text. PrintsDifferences b.now text.items) }
    ensures err { IfErr result (IsUnshown (λ place. IsBadSource place b.now)) }
{
    let all = compare_source(alloc, b)?;
    Ok(differences_text(alloc, &all)?)
}

/// The end where a source is not compared.
impl From<SourceFault> for Fault {
    ghost use Rattle.std.specs.Prelude.{◌≡◌};
    ghost use Rattle.tacho.specs.Match.{match_refusal_of};

    ghost from_gives = { λ fault end. end ≡ match_refusal_of fault };

    fn from(fault: SourceFault) -> Fault {
        match fault {
            SourceFault::BadFile(place) => Fault::BadFile(place),
            SourceFault::Memory => Fault::Memory,
        }
    }
}
