//! The part of an answer that asks the unit.
ghost use Rattle.unit_model.specs.declared.layout.TheConstants.{IMAGE_SIZE};
ghost use Rattle.std.specs.Prelude.{◌≡◌, ℕ, ◌≤◌, true, false, IfOk, OnOk, IfErr, IfSome, is_none, Some, List, Option};
ghost use Rattle.std.specs.Prelude.{is_err};
ghost use Rattle.link_model.specs.declared.request.Request.{Request as Asked};
ghost use Rattle.message_model.specs.Sending.{content_sent};
ghost use Rattle.unit_model.specs.Decoding.{Decodes, first_bad_place};
ghost use Rattle.unit_minutes.specs.Reading.{AreRight, ReadsIfAny};
ghost use Rattle.tach_media.specs.Medium.{Reads};
ghost use Rattle.unit_messages.specs.Outlines.{Outlines, IsOutlined};
ghost use Rattle.link_frames.specs.Sending.{IsPart};
ghost use Rattle.link_session.specs.Told.{IfBadUnit, has_failed};

use arrayvec::ArrayVec;
use link_frames::MOST;
use link_model::Request;
use tach_media::{Failed, Medium};
use unit_messages::{Outline, find_next_outline};
use unit_minutes::{Journal, UnitFault};

/// Why a session does not answer.
#[derive(Clone, Copy, Debug, PartialEq, Eq)]
pub enum AnswerFault {
    /// The unit failed.
    Failed,
    /// The unit's image does not decode: the place of the first field, in order of places, that fails.
    BadUnit(u32),
}

impl From<Failed> for AnswerFault {
    ghost use Rattle.std.specs.Prelude.{◌≡◌};
    ghost use Rattle.link_session.specs.declared.asking.AnswerFault.{AnswerFault};

    ghost from_gives = { λ _ fault. fault ≡ AnswerFault.Failed };

    fn from(_failed: Failed) -> AnswerFault {
        AnswerFault::Failed
    }
}

/// A part of a message that was read.
#[derive(Drop)]
pub struct Part {
    /// The message's length in bytes, with 76 and its number, where there is such a message.
    pub told: Option<u32>,
    /// The bytes of the part; none where there is no such message.
    pub bytes: ArrayVec<u8, MOST>,
    /// The message's outline, where there is one.
    pub outline: Option<Outline>,
}

/// Judges the unit: the journal of one whose image decodes.
///
/// # Errors
///
/// `Failed` where the unit failed, and `BadUnit` with the place of the first field of its image, in order of places,
/// that fails.
pub fn judge<M: Medium>(unit: &mut M) -> Result<Journal, AnswerFault>
    requires unit { (M.state unit.old).size ≡ IMAGE_SIZE }
    ensures right { IfOk result (λ journal. IfSome (M.state unit.old).image (AreRight journal)) }
    ensures decodes { OnOk result (IfSome (M.state unit.old).image Decodes) }
    ensures bad { IfErr result (λ fault. IfBadUnit fault (λ p. IfSome (M.state unit.old).image
        (λ x. first_bad_place x ≡ Some p))) }
    ensures reads { Reads (M.state unit.old) (M.state unit.new) (has_failed result) }
{
    match Journal::load(unit) {
        Ok(journal) => Ok(journal),
        Err(UnitFault::Failed) => Err(AnswerFault::Failed),
        Err(UnitFault::BadUnit(place)) => Err(AnswerFault::BadUnit(place)),
    }
}

/// Reads a part of a message of a unit that was judged: at most 252 bytes from a place on, which counts 76 and the
/// number. The outline that is known may be this message's.
///
/// # Errors
///
/// `Failed` where the unit failed.
pub fn part_of<M: Medium>(
    journal: &Journal,
    unit: &mut M,
    known: &Option<Outline>,
    request: &Request,
    from: u32,
) -> Result<Part, Failed>
    requires unit { (M.state unit.old).size ≡ IMAGE_SIZE }
    requires decodes { IfSome (M.state unit.old).image Decodes }
    requires right { IfSome (M.state unit.old).image (AreRight journal.now) }
    requires known { IfSome (M.state unit.old).image (λ x. IfSome known.now (λ o. Outlines o x)) }
    requires from { 2 ≤ from }
    ensures told { IfOk result (λ part. IfSome (M.state unit.old).image (λ x. IsPart (content_sent x request.now) from
        part.told part.bytes.items)) }
    ensures possible { IfOk result (λ part. (content : Option (List ℕ)) × IsPart content from part.told
        part.bytes.items) }
    ensures outline { IfOk result (λ part.
        IfSome (M.state unit.old).image (λ x. IfSome part.outline (λ o. Outlines o x))) }
    ensures reads { ReadsIfAny (M.state unit.old) (M.state unit.new) (is_err result) }
{
    let outline = outline_of(journal, unit, known, request)?;
    let mut bytes = ArrayVec::new();
    let Some(message) = outline else {
        return Ok(Part {
            told: None,
            bytes,
            outline,
        });
    };
    message.read(unit, from, &mut bytes)?;
    Ok(Part {
        told: Some(message.len()),
        bytes,
        outline,
    })
}

/// The outline of a message; the one that is known where it is this message's.
fn outline_of<M: Medium>(
    journal: &Journal,
    unit: &mut M,
    known: &Option<Outline>,
    request: &Request,
) -> Result<Option<Outline>, Failed>
    requires unit { (M.state unit.old).size ≡ IMAGE_SIZE }
    requires decodes { IfSome (M.state unit.old).image Decodes }
    requires right { IfSome (M.state unit.old).image (AreRight journal.now) }
    requires known { IfSome (M.state unit.old).image (λ x. IfSome known.now (λ o. Outlines o x)) }
    ensures outlined { IfOk result (λ found. IfSome (M.state unit.old).image (λ x. IsOutlined x request.now found)) }
    ensures reads { ReadsIfAny (M.state unit.old) (M.state unit.new) (is_err result) }
{
    if let Some(message) = known {
        if message.request() == *request {
            return Ok(Some(*message));
        }
    }
    find_next_outline(journal, unit, known, request)
}
