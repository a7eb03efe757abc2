//! A session: where it stands, what it has found of its unit, and what it answers to a frame.
ghost use Rattle.unit_model.specs.declared.layout.TheConstants.{IMAGE_SIZE};
ghost use Rattle.std.specs.Prelude.{◌≡◌, ℕ, ◌≤◌, true, false, IfOk, OnOk, OnErr, IfErr, IfSome, Some, List};
ghost use Rattle.std.specs.Prelude.{Option};
ghost use Rattle.link_model.specs.declared.request.Request.{Request as Asked};
ghost use Rattle.link_model.specs.Answers.{Idle, answered, sends_on};
ghost use Rattle.link_frames.specs.Seen.{meant};
ghost use Rattle.message_model.specs.Sending.{content_sent};
ghost use Rattle.unit_model.specs.Decoding.{first_bad_place};
ghost use Rattle.unit_minutes.specs.Reading.{ReadsIfAny};
ghost use Rattle.link_frames.specs.Asking.{asks_unit};
ghost use Rattle.link_frames.specs.Steps.{state_of, begins, performed, asks};
ghost use Rattle.link_frames.specs.Sending.{IsPart, reply_of};
ghost use Rattle.link_session.specs.Told.{Knows, is_judged, fresh, IfBadUnit, has_failed};
ghost use Rattle.link_session.specs.Told.{AnswersNot, HasFound, AsksUnit};

use crate::asking::{AnswerFault, Part, judge, part_of};
use link_frames::{Frame, Reply, Seen, Standing, Step, begun, place_of, sent_on, step_of};
use link_model::Request;
use link_model::lengths::MESSAGE_HEADER;
use std::marker::Model;
use tach_media::Medium;
use unit_messages::Outline;
use unit_minutes::Journal;

/// What a unit has told on the link so far, and what was found of the unit to tell it. A session judges its unit once,
/// at the first frame whose answer hangs on it.
#[derive(Drop)]
pub struct Session {
    standing: Standing,
    journal: Option<Journal>,
    outline: Option<Outline>,
}

impl Model for Session {
    ghost use Rattle.link_frames.specs.Steps.{state_of};
    ghost use Rattle.link_session.specs.Told.{SessionView};

    ghost Value = { SessionView };

    ghost view = { λ s. record { state = state_of s.standing; journal = s.journal; outline = s.outline } };
}

impl Session {
    /// Nothing was heard yet.
    pub fn new() -> Session
        ensures { result ≡ fresh Idle }
    {
        Session {
            standing: Standing::Idle,
            journal: None,
            outline: None,
        }
    }

    /// Answers what is heard on the unit's side of the link, or gives no answer: by the table of answers (Annex IB,
    /// Appendix 7) over the messages of the unit's image. Of a message no more is read than the answer holds.
    ///
    /// # Errors
    ///
    /// `Failed` where the unit failed, and `BadUnit` with the place of the first field of its image, in order of
    /// places, that fails. The session is as it was.
    pub fn answer<M: Medium>(
        &mut self,
        unit: &mut M,
        seen: &Seen,
    ) -> Result<Option<Frame>, AnswerFault>
        requires unit { (M.state unit.old).size ≡ IMAGE_SIZE }
        // What the session has found of the unit is still so; whoever writes nothing to the unit keeps it.
        requires knows { IfSome (M.state unit.old).image (Knows self.old) }
        // The answer, and where the session stands then, are those of the table.
        ensures answered { IfOk result (λ answer. IfSome (M.state unit.old).image (λ x.
            record { answer = answer; state = self.new.state }
            ≡ answered (content_sent x) self.old.state (meant seen.now))) }
        // Over a unit that does not tell its image too: by the table over some messages.
        ensures possible { IfOk result (λ answer. (messages : Asked → Option (List ℕ)) ×
            (record { answer = answer; state = self.new.state } ≡ answered messages self.old.state (meant seen.now))) }
        ensures found { HasFound result (asks_unit self.old.state (meant seen.now)) self.old self.new
            (M.state unit.old).image }
        ensures same { OnErr result (self.new ≡ self.old) }
        // Only a unit that was not judged yet is refused.
        ensures bad { IfErr result (λ fault. IfBadUnit fault (λ p. (is_judged self.old ≡ false) × IfSome
            (M.state unit.old).image (λ x. first_bad_place x ≡ Some p))) }
        // The unit is read only where the answer hangs on it; else it is as it was, and there is no error.
        ensures reads { ReadsIfAny (M.state unit.old) (M.state unit.new) (has_failed result) }
        ensures spared { asks_unit self.old.state (meant seen.now) ≡ false → unit.new ≡ unit.old }
        ensures silent { IfErr result (λ fault. asks_unit self.old.state (meant seen.now) ≡ true) }
    {
        let standing = self.standing;
        let step = step_of(standing, seen);
        let reply = self.perform(unit, step)?;
        self.standing = reply.standing;
        Ok(reply.answer)
    }

    /// What a step answers, by the unit's messages where it hangs on them.
    fn perform<M: Medium>(&mut self, unit: &mut M, step: Step) -> Result<Reply, AnswerFault>
        requires unit { (M.state unit.old).size ≡ IMAGE_SIZE }
        requires knows { IfSome (M.state unit.old).image (Knows self.old) }
        ensures performed { IfOk result (λ reply. IfSome (M.state unit.old).image
            (λ x. reply_of reply ≡ performed (content_sent x) step)) }
        ensures possible { IfOk result (λ reply. (messages : Asked → Option (List ℕ))
            × (reply_of reply ≡ performed messages step)) }
        ensures stays { OnOk result (self.new.state ≡ self.old.state) }
        ensures found { HasFound result (asks step) self.old self.new (M.state unit.old).image }
        ensures same { OnErr result (self.new ≡ self.old) }
        ensures not { AnswersNot result (asks step) self.old (M.state unit.old).image }
        ensures reads { ReadsIfAny (M.state unit.old) (M.state unit.new) (has_failed result) }
        ensures spared { asks step ≡ false → unit.new ≡ unit.old }
    {
        match step {
            Step::Answer(frame, standing) => Ok(Reply {
                answer: Some(frame),
                standing,
            }),
            Step::Silence(standing) => Ok(Reply {
                answer: None,
                standing,
            }),
            Step::Begin(request, standing) => self.begin(unit, request, standing),
            Step::Piece(request, counter, code) => self.go_on(unit, request, counter, code),
        }
    }

    /// Begins to send a message, where there is one.
    fn begin<M: Medium>(
        &mut self,
        unit: &mut M,
        request: Request,
        standing: Standing,
    ) -> Result<Reply, AnswerFault>
        requires unit { (M.state unit.old).size ≡ IMAGE_SIZE }
        requires knows { IfSome (M.state unit.old).image (Knows self.old) }
        ensures begun { IfOk result (λ reply.
            IfSome (M.state unit.old).image (λ x. reply_of reply ≡ begins (state_of standing) request
            (content_sent x request))) }
        ensures possible { IfOk result (λ reply. (content : Option (List ℕ))
            × (reply_of reply ≡ begins (state_of standing) request content)) }
        ensures asks { AsksUnit result self.old self.new (M.state unit.old) (M.state unit.new) }
    {
        let part = self.ask(unit, &request, MESSAGE_HEADER)?;
        Ok(begun(request, standing, part.told, part.bytes.as_slice()))
    }

    /// Goes on with a message.
    fn go_on<M: Medium>(
        &mut self,
        unit: &mut M,
        request: Request,
        counter: u16,
        code: u16,
    ) -> Result<Reply, AnswerFault>
        requires unit { (M.state unit.old).size ≡ IMAGE_SIZE }
        requires knows { IfSome (M.state unit.old).image (Knows self.old) }
        ensures sent { IfOk result (λ reply. IfSome (M.state unit.old).image (λ x. reply_of reply ≡ sends_on request
            counter (content_sent x request) code)) }
        ensures possible { IfOk result (λ reply. (content : Option (List ℕ))
            × (reply_of reply ≡ sends_on request counter content code)) }
        ensures asks { AsksUnit result self.old self.new (M.state unit.old) (M.state unit.new) }
    {
        let place = place_of(code);
        let part = self.ask(unit, &request, place)?;
        Ok(sent_on(request, counter, code, part.told, part.bytes.as_slice()))
    }

    /// Reads a part of a message, of a unit that is judged before, if it was not yet.
    fn ask<M: Medium>(
        &mut self,
        unit: &mut M,
        request: &Request,
        from: u32,
    ) -> Result<Part, AnswerFault>
        requires unit { (M.state unit.old).size ≡ IMAGE_SIZE }
        requires knows { IfSome (M.state unit.old).image (Knows self.old) }
        requires from { 2 ≤ from }
        ensures told { IfOk result (λ part. IfSome (M.state unit.old).image (λ x. IsPart (content_sent x request.now)
            from part.told part.bytes.items)) }
        ensures possible { IfOk result (λ part. (content : Option (List ℕ)) × IsPart content from part.told
            part.bytes.items) }
        ensures asks { AsksUnit result self.old self.new (M.state unit.old) (M.state unit.new) }
    {
        let Some(journal) = &self.journal else {
            return self.ask_first(unit, request, from);
        };
        let part = part_of(journal, unit, &self.outline, request, from)?;
        self.outline = part.outline;
        Ok(part)
    }

    /// Judges the unit, and reads a part of a message.
    fn ask_first<M: Medium>(
        &mut self,
        unit: &mut M,
        request: &Request,
        from: u32,
    ) -> Result<Part, AnswerFault>
        requires unit { (M.state unit.old).size ≡ IMAGE_SIZE }
        requires anew { is_judged self.old ≡ false }
        requires from { 2 ≤ from }
        ensures told { IfOk result (λ part. IfSome (M.state unit.old).image (λ x. IsPart (content_sent x request.now)
            from part.told part.bytes.items)) }
        ensures possible { IfOk result (λ part. (content : Option (List ℕ)) × IsPart content from part.told
            part.bytes.items) }
        ensures asks { AsksUnit result self.old self.new (M.state unit.old) (M.state unit.new) }
    {
        let journal = judge(unit)?;
        let part = part_of(&journal, unit, &None, request, from)?;
        self.journal = Some(journal);
        self.outline = part.outline;
        Ok(part)
    }
}
