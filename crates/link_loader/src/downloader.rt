//! The loader's side of a download: where it stands, the frame to send, and what a frame that comes does.
ghost use Rattle.std.specs.Prelude.{◌≡◌, ◌≤◌, ◌<◌, ℕ, List, length, Some, None, IfNone, IfOk, OnOk};
ghost use Rattle.std.specs.Prelude.{IfErr, OnErr, IsErrOf};
ghost use Rattle.std.specs.Io.KnownBytes.{Appends};
ghost use Rattle.tach_media.specs.Medium.{Rose};
ghost use Rattle.message_model.specs.Messages.{Message, message_bytes};
ghost use Rattle.unit_messages.specs.declared.joining.TheConstants.{LONGEST};
ghost use Rattle.unit_messages.specs.Joining.{wanted, counter_in};
ghost use Rattle.link_loader.specs.Stages.{sent_at, passed_over, behind_answer, counter_at, next_counter};
ghost use Rattle.link_loader.specs.Coming.{kind_of, IsInOrder};
ghost use Rattle.link_loader.specs.Loading.{begun, over, at_stage, after_message, continued, with_piece, Takes};
ghost use Rattle.link_loader.specs.Loading.{IsAnswer, IsNotPut, IsRefused, left_by, LeavesSink};
ghost use Rattle.link_loader.specs.Loading.{CountsFailures, RefusesExactly, WantsRoom};

use crate::fault::LoadFault;
use crate::kind::{FULL, Kind, kind_of};
use crate::message::put_message;
use crate::stage::{Next, Stage, behind_answer, counter_at, passed_over, sent_at};
use link_frames::Frame;
use link_model::Request;
use std::alloc::Global;
use std::marker::Model;
use tach_media::{Memory, Sink};
use unit_messages::Joiner;

/// The loader's side of a download: it says which frame to send, takes the answer, and puts each finished message into
/// a sink.
#[derive(Drop)]
pub struct Downloader {
    stage: Stage,
    end: u32,
    joiner: Joiner,
}

impl Model for Downloader {
    ghost use Rattle.link_loader.specs.Loading.{Load, CounterIsWanted};

    ghost Value = { Load };

    ghost view = { λ d. record {
      loading = record { stage = d.stage; end = d.end; bytes = d.joiner.bytes };
      room = d.joiner.room;
    } };

    ghost invariant = { λ d. CounterIsWanted d.stage d.joiner };
}

impl Downloader {
    /// Nothing has come yet. It takes no memory.
    pub fn new(alloc: Global) -> Downloader
        ensures { result.loading ≡ begun }
    {
        Downloader {
            stage: Stage::Start,
            end: 0,
            joiner: Joiner::new(alloc),
        }
    }

    /// The frame to send: the next request, or the acknowledgement of a piece; `None` exactly where the download is
    /// over.
    pub fn next(&self) -> Option<Frame>
        ensures sent { result ≡ sent_at self.now.loading.stage }
        ensures none { IfNone result (self.now.loading.stage ≡ Stage.Finished) }
    {
        sent_at(self.stage)
    }

    /// Makes room for the longest message of a unit.
    ///
    /// # Errors
    ///
    /// `Memory`; the download is as it was.
    pub fn reserve(&mut self) -> Result<(), Memory>
        ensures stays { self.new.loading ≡ self.old.loading }
        ensures room { OnOk result (LONGEST ≤ self.new.room) }
        ensures never_less { self.old.room ≤ self.new.room }
        ensures same { OnErr result (self.new ≡ self.old) }
    {
        self.joiner.reserve()
    }

    /// Takes a frame that comes (Annex IB, Appendix 7). Where it finishes a message, the message goes to the sink.
    ///
    /// # Errors
    ///
    /// `Negative` for a negative answer that is not passed over, `Broken` for a piece out of its order, `Unexpected`
    /// for what is no answer to the frame that was sent, and `WriteFault` where the sink failed: the download is over.
    /// `Memory`: it is as it was.
    pub fn take<K: Sink>(&mut self, frame: &Frame, sink: &mut K) -> Result<(), LoadFault>
        // The frame is taken, and what it finishes is in the sink, behind what that held.
        ensures taken { OnOk result ((out : List ℕ) × Takes self.old.loading frame.now self.new.loading out
            × Appends (K.held sink.old) (K.held sink.new) out) }
        ensures refused { IfErr result (IsRefused self.old.loading frame.now) }
        ensures left { IfErr result (λ fault. self.new.loading ≡ left_by fault self.old.loading) }
        ensures same { IsErrOf result LoadFault.Memory → self.new ≡ self.old }
        ensures sink { IfErr result (λ fault.
            LeavesSink self.old.loading frame.now fault (K.held sink.old) (K.held sink.new)) }
        ensures faults { CountsFailures result (K.faults sink.old) (K.faults sink.new) }
        // Memory is wanted only where there is no room for the bytes with the piece.
        ensures memory { WantsRoom result self.old self.new frame.now }
        // Exactly where such a frame comes, but for want of memory at a piece.
        ensures exactly { RefusesExactly result self.old.loading frame.now }
    {
        let kind = kind_of(self.stage, frame.bytes());
        self.take_kind(kind, frame, sink)
    }

    /// Takes a frame of this kind.
    fn take_kind<K: Sink>(
        &mut self,
        kind: Kind,
        frame: &Frame,
        sink: &mut K,
    ) -> Result<(), LoadFault>
        requires kind { kind ≡ kind_of self.old.loading.stage frame.now }
        requires order { IsInOrder (counter_at self.old.loading.stage) frame.now kind }
        ensures taken { OnOk result ((out : List ℕ) × Takes self.old.loading frame.now self.new.loading out
            × Appends (K.held sink.old) (K.held sink.new) out) }
        ensures refused { IfErr result (IsRefused self.old.loading frame.now) }
        ensures left { IfErr result (λ fault. self.new.loading ≡ left_by fault self.old.loading) }
        ensures same { IsErrOf result LoadFault.Memory → self.new ≡ self.old }
        ensures sink { IfErr result (λ fault.
            LeavesSink self.old.loading frame.now fault (K.held sink.old) (K.held sink.new)) }
        ensures faults { CountsFailures result (K.faults sink.old) (K.faults sink.new) }
        ensures memory { WantsRoom result self.old self.new frame.now }
    {
        match kind {
            Kind::Negative(service, code) => self.pass_over(service, code),
            Kind::Broken(wanted, counter) => {
                self.go_to(Stage::Finished);
                Err(LoadFault::Broken(wanted, counter))
            }
            Kind::Agreed => {
                self.agree();
                Ok(())
            }
            Kind::Piece(request) => self.join(request, frame, sink),
            Kind::Single(request) => self.finish(request, frame.bytes(), sink),
            Kind::Other => {
                self.go_to(Stage::Finished);
                Err(LoadFault::Unexpected)
            }
        }
    }

    /// At this stage, with no bytes of a message.
    fn go_to(&mut self, stage: Stage)
        requires { counter_at stage ≡ 1 }
        ensures { self.new ≡ record { loading = at_stage self.old.loading.end stage; room = self.old.room } }
    {
        self.joiner.clear();
        self.stage = stage;
    }

    /// A negative answer, which may be passed over.
    fn pass_over(&mut self, service: u8, code: u8) -> Result<(), LoadFault>
        ensures passed { OnOk result ((stage : Stage)
            × (passed_over self.old.loading.end self.old.loading.stage service code ≡ Some stage)
            × (self.new.loading ≡ at_stage self.old.loading.end stage)) }
        ensures refused { IfErr result (λ fault. (fault ≡ LoadFault.Negative service code)
            × (passed_over self.old.loading.end self.old.loading.stage service code ≡ None)
            × (self.new.loading ≡ over self.old.loading)) }
        ensures room { self.new.room ≡ self.old.room }
    {
        let Some(stage) = passed_over(self.end, self.stage, service, code) else {
            self.go_to(Stage::Finished);
            return Err(LoadFault::Negative(service, code));
        };
        self.go_to(stage);
        Ok(())
    }

    /// The positive answer to what asks for no message came.
    fn agree(&mut self)
        ensures { self.new ≡ record {
          loading = at_stage self.old.loading.end (behind_answer self.old.loading.stage);
          room = self.old.room;
        } }
    {
        let stage = behind_answer(self.stage);
        self.go_to(stage);
    }

    /// The wanted piece of a message.
    fn join<K: Sink>(
        &mut self,
        request: Request,
        frame: &Frame,
        sink: &mut K,
    ) -> Result<(), LoadFault>
        requires kind { kind_of self.old.loading.stage frame.now ≡ Kind.Piece request }
        requires order { IsInOrder (counter_at self.old.loading.stage) frame.now (Kind.Piece request) }
        ensures taken { OnOk result ((out : List ℕ) × Takes self.old.loading frame.now self.new.loading out
            × Appends (K.held sink.old) (K.held sink.new) out) }
        ensures refused { IfErr result (IsRefused self.old.loading frame.now) }
        ensures left { IfErr result (λ fault. self.new.loading ≡ left_by fault self.old.loading) }
        ensures same { IsErrOf result LoadFault.Memory → self.new ≡ self.old }
        ensures sink { IfErr result (λ fault.
            LeavesSink self.old.loading frame.now fault (K.held sink.old) (K.held sink.new)) }
        ensures faults { CountsFailures result (K.faults sink.old) (K.faults sink.new) }
        ensures memory { WantsRoom result self.old self.new frame.now }
    {
        match self.add_piece(request, frame) {
            Ok(_) => {
                if frame.bytes().len() == FULL {
                    return Ok(());
                }
                self.finish_joined(request, sink)
            }
            Err(_) => Err(LoadFault::Memory),
        }
    }

    /// The wanted piece is joined.
    fn add_piece(&mut self, request: Request, frame: &Frame) -> Result<(), Memory>
        requires some { 4 ≤ length frame.now }
        requires order { counter_in frame.now ≡ counter_at self.old.loading.stage }
        ensures joined { OnOk result (self.new.loading ≡ continued self.old.loading request frame.now) }
        ensures same { OnErr result (self.new ≡ self.old) }
        ensures room { self.old.room ≤ self.new.room }
        ensures enough { OnErr result (self.old.room < length (with_piece self.old.loading.bytes frame.now)) }
    {
        let wanted = counter_at(self.stage);
        join_piece(&mut self.joiner, frame)?;
        self.stage = Stage::Acknowledged(request, wanted.wrapping_add(1));
        Ok(())
    }

    /// All pieces of a message have come.
    fn finish_joined<K: Sink>(&mut self, request: Request, sink: &mut K) -> Result<(), LoadFault>
        ensures put { OnOk result ((m : Message) × IsAnswer request self.old.loading.bytes m
            × (self.new.loading ≡ after_message self.old.loading m)
            × Appends (K.held sink.old) (K.held sink.new) (message_bytes m)) }
        ensures not { IfErr result (λ fault. IsNotPut request self.old.loading.bytes fault (K.held sink.old) (K.held
            sink.new)) }
        ensures over { OnErr result (self.new.loading ≡ over self.old.loading) }
        ensures later { K.faults sink.old ≤ K.faults sink.new }
        ensures cause { IsErrOf result LoadFault.WriteFault → Rose (K.faults sink.old) (K.faults sink.new) }
        ensures room { self.new.room ≡ self.old.room }
    {
        let put = put_message(sink, request, self.end, self.joiner.bytes());
        self.settle(put)
    }

    /// A message in one frame.
    fn finish<K: Sink>(
        &mut self,
        request: Request,
        bytes: &[u8],
        sink: &mut K,
    ) -> Result<(), LoadFault>
        ensures put { OnOk result ((m : Message) × IsAnswer request bytes.now m
            × (self.new.loading ≡ after_message self.old.loading m)
            × Appends (K.held sink.old) (K.held sink.new) (message_bytes m)) }
        ensures not { IfErr result (λ fault. IsNotPut request bytes.now fault (K.held sink.old) (K.held sink.new)) }
        ensures over { OnErr result (self.new.loading ≡ over self.old.loading) }
        ensures later { K.faults sink.old ≤ K.faults sink.new }
        ensures cause { IsErrOf result LoadFault.WriteFault → Rose (K.faults sink.old) (K.faults sink.new) }
        ensures room { self.new.room ≡ self.old.room }
    {
        let put = put_message(sink, request, self.end, bytes);
        self.settle(put)
    }

    /// A message went out, or did not.
    fn settle(&mut self, put: Result<Next, LoadFault>) -> Result<(), LoadFault>
        requires { IfOk put (λ next. counter_at next.stage ≡ 1) }
        ensures ok { OnOk result ((next : Next) × (put ≡ Ok next) × (self.new.loading ≡ at_stage next.end next.stage)) }
        ensures err { IfErr result (λ fault. IsErrOf put fault) }
        ensures over { OnErr result (self.new.loading ≡ over self.old.loading) }
        ensures room { self.new.room ≡ self.old.room }
    {
        match put {
            Ok(next) => {
                self.end = next.end;
                self.go_to(next.stage);
                Ok(())
            }
            Err(fault) => {
                self.go_to(Stage::Finished);
                Err(fault)
            }
        }
    }
}

/// Joins the wanted piece.
fn join_piece(joiner: &mut Joiner, frame: &Frame) -> Result<(), Memory>
    requires some { 4 ≤ length frame.now }
    requires order { counter_in frame.now ≡ wanted joiner.old }
    ensures pieces { OnOk result (wanted joiner.new ≡ next_counter (wanted joiner.old)) }
    ensures bytes { OnOk result (joiner.new.bytes ≡ with_piece joiner.old.bytes frame.now) }
    ensures same { OnErr result (joiner.new ≡ joiner.old) }
    ensures room { joiner.old.room ≤ joiner.new.room }
    ensures enough { OnErr result (joiner.old.room < length (with_piece joiner.old.bytes frame.now)) }
{
    match joiner.take(frame) {
        Ok(_) => Ok(()),
        Err(_) => Err(Memory),
    }
}
