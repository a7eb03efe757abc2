//! A download over a noisy link, event by event.
ghost use Rattle.unit_model.specs.declared.layout.TheConstants.{IMAGE_SIZE};
ghost use Rattle.std.specs.Prelude.{false, ◌≡◌, ◌≤◌, ◌<◌, ◌-◌, ◌++◌, ◌==◌, ◌&&◌, not, is_none, ℕ, Some, OnOk, IfOk};
ghost use Rattle.std.specs.Prelude.{IfErr, IfSome, IsErrOf, option_to_list, length, slice_get};
ghost use Rattle.tach_media.specs.Medium.{Rose};
ghost use Rattle.unit_minutes.specs.Reading.{ReadsIfAny};
ghost use Rattle.unit_messages.specs.declared.joining.TheConstants.{LONGEST};
ghost use Rattle.link_session.specs.Told.{Knows, fresh};
ghost use Rattle.link_model.specs.Answers.{Idle};
ghost use Rattle.link_loader.specs.Loading.{Load, begun};
ghost use Rattle.unit_download.specs.Ending.{has_failed};
ghost use Rattle.noisy_model.specs.Ends.{request_of};
ghost use Rattle.noisy_model.specs.Worlds.{fresh_world};
ghost use Rattle.noisy_link.specs.Sides.{asked, is_over};
ghost use Rattle.noisy_link.specs.Steps.{frame_of, brought_by, IsHearing, IsTaking, IsStep};

use crate::loader_end::LoaderEnd;
use crate::unit_end::UnitEnd;
use link_frames::Frame;
use link_loader::LoadFault;
use link_session::AnswerFault;
use noisy_model::{Event, Packet};
use std::alloc::Global;
use std::marker::Model;
use tach_media::{Medium, Memory, Sink};
use unit_download::DownloadFault;

/// As many packets as go each way at most.
pub const MOST_PACKETS: u32 = 2147483648;

/// A download over a noisy link: the packets that were sent, the answers that were given, and both ends.
#[derive(Drop)]
pub struct World {
    sent: Vec<Packet>,
    answers: Vec<Packet>,
    unit: UnitEnd,
    loader: LoaderEnd,
}

impl Model for World {
    ghost use Rattle.std.specs.Prelude.{◌≤◌, length};
    ghost use Rattle.link_session.specs.Told.{SessionView};
    ghost use Rattle.link_loader.specs.Loading.{Load};
    ghost use Rattle.noisy_model.specs.Worlds.{World as NoisyWorld};

    ghost Value = { NoisyWorld SessionView Load };

    ghost view = { λ w. record { sent = w.sent.items; answers = w.answers.items; unit = w.unit; loader = w.loader } };

    ghost invariant = { λ w. (length w.sent.items ≤ 2147483648) × (length w.answers.items ≤ 2147483648) };
}

impl World {
    /// Nothing was sent. It takes no memory.
    pub fn new(alloc: Global) -> World
        ensures { (load : Load) × (load.loading ≡ begun) × (result ≡ fresh_world (fresh Idle) load) }
    {
        World {
            sent: Vec::new(alloc),
            answers: Vec::new(alloc),
            unit: UnitEnd::new(),
            loader: LoaderEnd::new(alloc),
        }
    }

    /// The same, with room for the longest message of a unit.
    ///
    /// # Errors
    ///
    /// `Memory`.
    pub fn with_room(alloc: Global) -> Result<World, Memory>
        ensures { IfOk result (λ world. (load : Load) × (load.loading ≡ begun) × (LONGEST ≤ load.room)
            × (world ≡ fresh_world (fresh Idle) load)) }
    {
        let mut loader = LoaderEnd::new(alloc);
        loader.reserve()?;
        Ok(World {
            sent: Vec::new(alloc),
            answers: Vec::new(alloc),
            unit: UnitEnd::new(),
            loader,
        })
    }

    /// Whether the download is over.
    pub fn finished(&self) -> bool
        ensures { result ≡ is_over self.now.loader.side }
    {
        self.loader.is_finished()
    }

    /// How many packets were sent.
    pub fn sent(&self) -> u32
        ensures { result ≡ length self.now.sent }
    {
        self.sent.len() as u32
    }

    /// How many answers were given.
    pub fn answered(&self) -> u32
        ensures { result ≡ length self.now.answers }
    {
        self.answers.len() as u32
    }

    /// How many answers the loader's end took: at each its number went on.
    pub fn taken(&self) -> u64
        ensures { result ≡ self.now.loader.number - 1 }
    {
        self.loader.number().saturating_sub(1)
    }

    /// The packet of this place in the order of sending, from 0.
    pub fn packet(&self, place: u32) -> &Packet
        requires { place < length self.now.sent }
        ensures { slice_get self.now.sent place ≡ Some result.now }
    {
        &self.sent[place as usize]
    }

    /// The answer of this place.
    pub fn reply(&self, place: u32) -> &Packet
        requires { place < length self.now.answers }
        ensures { slice_get self.now.answers place ≡ Some result.now }
    {
        &self.answers[place as usize]
    }

    /// The frame that the loader's end sends, if it has anything to send.
    pub fn request(&self) -> Option<Frame>
        ensures { result ≡ frame_of (request_of asked self.now.loader) }
    {
        match self.loader.send() {
            Some(packet) => packet.frame,
            None => None,
        }
    }

    /// The frame that the answer of this place brings the loader's end, if there is one.
    pub fn brought(&self, place: u32) -> Option<Frame>
        ensures { result ≡ brought_by self.now (slice_get self.now.answers place) }
    {
        let place = place as usize;
        if place >= self.answers.len() {
            return None;
        }
        self.loader.brings(&self.answers[place])
    }

    /// What an event does. It reads the unit, and never writes it.
    ///
    /// # Errors
    ///
    /// `Failed` and `BadUnit` where a new request came whose answer hangs on the unit, and it failed or is bad, and
    /// `Memory`, as where 2147483648 packets were sent or given: nothing has changed. `Changed` where the session has
    /// no answer to a new request, or the loader refuses what is brought, and `WriteFault`: the event is done.
    pub fn step<M: Medium, K: Sink>(
        &mut self,
        unit: &mut M,
        event: &Event,
        sink: &mut K,
    ) -> Result<(), DownloadFault>
        requires unit { (M.state unit.old).size ≡ IMAGE_SIZE }
        requires knows { IfSome (M.state unit.old).image (Knows self.old.unit.side) }
        ensures stepped { IsStep result (M.state unit.old).image self.old event.now self.new (K.held sink.old)
            (K.held sink.new) }
        ensures knows { IfSome (M.state unit.old).image (Knows self.new.unit.side) }
        ensures room { self.old.loader.side.room ≤ self.new.loader.side.room }
        ensures counts { K.faults sink.old ≤ K.faults sink.new }
        ensures cause { IsErrOf result DownloadFault.WriteFault → Rose (K.faults sink.old) (K.faults sink.new) }
        ensures reads { ReadsIfAny (M.state unit.old) (M.state unit.new) (has_failed result) }
    {
        match *event {
            Event::Send => send(&self.loader, &mut self.sent),
            Event::ToUnit(place) => come_to_unit(
                &mut self.unit,
                unit,
                self.sent.as_slice(),
                place,
                &mut self.answers,
            ),
            Event::ToLoader(place) => come_to_loader(
                &mut self.loader,
                self.answers.as_slice(),
                place,
                sink,
            ),
        }
    }
}

/// The loader's end sends, if it has anything to send.
fn send(loader: &LoaderEnd, sent: &mut Vec<Packet>) -> Result<(), DownloadFault>
    requires few { length sent.old.items ≤ 2147483648 }
    ensures sent { OnOk result (sent.new.items ≡ sent.old.items ++ option_to_list (request_of asked loader.now)) }
    ensures memory { IfErr result (λ fault. (fault ≡ DownloadFault.Memory) × (sent.new.items ≡ sent.old.items)) }
    ensures few { length sent.new.items ≤ 2147483648 }
{
    let Some(packet) = loader.send() else {
        return Ok(());
    };
    if sent.len() >= MOST_PACKETS as usize || sent.push(packet).is_err() {
        return Err(DownloadFault::Memory);
    }
    Ok(())
}

/// The packet of this place, if there is one, comes to the unit's end, and what goes back is added to the answers.
fn come_to_unit<M: Medium>(
    end: &mut UnitEnd,
    unit: &mut M,
    sent: &[Packet],
    place: u32,
    answers: &mut Vec<Packet>,
) -> Result<(), DownloadFault>
    requires unit { (M.state unit.old).size ≡ IMAGE_SIZE }
    requires knows { IfSome (M.state unit.old).image (Knows end.old.side) }
    requires few { length answers.old.items ≤ 2147483648 }
    ensures heard { IsHearing result (M.state unit.old).image end.old (slice_get sent.now place) end.new
        answers.old.items answers.new.items }
    ensures knows { IfSome (M.state unit.old).image (Knows end.new.side) }
    ensures few { length answers.new.items ≤ 2147483648 }
    ensures reads { ReadsIfAny (M.state unit.old) (M.state unit.new) (has_failed result) }
{
    let place = place as usize;
    if place >= sent.len() {
        return Ok(());
    }
    if answers.len() >= MOST_PACKETS as usize || answers.reserve(1).is_err() {
        return Err(DownloadFault::Memory);
    }
    let last = end.last();
    match end.take(unit, &sent[place]) {
        Ok(None) => Ok(()),
        Ok(Some(answer)) => {
            let silent = is_silence(&answer, last);
            let _ = answers.push(answer);
            if silent {
                return Err(DownloadFault::Changed);
            }
            Ok(())
        }
        Err(AnswerFault::Failed) => Err(DownloadFault::Failed),
        Err(AnswerFault::BadUnit(bad)) => Err(DownloadFault::BadUnit(bad)),
    }
}

/// Whether a packet that goes back says that there is no answer, to another request than the last one before.
fn is_silence(answer: &Packet, last: u64) -> bool
    ensures { result ≡ (is_none answer.now.frame && not (answer.now.number == last)) }
{
    answer.frame.is_none() && answer.number != last
}

/// The answer of this place, if there is one, comes to the loader's end.
fn come_to_loader<K: Sink>(
    end: &mut LoaderEnd,
    answers: &[Packet],
    place: u32,
    sink: &mut K,
) -> Result<(), DownloadFault>
    ensures taken { IsTaking result end.old (slice_get answers.now place) end.new (K.held sink.old) (K.held sink.new) }
    ensures room { end.old.side.room ≤ end.new.side.room }
    ensures counts { K.faults sink.old ≤ K.faults sink.new }
    ensures cause { IsErrOf result DownloadFault.WriteFault → Rose (K.faults sink.old) (K.faults sink.new) }
    ensures unfailed { has_failed result ≡ false }
{
    let place = place as usize;
    if place >= answers.len() {
        return Ok(());
    }
    match end.take(&answers[place], sink) {
        Ok(_) => Ok(()),
        Err(LoadFault::WriteFault) => Err(DownloadFault::WriteFault),
        Err(LoadFault::Memory) => Err(DownloadFault::Memory),
        Err(LoadFault::Negative(_, _)) => Err(DownloadFault::Changed),
        Err(LoadFault::Unexpected) => Err(DownloadFault::Changed),
        Err(LoadFault::Broken(_, _)) => Err(DownloadFault::Changed),
    }
}
