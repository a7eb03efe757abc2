//! A download over a noisy link, round by round: events that are drawn, and what of them goes to the wire.
ghost use Rattle.std.specs.Prelude.{◌≡◌, ◌≤◌, [], ℕ, List, Option, slice_get, OnOk, IfErr, IfSome, IsErrOf};
ghost use Rattle.tach_media.specs.Medium.{Rose};
ghost use Rattle.unit_model.specs.declared.layout.TheConstants.{IMAGE_SIZE};
ghost use Rattle.unit_model.specs.Image.{IsUnit};
ghost use Rattle.unit_minutes.specs.Reading.{ReadsIfAny};
ghost use Rattle.link_session.specs.Told.{Knows};
ghost use Rattle.unit_download.specs.Ending.{has_failed, IsDownloaded};
ghost use Rattle.noisy_model.specs.Ends.{request_of};
ghost use Rattle.noisy_link.specs.Sides.{asked};
ghost use Rattle.noisy_link.specs.Steps.{frame_of, brought_by};
ghost use Rattle.noisy_download.specs.Listing.{DownloadGoesOn, IsListed, RequestIsListed, AnswerIsListed, IsUnderway};

use crate::draws::drawn_event;
use link_frames::End;
use noisy_link::{MOST_PACKETS, World};
use noisy_model::Event;
use std::alloc::Global;
use tach_media::{Medium, Sink};
use trace_text::next_drawn;
use unit_download::{DownloadFault, Tape, Wire};

/// A download over a noisy link as it goes.
#[derive(Drop)]
pub struct Noisy {
    /// Both ends, and all packets that were sent.
    pub world: World,
    /// Whether the wire has the request that is asked now.
    pub listed: bool,
    /// The number that was drawn last.
    pub drawn: u32,
}

/// Downloads a unit over a link that loses, repeats and delays, in rounds by numbers that are drawn behind a seed. A
/// round is up to five drawn events, then a sending, its coming to the unit's end, and the coming of the last answer.
/// The wire has each request when it is sent first, and each answer when it is taken. The unit is read, and never
/// written.
///
/// # Errors
///
/// Those of a download over a link that keeps all; `Memory` also where 2147483648 packets or rounds were not enough.
pub fn download_noisy<K: Sink, U: Medium>(
    alloc: Global,
    seed: u32,
    sink: &mut K,
    unit: &mut U,
    wire: &mut Wire,
) -> Result<(), DownloadFault>
    requires unit { IsUnit (U.state unit.old) }
    requires fresh { wire.old ≡ [] }
    ensures downloaded { IsDownloaded result (U.state unit.old).image wire.new (K.held sink.old) (K.held sink.new) }
    ensures cause { IsErrOf result DownloadFault.WriteFault → Rose (K.faults sink.old) (K.faults sink.new) }
    ensures counts { K.faults sink.old ≤ K.faults sink.new }
    // The unit is only read, if it is called at all.
    ensures unit { ReadsIfAny (U.state unit.old) (U.state unit.new) (has_failed result) }
{
    U::holds_bytes(unit);
    let world = World::with_room(alloc)?;
    let mut noisy = Noisy {
        world,
        listed: false,
        drawn: seed,
    };
    for _round in 0..MOST_PACKETS {
        noisy.round(sink, unit, wire)?;
        if noisy.world.finished() {
            return Ok(());
        }
    }
    Err(DownloadFault::Memory)
}

impl Noisy {
    /// The next number that is drawn.
    fn draw(&mut self) -> u32
        ensures world { self.new.world ≡ self.old.world }
        ensures listed { self.new.listed ≡ self.old.listed }
    {
        self.drawn = next_drawn(self.drawn);
        self.drawn
    }

    /// A round: up to five events that are drawn, and an exchange.
    fn round<K: Sink, U: Medium>(
        &mut self,
        sink: &mut K,
        unit: &mut U,
        wire: &mut Wire,
    ) -> Result<(), DownloadFault>
        requires unit { (U.state unit.old).size ≡ IMAGE_SIZE }
        requires knows { IfSome (U.state unit.old).image (Knows self.old.world.unit.side) }
        ensures goes { (held : Option (List ℕ))
            → IsUnderway (U.state unit.old).image held self.old.world self.old.listed wire.old (K.held sink.old)
            → DownloadGoesOn result (U.state unit.old).image held self.new.world self.new.listed wire.new
            (K.held sink.new) }
        ensures knows { IfSome (U.state unit.old).image (Knows self.new.world.unit.side) }
        ensures counts { K.faults sink.old ≤ K.faults sink.new }
        ensures cause { IsErrOf result DownloadFault.WriteFault → Rose (K.faults sink.old) (K.faults sink.new) }
        ensures reads { ReadsIfAny (U.state unit.old) (U.state unit.new) (has_failed result) }
    {
        let count = self.draw() / 65536 % 6;
        for _turn in 0..count {
            self.stray(sink, unit, wire)?;
        }
        self.exchange(sink, unit, wire)
    }

    /// An event that is drawn.
    fn stray<K: Sink, U: Medium>(
        &mut self,
        sink: &mut K,
        unit: &mut U,
        wire: &mut Wire,
    ) -> Result<(), DownloadFault>
        requires unit { (U.state unit.old).size ≡ IMAGE_SIZE }
        requires knows { IfSome (U.state unit.old).image (Knows self.old.world.unit.side) }
        ensures goes { (held : Option (List ℕ))
            → IsUnderway (U.state unit.old).image held self.old.world self.old.listed wire.old (K.held sink.old)
            → DownloadGoesOn result (U.state unit.old).image held self.new.world self.new.listed wire.new
            (K.held sink.new) }
        ensures knows { IfSome (U.state unit.old).image (Knows self.new.world.unit.side) }
        ensures counts { K.faults sink.old ≤ K.faults sink.new }
        ensures cause { IsErrOf result DownloadFault.WriteFault → Rose (K.faults sink.old) (K.faults sink.new) }
        ensures reads { ReadsIfAny (U.state unit.old) (U.state unit.new) (has_failed result) }
    {
        let x = self.draw();
        let Some(event) = drawn_event(x, self.world.sent(), self.world.answered()) else {
            return Ok(());
        };
        self.happen(&event, sink, unit, wire)
    }

    /// The loader's end sends, what was sent last comes to the unit's end, and the last answer to the loader's.
    fn exchange<K: Sink, U: Medium>(
        &mut self,
        sink: &mut K,
        unit: &mut U,
        wire: &mut Wire,
    ) -> Result<(), DownloadFault>
        requires unit { (U.state unit.old).size ≡ IMAGE_SIZE }
        requires knows { IfSome (U.state unit.old).image (Knows self.old.world.unit.side) }
        ensures goes { (held : Option (List ℕ))
            → IsUnderway (U.state unit.old).image held self.old.world self.old.listed wire.old (K.held sink.old)
            → DownloadGoesOn result (U.state unit.old).image held self.new.world self.new.listed wire.new
            (K.held sink.new) }
        ensures knows { IfSome (U.state unit.old).image (Knows self.new.world.unit.side) }
        ensures counts { K.faults sink.old ≤ K.faults sink.new }
        ensures cause { IsErrOf result DownloadFault.WriteFault → Rose (K.faults sink.old) (K.faults sink.new) }
        ensures reads { ReadsIfAny (U.state unit.old) (U.state unit.new) (has_failed result) }
    {
        self.happen(&Event::Send, sink, unit, wire)?;
        let asked = self.world.sent().saturating_sub(1);
        self.happen(&Event::ToUnit(asked), sink, unit, wire)?;
        let answered = self.world.answered().saturating_sub(1);
        self.happen(&Event::ToLoader(answered), sink, unit, wire)
    }

    /// What an event does, while the download is not over.
    fn happen<K: Sink, U: Medium>(
        &mut self,
        event: &Event,
        sink: &mut K,
        unit: &mut U,
        wire: &mut Wire,
    ) -> Result<(), DownloadFault>
        requires unit { (U.state unit.old).size ≡ IMAGE_SIZE }
        requires knows { IfSome (U.state unit.old).image (Knows self.old.world.unit.side) }
        ensures goes { (held : Option (List ℕ))
            → IsUnderway (U.state unit.old).image held self.old.world self.old.listed wire.old (K.held sink.old)
            → DownloadGoesOn result (U.state unit.old).image held self.new.world self.new.listed wire.new
            (K.held sink.new) }
        ensures knows { IfSome (U.state unit.old).image (Knows self.new.world.unit.side) }
        ensures counts { K.faults sink.old ≤ K.faults sink.new }
        ensures cause { IsErrOf result DownloadFault.WriteFault → Rose (K.faults sink.old) (K.faults sink.new) }
        ensures reads { ReadsIfAny (U.state unit.old) (U.state unit.new) (has_failed result) }
    {
        if self.world.finished() {
            return Ok(());
        }
        self.list(event, wire)?;
        self.world.step(unit, event, sink)
    }

    /// What an event adds to the wire.
    fn list(&mut self, event: &Event, wire: &mut Wire) -> Result<(), DownloadFault>
        ensures world { self.new.world ≡ self.old.world }
        ensures listed { OnOk result (IsListed self.old.world self.old.listed event.now wire.old self.new.listed
            wire.new) }
        ensures memory { IfErr result (λ fault. (fault ≡ DownloadFault.Memory) × (wire.new ≡ wire.old)) }
    {
        match *event {
            Event::Send => self.list_request(wire),
            Event::ToUnit(_) => Ok(()),
            Event::ToLoader(place) => self.list_answer(place, wire),
        }
    }

    /// The request that is asked now, if it is not on the wire.
    fn list_request(&mut self, wire: &mut Wire) -> Result<(), DownloadFault>
        ensures world { self.new.world ≡ self.old.world }
        ensures listed { OnOk result (RequestIsListed self.old.listed
            (frame_of (request_of asked self.old.world.loader)) wire.old self.new.listed wire.new) }
        ensures memory { IfErr result (λ fault. (fault ≡ DownloadFault.Memory) × (wire.new ≡ wire.old)) }
    {
        if self.listed {
            return Ok(());
        }
        let Some(frame) = self.world.request() else {
            return Ok(());
        };
        if wire.push(End::Loader, frame).is_err() {
            return Err(DownloadFault::Memory);
        }
        self.listed = true;
        Ok(())
    }

    /// The answer that the packet of this place brings.
    fn list_answer(&mut self, place: u32, wire: &mut Wire) -> Result<(), DownloadFault>
        ensures world { self.new.world ≡ self.old.world }
        ensures listed { OnOk result (AnswerIsListed
            (brought_by self.old.world (slice_get self.old.world.answers place)) self.old.listed wire.old
            self.new.listed wire.new) }
        ensures memory { IfErr result (λ fault. (fault ≡ DownloadFault.Memory) × (wire.new ≡ wire.old)) }
    {
        let Some(frame) = self.world.brought(place) else {
            return Ok(());
        };
        if wire.push(End::Unit, frame).is_err() {
            return Err(DownloadFault::Memory);
        }
        self.listed = false;
        Ok(())
    }
}
