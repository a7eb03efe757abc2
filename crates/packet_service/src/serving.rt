//! The unit's end of a link of packets over streams of bytes.
ghost use Rattle.std.specs.Prelude.{◌≡◌, ◌≤◌, ◌++◌, [], ◌∷◌, ℕ, List, Option, Some, OnOk, OnErr, IfErr, IfSome};
ghost use Rattle.std.specs.Io.KnownBytes.{Appends, IsAtEnd};
ghost use Rattle.tach_media.specs.Medium.{Rose};
ghost use Rattle.tach_media.specs.Streams.{AppendsFront};
ghost use Rattle.unit_model.specs.declared.layout.TheConstants.{IMAGE_SIZE};
ghost use Rattle.unit_model.specs.Decoding.{first_bad_place};
ghost use Rattle.unit_minutes.specs.Reading.{ReadsIfAny};
ghost use Rattle.link_session.specs.Told.{Knows};
ghost use Rattle.link_session.specs.Served.{IsCaused, has_failed};
ghost use Rattle.link_session.specs.Asked.{AnswersInTime};
ghost use Rattle.noisy_model.specs.Packets.{packet_bytes, packet_in};
ghost use Rattle.packet_service.specs.Datagrams.{IsPart, datagram};
ghost use Rattle.packet_service.specs.Serving.{IsHeard, IsServing, Serving, ServingAll, AllAnswered, ArePacketsServed};
ghost use Rattle.packet_service.specs.Serving.{fresh_end};

use crate::datagrams::{Gathered, Gathering, write_datagram};
use link_session::{AnswerFault, Peer, ServeFault};
use noisy_link::{UnitEnd, read_packet, write_packet};
use noisy_model::Packet;
use tach_media::{Failed, Medium, Sink, put_all};

/// As many reads as a service, or a download, makes at most.
pub const MOST_TURNS: u32 = 4294967295;

/// The unit's end of a link of packets.
#[derive(Drop)]
pub struct UnitLine {
    /// Where it stands.
    pub end: UnitEnd,
    /// What has come of the next datagram.
    pub gathering: Gathering,
}

/// Answers the packets of a source until it ends. Each is a datagram behind its length in two bytes, and so is each
/// answer. What is no packet is passed over. The unit is read, and never written.
///
/// # Errors
///
/// `ReadFault` after the answers to all that came; `TooLong` at a length of more than 264, and after 4294967295 reads;
/// `WriteFault`, `Failed` and `BadUnit` as in a service of frames.
pub fn serve_packets<S: Peer<K>, K: Sink, U: Medium>(
    source: &mut S,
    sink: &mut K,
    unit: &mut U,
) -> Result<(), ServeFault>
    requires unit { (U.state unit.old).size ≡ IMAGE_SIZE }
    ensures served { ArePacketsServed result (U.state unit.old).image (S.left source.old) (S.left source.new)
        (K.held sink.old) (K.held sink.new) }
    // Before each read all packets that had come were answered.
    ensures in_time { AnswersInTime (AllAnswered (U.state unit.old).image) (S.left source.old) (S.left source.new)
        (K.held sink.old) (S.asked source.old) (S.asked source.new) }
    // At the end nothing of the source is left.
    ensures end { OnOk result (IsAtEnd (S.left source.new)) }
    // The source or the sink failed, or the unit's image has that bad place.
    ensures cause { IfErr result (λ fault.
        IsCaused fault (Rose (S.faults source.old) (S.faults source.new)) (Rose (K.faults sink.old) (K.faults sink.new))
        (λ p. IfSome (U.state unit.old).image (λ x. first_bad_place x ≡ Some p))) }
    ensures counts { (S.faults source.old ≤ S.faults source.new) × (K.faults sink.old ≤ K.faults sink.new) }
    ensures unit { ReadsIfAny (U.state unit.old) (U.state unit.new) (has_failed result) }
{
    let mut line = UnitLine::new();
    let mut block = [0u8; 4096];
    for _turn in 0..MOST_TURNS {
        let Ok(count) = source.read_after(&mut block, sink) else {
            return Err(ServeFault::ReadFault);
        };
        if count == 0 {
            return Ok(());
        }
        line.take_all(&block[..count], sink, unit)?;
    }
    Err(ServeFault::TooLong)
}

impl UnitLine {
    /// Nothing has come.
    pub fn new() -> UnitLine
        ensures end { result.end ≡ fresh_end }
        ensures gathering { result.gathering ≡ [] }
    {
        UnitLine {
            end: UnitEnd::new(),
            gathering: Gathering::new(),
        }
    }

    /// These bytes come.
    fn take_all<K: Sink, U: Medium>(
        &mut self,
        bytes: &[u8],
        sink: &mut K,
        unit: &mut U,
    ) -> Result<(), ServeFault>
        requires unit { (U.state unit.old).size ≡ IMAGE_SIZE }
        requires knows { IfSome (U.state unit.old).image (Knows self.old.end.side) }
        requires part { IsPart self.old.gathering }
        ensures goes { (held : Option (List ℕ)) (came : List ℕ)
            → IsServing (U.state unit.old).image came self.old.gathering self.old.end held (K.held sink.old)
            → ServingAll result (U.state unit.old).image came bytes.now self.new.gathering self.new.end held
            (K.held sink.new) }
        ensures knows { IfSome (U.state unit.old).image (Knows self.new.end.side) }
        ensures part { OnOk result (IsPart self.new.gathering) }
        ensures cause { IfErr result (λ fault.
            IsCaused fault ⊥ (Rose (K.faults sink.old) (K.faults sink.new))
            (λ p. IfSome (U.state unit.old).image (λ x. first_bad_place x ≡ Some p))) }
        ensures counts { K.faults sink.old ≤ K.faults sink.new }
        ensures reads { ReadsIfAny (U.state unit.old) (U.state unit.new) (has_failed result) }
    {
        for byte in bytes {
            self.take(*byte, sink, unit)?;
        }
        Ok(())
    }

    /// A byte comes.
    fn take<K: Sink, U: Medium>(
        &mut self,
        byte: u8,
        sink: &mut K,
        unit: &mut U,
    ) -> Result<(), ServeFault>
        requires unit { (U.state unit.old).size ≡ IMAGE_SIZE }
        requires knows { IfSome (U.state unit.old).image (Knows self.old.end.side) }
        requires part { IsPart self.old.gathering }
        ensures goes { (held : Option (List ℕ)) (came : List ℕ)
            → IsServing (U.state unit.old).image came self.old.gathering self.old.end held (K.held sink.old)
            → Serving result (U.state unit.old).image (came ++ byte ∷ []) self.new.gathering self.new.end held
            (K.held sink.new) }
        ensures knows { IfSome (U.state unit.old).image (Knows self.new.end.side) }
        ensures part { OnOk result (IsPart self.new.gathering) }
        ensures cause { IfErr result (λ fault.
            IsCaused fault ⊥ (Rose (K.faults sink.old) (K.faults sink.new))
            (λ p. IfSome (U.state unit.old).image (λ x. first_bad_place x ≡ Some p))) }
        ensures counts { K.faults sink.old ≤ K.faults sink.new }
        ensures reads { ReadsIfAny (U.state unit.old) (U.state unit.new) (has_failed result) }
    {
        match self.gathering.take(byte) {
            Gathered::More => Ok(()),
            Gathered::TooLong => Err(ServeFault::TooLong),
            Gathered::Whole => {
                let heard = hear(&mut self.end, self.gathering.bytes(), sink, unit);
                self.gathering.clear();
                heard
            }
        }
    }
}

/// Answers a datagram.
fn hear<K: Sink, U: Medium>(
    end: &mut UnitEnd,
    bytes: &[u8],
    sink: &mut K,
    unit: &mut U,
) -> Result<(), ServeFault>
    requires unit { (U.state unit.old).size ≡ IMAGE_SIZE }
    requires knows { IfSome (U.state unit.old).image (Knows end.old.side) }
    ensures heard { IsHeard result (U.state unit.old).image end.old (packet_in bytes.now) end.new (K.held sink.old)
        (K.held sink.new) }
    ensures knows { IfSome (U.state unit.old).image (Knows end.new.side) }
    ensures cause { IfErr result (λ fault.
        IsCaused fault ⊥ (Rose (K.faults sink.old) (K.faults sink.new))
        (λ p. IfSome (U.state unit.old).image (λ x. first_bad_place x ≡ Some p))) }
    ensures counts { K.faults sink.old ≤ K.faults sink.new }
    ensures reads { ReadsIfAny (U.state unit.old) (U.state unit.new) (has_failed result) }
{
    let Some(packet) = read_packet(bytes) else {
        return Ok(());
    };
    match end.take(unit, &packet) {
        Ok(None) => Ok(()),
        Ok(Some(answer)) => send_back(&answer, sink),
        Err(AnswerFault::Failed) => Err(ServeFault::Failed),
        Err(AnswerFault::BadUnit(place)) => Err(ServeFault::BadUnit(place)),
    }
}

/// Sends an answer back.
fn send_back<K: Sink>(answer: &Packet, sink: &mut K) -> Result<(), ServeFault>
    ensures ok { OnOk result (Appends (K.held sink.old) (K.held sink.new) (datagram (packet_bytes answer.now))) }
    ensures err { IfErr result (λ fault. (fault ≡ ServeFault.WriteFault)
        × AppendsFront (K.held sink.old) (K.held sink.new) (datagram (packet_bytes answer.now))
        × Rose (K.faults sink.old) (K.faults sink.new)) }
    ensures counts { K.faults sink.old ≤ K.faults sink.new }
{
    match put_packet(answer, sink) {
        Ok(()) => Ok(()),
        Err(_) => Err(ServeFault::WriteFault),
    }
}

/// Puts a packet into a sink, as a datagram.
///
/// # Errors
///
/// `Failed` where the sink failed; it has a front of the datagram.
pub fn put_packet<K: Sink>(packet: &Packet, sink: &mut K) -> Result<(), Failed>
    ensures ok { OnOk result (Appends (K.held sink.old) (K.held sink.new) (datagram (packet_bytes packet.now))) }
    ensures err { OnErr result (AppendsFront (K.held sink.old) (K.held sink.new) (datagram (packet_bytes packet.now))) }
    ensures cause { OnErr result (Rose (K.faults sink.old) (K.faults sink.new)) }
    ensures counts { K.faults sink.old ≤ K.faults sink.new }
{
    let bytes = write_packet(packet);
    let whole = write_datagram(bytes.as_slice());
    put_all(sink, whole.as_slice())
}
