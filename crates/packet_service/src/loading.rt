//! The loader's end of a link of packets over streams of bytes.
ghost use Rattle.std.specs.Prelude.{◌≡◌, ◌≤◌, ◌++◌, [], ◌∷◌, ℕ, List, OnOk, IfErr};
ghost use Rattle.tach_media.specs.Medium.{Rose};
ghost use Rattle.std.specs.Io.KnownBytes.{Appends};
ghost use Rattle.tach_media.specs.Streams.{AppendsFront};
ghost use Rattle.link_session.specs.Asked.{AnswersInTime};
ghost use Rattle.packet_service.specs.Serving.{stream_of_packets};
ghost use Rattle.packet_service.specs.Datagrams.{IsPart};
ghost use Rattle.packet_service.specs.Loading.{IsLoading, Sinks, Loading, LoadingAll, IsTaken, LinkInTime};
ghost use Rattle.packet_service.specs.Loading.{ArePacketsLoaded, IsCaused, sent_by};

use crate::datagrams::{Gathered, Gathering};
use crate::serving::{MOST_TURNS, put_packet};
use link_loader::LoadFault;
use link_session::Peer;
use noisy_link::{LoaderEnd, read_packet};
use std::alloc::Global;
use tach_media::Sink;

/// Why a download by packets ended before it was finished.
#[derive(Clone, Copy, Debug, PartialEq, Eq)]
pub enum PacketsFault {
    /// The source failed.
    ReadFault,
    /// The sink of the link failed.
    WriteFault,
    /// The sink of the file failed.
    FileFault,
    /// The loader refuses the unit's answer.
    Changed,
    /// A datagram's length is more than 264, or 4294967295 reads were made.
    TooLong,
    /// The source ended.
    Ended,
    /// Memory ran out: for the room of a message before the first request, or for a piece.
    Memory,
}

/// The loader's end of a link of packets.
#[derive(Drop)]
pub struct LoaderLine {
    /// Where it stands.
    pub end: LoaderEnd,
    /// What has come of the next datagram.
    pub gathering: Gathering,
}

/// Downloads a unit whose end answers packets on another machine. The first request goes to the link at once; behind an
/// answer that is taken the next one goes, and behind an empty datagram the same one again. The messages that come go
/// to the file.
///
/// # Errors
///
/// `ReadFault` and `Ended` where the source failed or ended before the download did; `WriteFault` and `FileFault` where
/// the link or the file failed; `Changed` at an answer that the loader refuses; `TooLong` and `Memory`. The file has
/// the messages that came, whole, but behind `FileFault` a front of the last one.
pub fn download_packets<S: Peer<K>, K: Sink, F: Sink>(
    alloc: Global,
    source: &mut S,
    link: &mut K,
    file: &mut F,
) -> Result<(), PacketsFault>
    ensures loaded { ArePacketsLoaded result (S.left source.old) (S.left source.new)
        (record { link = K.held link.old; file = F.held file.old })
        (record { link = K.held link.new; file = F.held file.new }) }
    // Before each read all packets that had come were taken, and what is sent behind them was sent.
    ensures in_time { AnswersInTime LinkInTime (S.left source.old) (S.left source.new) (K.held link.old)
        (S.asked source.old) (S.asked source.new) }
    ensures cause { IfErr result (λ fault.
        IsCaused fault (Rose (S.faults source.old) (S.faults source.new)) (Rose (K.faults link.old) (K.faults link.new))
        (Rose (F.faults file.old) (F.faults file.new))) }
    ensures counts { (S.faults source.old ≤ S.faults source.new) × (K.faults link.old ≤ K.faults link.new)
        × (F.faults file.old ≤ F.faults file.new) }
{
    let mut line = LoaderLine {
        end: LoaderEnd::new(alloc),
        gathering: Gathering::new(),
    };
    if line.end.reserve().is_err() {
        return Err(PacketsFault::Memory);
    }
    send(&line.end, link)?;
    let mut block = [0u8; 4096];
    for _turn in 0..MOST_TURNS {
        let Ok(count) = source.read_after(&mut block, link) else {
            return Err(PacketsFault::ReadFault);
        };
        if count == 0 {
            return Err(PacketsFault::Ended);
        }
        line.take_all(&block[..count], link, file)?;
        if line.end.is_finished() {
            return Ok(());
        }
    }
    Err(PacketsFault::TooLong)
}

impl LoaderLine {
    /// These bytes come.
    fn take_all<K: Sink, F: Sink>(
        &mut self,
        bytes: &[u8],
        link: &mut K,
        file: &mut F,
    ) -> Result<(), PacketsFault>
        requires part { IsPart self.old.gathering }
        ensures goes { (held : Sinks) (came : List ℕ)
            → IsLoading came self.old.gathering self.old.end held
            (record { link = K.held link.old; file = F.held file.old })
            → LoadingAll result came bytes.now self.new.gathering self.new.end held
            (record { link = K.held link.new; file = F.held file.new }) }
        ensures part { OnOk result (IsPart self.new.gathering) }
        ensures cause { IfErr result (λ fault.
            IsCaused fault ⊥ (Rose (K.faults link.old) (K.faults link.new))
            (Rose (F.faults file.old) (F.faults file.new))) }
        ensures counts { (K.faults link.old ≤ K.faults link.new) × (F.faults file.old ≤ F.faults file.new) }
    {
        for byte in bytes {
            self.take(*byte, link, file)?;
        }
        Ok(())
    }

    /// A byte comes.
    fn take<K: Sink, F: Sink>(
        &mut self,
        byte: u8,
        link: &mut K,
        file: &mut F,
    ) -> Result<(), PacketsFault>
        requires part { IsPart self.old.gathering }
        ensures goes { (held : Sinks) (came : List ℕ)
            → IsLoading came self.old.gathering self.old.end held
            (record { link = K.held link.old; file = F.held file.old })
            → Loading result (came ++ byte ∷ []) self.new.gathering self.new.end held
            (record { link = K.held link.new; file = F.held file.new }) }
        ensures part { OnOk result (IsPart self.new.gathering) }
        ensures cause { IfErr result (λ fault.
            IsCaused fault ⊥ (Rose (K.faults link.old) (K.faults link.new))
            (Rose (F.faults file.old) (F.faults file.new))) }
        ensures counts { (K.faults link.old ≤ K.faults link.new) × (F.faults file.old ≤ F.faults file.new) }
    {
        match self.gathering.take(byte) {
            Gathered::More => Ok(()),
            Gathered::TooLong => Err(PacketsFault::TooLong),
            Gathered::Whole => {
                let taken = hear(&mut self.end, self.gathering.bytes(), link, file);
                self.gathering.clear();
                taken
            }
        }
    }
}

/// A datagram comes.
fn hear<K: Sink, F: Sink>(
    end: &mut LoaderEnd,
    bytes: &[u8],
    link: &mut K,
    file: &mut F,
) -> Result<(), PacketsFault>
    ensures taken { IsTaken result end.old bytes.now end.new (record { link = K.held link.old; file = F.held file.old })
        (record { link = K.held link.new; file = F.held file.new }) }
    ensures room { end.old.side.room ≤ end.new.side.room }
    ensures cause { IfErr result (λ fault.
        IsCaused fault ⊥ (Rose (K.faults link.old) (K.faults link.new))
        (Rose (F.faults file.old) (F.faults file.new))) }
    ensures counts { (K.faults link.old ≤ K.faults link.new) × (F.faults file.old ≤ F.faults file.new) }
{
    if bytes.is_empty() {
        return send(end, link);
    }
    let Some(packet) = read_packet(bytes) else {
        return Ok(());
    };
    match end.take(&packet, file) {
        Ok(taken) => {
            if taken {
                return send(end, link);
            }
            Ok(())
        }
        Err(LoadFault::WriteFault) => Err(PacketsFault::FileFault),
        Err(LoadFault::Memory) => Err(PacketsFault::Memory),
        Err(LoadFault::Negative(_, _)) => Err(PacketsFault::Changed),
        Err(LoadFault::Unexpected) => Err(PacketsFault::Changed),
        Err(LoadFault::Broken(_, _)) => Err(PacketsFault::Changed),
    }
}

/// The loader's end sends, if it has anything to send.
fn send<K: Sink>(end: &LoaderEnd, link: &mut K) -> Result<(), PacketsFault>
    ensures ok { OnOk result (Appends (K.held link.old) (K.held link.new) (stream_of_packets (sent_by end.now))) }
    ensures err { IfErr result (λ fault. (fault ≡ PacketsFault.WriteFault)
        × AppendsFront (K.held link.old) (K.held link.new) (stream_of_packets (sent_by end.now))
        × Rose (K.faults link.old) (K.faults link.new)) }
    ensures counts { K.faults link.old ≤ K.faults link.new }
{
    let Some(packet) = end.send() else {
        return Ok(());
    };
    match put_packet(&packet, link) {
        Ok(()) => Ok(()),
        Err(_) => Err(PacketsFault::WriteFault),
    }
}
