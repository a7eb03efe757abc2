//! The loader's end of a noisy link.
ghost use Rattle.std.specs.Prelude.{◌≡◌, ◌≤◌, ◌+◌, ◌<◌, ◌^◌, ℕ, List, Some, IfOk, IfErr, IsErrOf, OnOk, length};
ghost use Rattle.std.specs.Io.KnownBytes.{Appends};
ghost use Rattle.tach_media.specs.Medium.{Rose};
ghost use Rattle.unit_messages.specs.declared.joining.TheConstants.{LONGEST};
ghost use Rattle.link_loader.specs.Loading.{begun, left_by, with_piece, LeavesSink, IsRefused};
ghost use Rattle.noisy_model.specs.Ends.{Taken, request_of, brought};
ghost use Rattle.noisy_link.specs.Sides.{asked, is_over, TakesPacket, LeavesEnd, number_left};

use crate::unit_end::copy_of_any;
use link_frames::Frame;
use link_loader::{Downloader, LoadFault};
use noisy_model::Packet;
use std::alloc::Global;
use std::marker::Model;
use tach_media::{Memory, Sink};

/// The end of a noisy link that a loader has. It sends its request with its number as often as it is told to, takes the
/// first answer with that number, and goes on to the next.
#[derive(Drop)]
pub struct LoaderEnd {
    number: u64,
    loader: Downloader,
}

impl Model for LoaderEnd {
    ghost use Rattle.noisy_model.specs.Ends.{LoaderEnd as Asking};
    ghost use Rattle.link_loader.specs.Loading.{Load};

    ghost Value = { Asking Load };

    ghost view = { λ e. record { number = e.number; side = e.loader } };
}

impl LoaderEnd {
    /// Nothing has come yet. It takes no memory.
    pub fn new(alloc: Global) -> LoaderEnd
        ensures number { result.number ≡ 1 }
        ensures begun { result.side.loading ≡ begun }
    {
        LoaderEnd {
            number: 1,
            loader: Downloader::new(alloc),
        }
    }

    /// The number of its request.
    pub fn number(&self) -> u64
        ensures { result ≡ self.now.number }
    {
        self.number
    }

    /// Whether no more is sent or taken: the download is over.
    pub fn is_finished(&self) -> bool
        ensures { result ≡ is_over self.now.side }
    {
        self.loader.next().is_none()
    }

    /// Makes room for the longest message of a unit.
    ///
    /// # Errors
    ///
    /// `Memory`; the end is as it was.
    pub fn reserve(&mut self) -> Result<(), Memory>
        ensures number { self.new.number ≡ self.old.number }
        ensures stays { self.new.side.loading ≡ self.old.side.loading }
        ensures room { OnOk result (LONGEST ≤ self.new.side.room) }
    {
        self.loader.reserve()
    }

    /// The packet to send: the request of the download with its number; `None` where the download is over, or no number
    /// is left.
    pub fn send(&self) -> Option<Packet>
        ensures { result ≡ request_of asked self.now }
    {
        if self.number == u64::MAX {
            return None;
        }
        match self.loader.next() {
            Some(frame) => Some(Packet {
                number: self.number,
                frame: Some(frame),
            }),
            None => None,
        }
    }

    /// The frame that a packet brings: one with its number, while it asks.
    pub fn brings(&self, packet: &Packet) -> Option<Frame>
        ensures { result ≡ brought asked self.now packet.now }
    {
        if self.send().is_none() || packet.number != self.number {
            return None;
        }
        copy_of_any(&packet.frame)
    }

    /// Takes a packet that comes, if it brings the answer that is wanted; else nothing changes.
    ///
    /// # Errors
    ///
    /// Those of a download: the number goes on, and the download is over; but for `Memory`, where the end is as it was.
    pub fn take<K: Sink>(&mut self, packet: &Packet, sink: &mut K) -> Result<bool, LoadFault>
        ensures taken { IfOk result (λ yes. TakesPacket self.old packet.now self.new yes (K.held sink.old) (K.held
            sink.new)) }
        ensures refused { IfErr result (λ fault. (frame : List ℕ) × (brought asked self.old packet.now ≡ Some frame)
            × IsRefused self.old.side.loading frame fault
            × LeavesSink self.old.side.loading frame fault (K.held sink.old) (K.held sink.new)) }
        ensures left { IfErr result (λ fault. LeavesEnd fault self.old self.new) }
        ensures same { IsErrOf result LoadFault.Memory → self.new ≡ self.old }
        ensures later { K.faults sink.old ≤ K.faults sink.new }
        ensures cause { IsErrOf result LoadFault.WriteFault → Rose (K.faults sink.old) (K.faults sink.new) }
        ensures room { self.old.side.room ≤ self.new.side.room }
        // Memory is wanted only where there is no room for the bytes with the piece.
        ensures enough { IsErrOf result LoadFault.Memory
            → (frame : List ℕ) × (brought asked self.old packet.now ≡ Some frame)
            × (self.old.side.room < length (with_piece self.old.side.loading.bytes frame)) }
    {
        let Some(frame) = &packet.frame else {
            return Ok(false);
        };
        if self.number == u64::MAX || packet.number != self.number || self.loader.next().is_none() {
            return Ok(false);
        }
        match self.loader.take(frame, sink) {
            Ok(()) => {
                self.number += 1;
                Ok(true)
            }
            Err(fault) => {
                self.number = number_left(fault, self.number);
                Err(fault)
            }
        }
    }
}

/// The number behind a refusal.
fn number_left(fault: LoadFault, number: u64) -> u64
    requires { number + 1 < 2 ^ 64 }
    ensures { result ≡ number_left fault number }
{
    match fault {
        LoadFault::Memory => number,
        LoadFault::Negative(_, _) => number + 1,
        LoadFault::Unexpected => number + 1,
        LoadFault::Broken(_, _) => number + 1,
        LoadFault::WriteFault => number + 1,
    }
}
