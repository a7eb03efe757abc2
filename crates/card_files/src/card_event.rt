//! Entries of Events_Data and Faults_Data.
ghost use Rattle.std.specs.Prelude.{◌≡◌, length};
ghost use Rattle.card_files.specs.Events.{event_bytes, event_of};

use tacho_types::{
    Registration, TimeReal, read_registration, read_time, write_registration, write_time,
};

/// An event or a fault (Appendix 1, CardEventRecord and CardFaultRecord).
#[derive(Clone, Copy, Debug, Default, PartialEq, Eq)]
pub struct CardEvent {
    /// Its type, as EventFaultType numbers it.
    pub kind: u8,
    pub begin: TimeReal,
    pub end: TimeReal,
    pub registration: Registration,
}

impl CardEvent {
    /// Its size in bytes.
    pub const SIZE: usize = 24;
}

/// The event in 24 bytes.
#[tactic(auto, unfolding(crate::specs::Events::event_bytes, crate::specs::Events::event_of))]
pub fn read_event(b: &[u8]) -> CardEvent
    requires { length b.now ≡ 24 }
    ensures value { result ≡ event_of b.now }
    ensures bytes { event_bytes result ≡ b.now }
{
    let (kind, b) = b.split_at(1);
    let (begin, b) = b.split_at(TimeReal::SIZE);
    let (end, registration) = b.split_at(TimeReal::SIZE);
    CardEvent {
        kind: kind[0],
        begin: read_time(begin),
        end: read_time(end),
        registration: read_registration(registration),
    }
}

/// Writes an event into 24 bytes.
#[tactic(auto, unfolding(crate::specs::Events::event_bytes, crate::specs::Events::event_of))]
pub fn write_event(v: &CardEvent, out: &mut [u8])
    requires { length out.old ≡ 24 }
    ensures bytes { out.new ≡ event_bytes v.now }
    ensures reads_back { event_of out.new ≡ v.now }
{
    let (kind, out) = out.split_at_mut(1);
    kind.copy_from_slice(&[v.kind]);
    let (begin, out) = out.split_at_mut(TimeReal::SIZE);
    write_time(v.begin, begin);
    let (end, registration) = out.split_at_mut(TimeReal::SIZE);
    write_time(v.end, end);
    write_registration(&v.registration, registration);
}
