//! The command `download packets`: the loader's end of a link of packets.
ghost use Rattle.std.specs.Prelude.{◌≡◌};
ghost use Rattle.tacho.specs.Packets.{end_of_packets};

use crate::end::Fault;
use packet_service::PacketsFault;

/// The end by what a download by packets answers.
pub fn packets_end(done: Result<(), PacketsFault>) -> Fault
    ensures { result ≡ end_of_packets done }
{
    match done {
        Ok(()) => Fault::Done,
        Err(PacketsFault::ReadFault) => Fault::ReadFault,
        Err(PacketsFault::WriteFault) => Fault::WriteFault,
        Err(PacketsFault::FileFault) => Fault::FileFault,
        Err(PacketsFault::Changed) => Fault::Changed,
        Err(PacketsFault::TooLong) => Fault::TooLong(0),
        Err(PacketsFault::Ended) => Fault::LinkEnded,
        Err(PacketsFault::Memory) => Fault::Memory,
    }
}
