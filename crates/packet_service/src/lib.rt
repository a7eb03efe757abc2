//! Packets as datagrams over streams of bytes, each behind its length: a unit's end and a loader's end on two machines
//! (profile).
#![tactic(auto)]

mod datagrams;
mod file_sink;
mod loading;
mod serving;

pub use datagrams::{Gathered, Gathering, LONGEST, write_datagram};
pub use file_sink::FileSink;
pub use loading::{PacketsFault, download_packets};
pub use serving::{MOST_TURNS, put_packet, serve_packets};
