//! A download over a link that loses, repeats and delays: packets with numbers, the end that a unit has of such a link
//! and the one that a loader has, and what any list of events leads to.
#![tactic(auto)]

mod laws;
mod loader_end;
mod packets;
mod unit_end;
mod world;

pub use laws::{
    a_noisy_download_goes_to_a_sink, a_noisy_download_is_the_units_file,
    a_noisy_link_leads_where_a_talk_does, each_request_is_answered_once,
    packets_are_read_as_written,
};
pub use loader_end::LoaderEnd;
pub use noisy_model::{Event, Packet};
pub use packets::{read_packet, write_packet};
pub use unit_end::UnitEnd;
pub use world::{MOST_PACKETS, World};
