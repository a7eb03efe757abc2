//! The loader's side of a download (Annex IB, Appendix 7): what it sends, and what it does about each frame that comes.
//! The finished messages go to a sink, which then has a unit file.
#![tactic(auto)]

mod downloader;
mod fault;
mod kind;
mod laws;
mod message;
mod stage;

pub use downloader::Downloader;
pub use fault::LoadFault;
pub use laws::{
    a_finished_download_is_the_units_file, a_frame_is_taken_in_one_way, a_units_image_can_be_loaded,
};
