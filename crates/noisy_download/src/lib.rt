//! A unit downloaded over a link that loses, repeats and delays by numbers that are drawn (profile): the file and the
//! wire are those of a download over a link that keeps all.
#![tactic(auto)]

mod draws;
mod noisy;

pub use draws::{drawn_event, place_before_last};
pub use noisy::download_noisy;
