//! What a run has left begins a run (profile): a law, that joins what a run promises of each image which a stop might
//! have left with what the next run asks of the images with which it begins.
#![tactic(auto)]

mod laws;

pub use laws::what_a_run_has_left_begins_a_run;
