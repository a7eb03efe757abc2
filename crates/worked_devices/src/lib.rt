//! Tests of calls on media, rings, chips, cards and units. No other crate stands on it.
#![tactic(auto)]

#[cfg(test)]
mod chip_tests;
#[cfg(test)]
mod disk_tests;
#[cfg(test)]
mod file_tests;
#[cfg(test)]
mod media_file_tests;
#[cfg(test)]
mod media_tests;
#[cfg(test)]
mod memory_tests;
#[cfg(test)]
mod note_tests;
#[cfg(test)]
mod record_tests;
#[cfg(test)]
mod ring_tests;
#[cfg(test)]
mod session_tests;
