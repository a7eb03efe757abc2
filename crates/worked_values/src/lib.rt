//! Tests of calls on values, texts, minutes, frames, messages and views. No other crate stands on it.
#![tactic(auto)]

#[cfg(test)]
mod answer_tests;
#[cfg(test)]
mod bar_tests;
#[cfg(test)]
mod card_tests;
#[cfg(test)]
mod checks;
#[cfg(test)]
mod codec_tests;
#[cfg(test)]
mod demo_tests;
#[cfg(test)]
mod download_tests;
#[cfg(test)]
mod event_tests;
#[cfg(test)]
mod field_tests;
#[cfg(test)]
mod frame_tests;
#[cfg(test)]
mod history_tests;
#[cfg(test)]
mod loader_tests;
#[cfg(test)]
mod message_tests;
#[cfg(test)]
mod minute_tests;
#[cfg(test)]
mod noisy_tests;
#[cfg(test)]
mod packet_tests;
#[cfg(test)]
mod report_tests;
#[cfg(test)]
mod service_tests;
#[cfg(test)]
mod slot_tests;
#[cfg(test)]
mod state_tests;
#[cfg(test)]
mod trace_tests;
#[cfg(test)]
mod type_tests;
#[cfg(test)]
mod view_tests;
