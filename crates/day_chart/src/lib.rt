//! The picture of the days of a view: one SVG, a band a day (profile).
#![tactic(auto)]

mod band;
mod bar;
mod chart;
mod frame;
mod mark;

pub use chart::{card_chart, unit_chart};
