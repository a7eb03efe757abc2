//! Tests of runs on a unit alone and with cards, and of downloads behind them, whose calls are stopped. A program that
//! does nothing, since no other crate stands on it.
#![tactic(auto)]

#[cfg(test)]
mod alone;
#[cfg(test)]
mod recording;
#[cfg(test)]
mod runs;

fn main() {}
