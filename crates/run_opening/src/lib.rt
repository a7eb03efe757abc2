//! The opening of a run (profile): the unit is judged, then the clock, then both cards, and that they are two. It
//! writes nothing.
#![tactic(auto)]

mod fault;
mod on_card;
mod on_unit;
mod opening;

pub use fault::RunFault;
pub use on_card::judge_card;
pub use on_unit::{OpenedUnit, judge_clock, judge_unit, open_unit};
pub use opening::{Opened, judge};
