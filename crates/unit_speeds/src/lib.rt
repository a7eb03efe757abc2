//! The detailed speed that a unit file tells, as text (profile): a line a minute.
#![tactic(auto)]

mod blocks;
mod line;
mod text;

pub use line::SpeedLine;
pub use text::speeds_text;
