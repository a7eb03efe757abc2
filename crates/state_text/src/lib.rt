//! What is told of a device as text: a line for each name and value (profile).
#![tactic(auto)]

mod line;
mod shown;
mod text;

pub use line::{Line, Name, OwedTo, Value, day_of};
pub use text::lines_text;
