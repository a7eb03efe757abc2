//! What is told of a run on standard error (profile): a line for each line of the trace that was refused, one for each
//! card that was turned away, one for each break that a failed call made, and behind these how many there are; and a
//! line of what the file of a device, or its file system, lacks.
#![tactic(auto)]

mod lack;
mod line;
mod lines;
mod refusals;
mod timed;
mod turned_away;

pub use lack::put_missing;
pub use lines::put_failures;
pub use refusals::{put_refusals, refusal_reason};
pub use turned_away::put_turned_away;
