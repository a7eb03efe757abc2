//! What a run tells of itself (profile): its breaks, its refused actions, what its insertions found, and what its
//! devices have acknowledged. Read with the trace, `specs/` says by these how each second went: which actions were
//! carried out, where the cards were, when there was power, and which cause each line of the log has.
#![tactic(auto)]

mod laws;
mod lines;

pub use laws::{
    goes_on_by_seconds, later_lines_change_nothing, spans_are_numbered, trace_is_numbered,
};
pub use lines::{Break, Find, Mark, Refused, SlotFault, Verdict, device_of};
