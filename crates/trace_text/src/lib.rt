//! The text of a trace (profile): its grammar, its limits, and the exact line of what is wrong in it.
//!
//! The trace of a demonstration (profile): a driver's forty days, drawn from one number.
#![tactic(auto)]

// text to trace
mod coming;
mod line;
mod lines_trace;
mod read;
mod reading;
mod run_line;

// the trace of a demonstration
mod drawing;
mod drawn_laws;
mod drawn_trace;

pub use coming::{Came, Coming};
pub use drawing::next_drawn;
pub use drawn_laws::a_demonstration_has_its_seconds;
pub use drawn_trace::{DAYS, FIRST_SECOND, PARTS, demo_trace};
pub use lines_trace::{Form, Items, Trace, TraceFault};
pub use read::{MOST_BYTES, read_trace};
pub use trace_model::{Action, Card, Item};
