//! What `record live` prints of a run (profile): a line each of what its outcome tells more, in calls of their own, and
//! none before the devices have what it acknowledges.
#![tactic(auto)]

mod minute_line;
mod news;
mod report;
mod telling;
mod timed_line;

pub use news::{Printed, tell_news};
pub use report::{Report, report_line};
pub use telling::tell;
