//! The memory of a unit (profile): a new unit, whether an image decodes, and what it says of the vehicle.
#![tactic(auto)]

mod fault;
mod format;
mod judge;
mod memory;
mod slots;
mod upgrade;
mod walk;
mod words;

pub use fault::UnitFault;
pub use format::{Identity, format_unit};
pub use judge::{Judged, judge_image};
pub use memory::{UnitFacts, UnitMemory};
pub use walk::{Density, Walk};
pub use words::{Scan, scan_day};
