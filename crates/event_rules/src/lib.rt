//! Which events the seconds of a power span bring (Annex IB, section III.12), and which place an event takes.
#![tactic(auto)]

mod bare;
mod laws;
mod places;
mod speeding;

pub use bare::{NoCardRun, power_gap};
pub use event_model::{Held, Over, Purpose, Span};
pub use laws::a_run_is_its_seconds;
pub use places::{day_place, place_for, purpose_of, similar_after};
pub use speeding::Overspeed;
