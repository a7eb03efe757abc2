//! The crash-safety theorem in short (profile): what a run leaves of the unit and of the cards, as an image says it of
//! each minute.
#![tactic(auto)]

mod laws;

pub use laws::a_unit_alone_keeps_in_short;
