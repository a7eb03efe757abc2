//! What the memory of a unit says (profile): the layout of its image, and as definitions in `specs/` its minutes, the
//! days that it retains, and when an image decodes. Here stand the places that these speak of.
#![tactic(auto)]

pub mod layout;

pub use layout::Field;
pub use view_model::State;
