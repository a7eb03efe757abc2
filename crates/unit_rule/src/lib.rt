//! What the images of a unit hold of a run, as definitions (specs/) with their laws: at each moment the days at the
//! start with a front of the run's minutes, retained, and each minute that was acknowledged (profile). And that the
//! journal's steps, seen by the views of the joint rule, are its steps.
#![tactic(auto)]

mod laws;
mod seen;

pub use laws::{
    a_followed_run_is_safe, an_image_that_decodes_is_a_start, an_odometer_is_a_sum,
    marks_are_the_minutes, what_is_found_decodes, what_is_left_is_whole,
};
pub use seen::{
    a_keeping_is_seen, a_mending_is_seen, a_new_unit_owes_nothing, a_putting_is_seen,
    a_row_beginning_is_seen, a_row_is_begun, an_entry_is_put,
};
