//! How the cards stand that were present in the minutes that a run has still to keep (profile): definitions (specs/),
//! and laws that the loop of the recorder with cards cites.
//!
//! What each image of a card holds of its string is what a run carries of it (profile): a law.
//!
//! What each step of a run on its devices leaves of what is carried between two calls (profile): laws.
#![tactic(auto)]

// cards that were present
mod presence_laws;

// strings
mod string_laws;

// steps on the devices
mod device_laws;

pub use device_laws::{
    a_card_that_is_put_in_leaves_what_is_carried, a_card_that_is_taken_out_leaves_what_is_carried,
    a_note_on_the_unit_leaves_what_is_carried, power_is_lost_and_is_back,
};
pub use presence_laws::{
    a_minute_ends_so, a_step_leaves_so, none_is_to_be_kept, the_next_begins_so, what_a_minute_says,
};
pub use string_laws::a_string_that_each_image_holds_is_strung;
