//! What a card's calls say of its string of days, as the rule of overwriting says it (profile): definitions (specs/) of
//! what is carried of a string in a session and where one was broken off, and laws that a keep goes on with it at each
//! of its moments.
#![tactic(auto)]

mod each;
mod laws;

pub use each::{
    a_keep_keeps_each_image, a_withdrawal_keeps_each_image, a_write_beside_keeps_each_image,
    an_insertion_keeps_each_image,
};
pub use laws::{
    a_begun_day_is_kept, a_card_holds_its_string_at_the_start, a_keep_is_shown,
    a_keep_keeps_the_string, a_string_holds_on, a_string_that_holds_is_kept, a_withdrawal_is_shown,
    a_withdrawal_keeps_the_string, an_entry_may_come, an_insertion_is_shown,
    an_insertion_keeps_the_string, what_is_carried_is_stated,
};
