//! The rules that join a unit and its cards between two calls (profile), over what their images show: definitions
//! (specs/) of the views, of the rules, and of what each kind of step leaves, with the laws that each step keeps the
//! rules (proofs/).
#![tactic(auto)]

mod laws;

pub use laws::{
    a_card_brings_its_newest_minute, a_card_is_owed_nothing_brought, a_step_takes_no_mark_back,
    an_acceptance_has_brought, days_go_on, owed_is_seen, presence_is_the_same,
    the_unit_owes_nothing_brought, what_is_on_a_card_is_acknowledged,
};
