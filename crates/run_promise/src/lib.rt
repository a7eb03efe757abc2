//! What a run with cards carries between two steps, and what it promises by it at its end (profile): definitions
//! (specs/) with their laws.
//!
//! What each acceptance of a card brought, accounted for as a run goes on (profile): laws that give what the
//! crash-safety theorem asks.
//!
//! What the recorder with cards has recorded, from second to second (profile): definitions (specs/), and laws that its
//! loop cites.
#![tactic(auto)]

// what is carried
mod rule_laws;

// what was brought
mod account_laws;

// what is recorded
mod record_laws;

pub use account_laws::{
    a_second_is_accounted, accounts_are_brought, accounts_begin_and_end,
    accounts_stay_as_power_returns, accounts_stay_without_power, an_acceptance_is_accounted,
    an_acceptance_is_taken_at_the_last_kept_minute, an_account_goes_on, kept_minutes_are_sure,
    what_a_minute_adds_is_its_own, what_is_followed_and_carried_is_safe, what_is_lost_is_shown,
    what_was_brought_stays_by_the_rules,
};
pub use record_laws::{
    a_failed_power_on_is_recorded, a_second_is_broken, a_second_is_recorded, a_second_tells_more,
    an_off_cut_is_recorded, an_off_cut_tells_more, an_off_line_is_recorded, an_off_line_tells_more,
    cards_are_spared, dark_seconds_are_recorded, dark_seconds_tell_more, few_are_found_on,
    fewer_are_found, finds_go_on, found_tells_no_more, idle_cards_are_spared, more_is_recorded,
    nothing_is_found, nothing_is_recorded, quiet_seconds_are_recorded, quiet_seconds_tell_more,
    what_is_recorded_is_promised, what_was_kept_is_found,
};
pub use rule_laws::{
    a_card_that_was_looked_at_brings, a_string_stays_with_the_card, a_string_waits_for_a_minute,
    a_string_waits_for_the_unit, what_is_carried_is_safe, what_is_lit_is_carried,
    what_the_opening_finds_is_carried,
};
