//! What the recorder with cards carries from call to call (profile): definitions (specs/), and laws that its loop
//! cites.
#![tactic(auto)]

mod laws;
mod taking;

pub use laws::{
    a_call_is_recorded, a_card_is_judged, a_card_is_lost, a_cut_is_recorded, a_failure_is_recorded,
    a_judging_fails, a_losing_fails, a_mending_fails, a_minute_is_over, a_place_is_recorded,
    a_reading_fails, a_refusal_is_recorded, a_run_begins, a_second_begins, a_second_is_fed,
    a_selection_is_recorded, a_tearing_fails, a_turn_is_fed, a_waiting_card_is_torn,
    an_entry_by_hand_is_recorded, an_off_cut_stays_recorded, an_off_line_stays_recorded,
    dark_seconds_stay_recorded, power_is_back, power_wakes, quiet_seconds_stay_recorded,
    the_second_is_over,
};
pub use taking::{
    a_card_is_pulled_out, a_card_is_put_in, a_card_leaves, a_closing_fails, a_leaving_card_is_torn,
    a_leaving_tear_fails, a_seated_card_is_torn, a_seated_tear_fails, a_session_is_closed,
    an_entered_card_is_next,
};
