//! How the run of a unit with cards goes, between two seconds and within one: what its log, its slots and its book have
//! to do with the history of the run, as definitions (specs/) and laws that a recorder's loop cites.
//!
//! The moments of a second of a run with cards, and what the lines of the log make of each: as definitions (specs/) and
//! laws that a recorder's loop cites.
#![tactic(auto)]

// seconds of a run
mod second_laws;

// moments of a second
mod moment_laws;

pub use moment_laws::a_card_is_judged;
pub use moment_laws::a_card_is_pulled;
pub use moment_laws::a_card_is_torn;
pub use moment_laws::a_cut_ends;
pub use moment_laws::a_find_is_seen;
pub use moment_laws::a_minute_is_kept;
pub use moment_laws::a_moment_begins;
pub use moment_laws::a_power_on_is_cut;
pub use moment_laws::a_refusal_is_seen;
pub use moment_laws::a_second_is_reached;
pub use moment_laws::a_selection_is_heard;
pub use moment_laws::a_settling_decides;
pub use moment_laws::a_tear_is_seen;
pub use moment_laws::a_torn_card_waits_no_more;
pub use moment_laws::all_are_acknowledged;
pub use moment_laws::an_action_is_done;
pub use moment_laws::an_action_is_reached;
pub use moment_laws::an_action_is_refused;
pub use moment_laws::breakdowns_take_nothing_away;
pub use moment_laws::lines_of_the_moment;
pub use moment_laws::marks_stay;
pub use moment_laws::nothing_else_decides;
pub use moment_laws::nothing_is_decided_as_a_second_begins;
pub use moment_laws::nothing_is_marked_yet;
pub use moment_laws::one_more_is_marked;
pub use moment_laws::one_more_is_travelled;
pub use moment_laws::the_cut_has_decided;
pub use moment_laws::the_keeping_comes;
pub use moment_laws::the_keeping_is_reached;
pub use moment_laws::the_second_ends;
pub use moment_laws::the_second_has_decided;
pub use moment_laws::the_second_is_fed;
pub use moment_laws::who_sits_is_not_torn;
pub use second_laws::a_break_more_is_seen;
pub use second_laws::a_broken_second_is_travelled;
pub use second_laws::a_card_is_put_in;
pub use second_laws::a_card_is_taken_out;
pub use second_laws::a_cut_ends_the_second;
pub use second_laws::a_cut_stays_complete;
pub use second_laws::a_dark_minute_is_caused;
pub use second_laws::a_dark_minute_is_travelled;
pub use second_laws::a_dark_minute_stays_complete;
pub use second_laws::a_failure_is_travelled;
pub use second_laws::a_failure_stays_complete;
pub use second_laws::a_find_is_told;
pub use second_laws::a_find_more_is_seen;
pub use second_laws::a_minute_ends;
pub use second_laws::a_minute_stays_dark;
pub use second_laws::a_power_on_fails;
pub use second_laws::a_power_on_finds;
pub use second_laws::a_refusal_more_is_not_seen;
pub use second_laws::a_run_begins;
pub use second_laws::a_run_is_caused;
pub use second_laws::a_second_begins;
pub use second_laws::a_second_breaks_off;
pub use second_laws::a_second_ends;
pub use second_laws::a_second_goes_on;
pub use second_laws::a_second_has_gone;
pub use second_laws::a_second_is_acknowledged;
pub use second_laws::a_second_is_caused;
pub use second_laws::a_second_is_travelled;
pub use second_laws::a_tear_is_told;
pub use second_laws::an_action_is_a_moment;
pub use second_laws::an_action_more_is_acted;
pub use second_laws::an_off_cut_is_caused;
pub use second_laws::an_off_cut_is_travelled;
pub use second_laws::an_off_line_cuts;
pub use second_laws::an_off_line_is_caused;
pub use second_laws::an_off_line_is_dark;
pub use second_laws::an_off_line_is_travelled;
pub use second_laws::dark_seconds_tell;
pub use second_laws::decided_minutes_are_new;
pub use second_laws::found_is_travelled;
pub use second_laws::found_stays_caused;
pub use second_laws::found_stays_complete;
pub use second_laws::later_lines_change_no_moment;
pub use second_laws::lost_seconds_are_told;
pub use second_laws::minutes_are_kept;
pub use second_laws::more_marks_stay;
pub use second_laws::nobody_sits_at_the_start;
pub use second_laws::nothing_is_decided_yet;
pub use second_laws::nothing_is_travelled;
pub use second_laws::off_seconds_are_told;
pub use second_laws::off_seconds_stay_complete;
pub use second_laws::one_action_more;
pub use second_laws::power_alone_decides_nothing;
pub use second_laws::power_is_lost;
pub use second_laws::quiet_seconds_are_told;
pub use second_laws::quiet_seconds_go_on;
pub use second_laws::quiet_seconds_stay_caused;
pub use second_laws::quiet_seconds_stay_complete;
pub use second_laws::quiet_seconds_stay_travelled;
pub use second_laws::quiet_seconds_tell;
pub use second_laws::refusals_stay_complete;
pub use second_laws::rules_see_quiet_seconds;
pub use second_laws::rules_see_the_second;
pub use second_laws::shown_legs_are_those;
pub use second_laws::slots_tell_a_tear;
pub use second_laws::slots_tell_an_acceptance;
pub use second_laws::slots_tell_who_is_present;
pub use second_laws::slots_that_tell_agree;
pub use second_laws::the_last_second_is_cut;
pub use second_laws::the_minute_goes_on;
pub use second_laws::time_passes;
pub use second_laws::what_was_kept_is_found;
