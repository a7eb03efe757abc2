//! The events of a run with cards as its recorder carries them (profile): definitions (specs/), and laws that its loop
//! cites.
//!
//! The rings of insertions and places of a unit as a recorder with cards carries them (profile): definitions (specs/),
//! and laws that its loop cites.
#![tactic(auto)]

// events
mod event_laws;
mod going;
mod steps;

// insertions and places
mod ring_laws;

pub use event_laws::{
    a_dark_second_brings_nothing, a_power_on_is_broken, a_refusal_brings_nothing,
    a_second_is_broken, a_second_is_noted, a_stage_is_done, a_step_is_noted, a_tear_is_brought,
    an_off_cut_brings_nothing, events_are_found, events_are_shown, events_stay, nothing_is_noted,
    the_second_begins, the_second_is_cut, the_second_is_noted,
};
pub use going::{
    an_off_line_brings_nothing, an_off_line_cuts_and_brings_nothing, dark_seconds_bring_nothing,
    quiet_seconds_bring_nothing, seconds_alike_end_nothing,
};
pub use ring_laws::{
    a_place_is_broken, a_place_is_noted, a_power_on_is_carried_in_rings,
    a_second_is_carried_in_rings, a_second_notes, a_withdrawal_is_broken, a_withdrawal_is_noted,
    an_action_is_carried_in_rings, an_insertion_is_broken, an_insertion_is_noted, fewer_sit,
    no_ring_is_written, rings_are_shown, rings_go_on_within_a_second, rings_stay,
};
pub use steps::{
    a_call_notes, a_failure_cuts, a_find_adds, a_pull_adds_nothing, a_refusal_adds_nothing,
    a_second_begins_now, a_second_ends_now, a_tear_adds, a_waking_tear_adds, an_interruption_adds,
    no_break_no_span, steps_follow, the_interruption_is_found, what_ends_is_added,
};
