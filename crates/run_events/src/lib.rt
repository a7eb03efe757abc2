//! The events and faults of a run with cards (Annex IB, section III.12). `Watch` counts the seconds of a power span as
//! they come, and notes what has ended of driving without a card and of over speedings; a note leaves the bytes of the
//! journal alone. The entries are those of all types, with the cards that were accepted.
//!
//! The laws join both with the events of the run: each second brings its own, what is watched are these, and an image
//! shows what was noted.
#![tactic(auto)]

// events with cards
mod event_laws;

// notes with cards
mod entries;
mod entry_laws;
mod watch;

// watched events
mod watch_laws;

pub use entries::{
    card_bare, card_driving, card_fault, card_gap, card_not_valid, card_overlap, card_unclosed,
    number_or_zeros, on_card,
};
pub use entry_laws::an_entry_tells_its_event;
pub use event_laws::{
    a_choice_of_one_second_changes_no_other, a_cut_behind_a_second_leaves_its_events,
    a_second_brings_its_events, a_step_is_shown, an_event_is_shown, an_over_speeding_is_shown,
    each_event_is_noted_in_its_second, it_is_known_what_was_kept, later_lines_change_no_event,
    more_is_shown_after_more, other_bytes_tell_of_no_event, quiet_seconds_bring_what_they_end,
    what_a_failed_call_leaves_is_shown, what_a_second_notes_is_what_it_brings, what_is_shown_stays,
    what_is_sure_was_noted,
};
pub use watch::{Seconds, Watch};
pub use watch_laws::{
    seconds_are_fed_with_their_cards, what_a_turn_ends_is_what_it_brings,
    what_a_turn_notes_is_shown, what_is_watched_are_the_bare_events,
    what_is_watched_are_the_events_of_a_run, what_is_watched_are_the_over_speedings,
};
