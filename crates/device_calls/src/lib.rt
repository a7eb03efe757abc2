//! The steps of a run on its devices (profile): one call on a device each, over one unit and the cards, with what it
//! leaves of the rules that join them. They know no trace and no log.
//!
//! When a card was last used, as the calls on it leave that (profile): the time at the start, or a whole minute. Laws.
//!
//! Calls on a card in a slot that are no steps of the joint rule (profile): it is judged, and an event or a place is
//! noted on it. Each makes a port of its own over the card and lets it go.
#![tactic(auto)]

// steps
mod beginning;
mod committing;
mod entering;
mod leaving;
mod mending;
mod on_card;
mod owing;
mod step_laws;

// times of last use
mod time_laws;

// calls that are no steps
mod calls;

pub use beginning::{NewRow, begin};
pub use calls::{look_by, note_event_on, note_place_on};
pub use committing::commit;
pub use entering::{CardInsertion, Entered, NotEntered, enter};
pub use leaving::leave;
pub use mending::mend;
pub use on_card::keep_on_card;
pub use owing::{OwedEntry, owe};
pub use step_laws::{
    a_card_out_of_its_slot_stands, a_card_sits_on, a_card_that_was_read_rests,
    a_first_acceptance_knows_its_words, a_note_on_a_card_leaves_the_rules,
    a_note_on_the_unit_leaves_the_rules, a_noted_card_is_valid, a_string_that_goes_on_is_ready,
    a_torn_card_is_out, a_torn_card_stands, a_unit_that_is_found_leaves_the_cards,
    a_valid_card_has_days, an_accepted_card_is_told, an_insertion_puts_what_is_owed,
};
pub use time_laws::the_last_use_is_whole;
