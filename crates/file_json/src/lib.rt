//! A unit file and a card file as JSON (RFC 8259), with the names of Annex IB, Appendix 1 (profile).
#![tactic(auto)]

mod card;
mod days;
mod laws;
mod parts;
mod pieces;
mod unit;

pub use laws::{
    a_card_file_is_json, a_card_s_days_are_told, a_unit_file_is_json,
    a_unit_file_is_told_from_a_card_file, an_insertion_is_told_in_its_form,
    nothing_of_a_card_file_is_left_out, nothing_of_a_unit_file_is_left_out,
    the_events_of_a_card_stand_by_their_types, the_last_days_of_a_unit_file_are_told,
    the_newest_days_of_a_card_are_told, what_a_card_holds_is_told_in_its_form,
    what_a_card_holds_is_told_under_its_name, what_a_unit_notes_is_told_in_its_form,
    what_a_unit_writes_is_told_under_its_name,
};
pub use parts::Part;
pub use pieces::{Piece, card_pieces, piece_text, unit_pieces};
