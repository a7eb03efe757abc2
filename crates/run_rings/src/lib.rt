//! What the rings of insertions and places of a unit carry of a run, from note to note. Laws alone.
#![tactic(auto)]

mod laws;

pub use laws::{
    a_second_notes_action_by_action, a_withdrawal_is_told_by_the_last_insertion, an_index_stays,
    odometers_go_on_with_their_spans, what_a_ring_carries, what_an_action_notes,
};
