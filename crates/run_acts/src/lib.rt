//! What a run over a unit and two cards does where no card is judged (profile): what is kept of it between two seconds,
//! and how power is lost and comes back; the actions that need no card to be judged; and turns, which are seconds of
//! one minute at one speed.
#![tactic(auto)]

mod by_hand;
mod entered;
mod feeding;
mod gap;
mod kept_events;
mod noted_events;
mod on_cards;
mod placing;
mod power;
mod rounds;
mod run;
mod settling;
mod turning;
mod withdrawing;

pub use by_hand::{enter, may_enter};
pub use entered::a_card_that_entered_is_recorded;
pub use feeding::turn_length;
pub use gap::note_gap;
pub use kept_events::{
    faults_of_entries_are_told, keepings_note_faults, the_cards_behind_a_tear_are_named,
    the_cards_of_a_moment_are_named, the_crew_of_a_moment_is_named, who_has_a_session_is_known,
};
pub use noted_events::what_two_calls_note_parts;
pub use on_cards::a_second_is_shown_on_a_card;
pub use placing::{SlotPlace, note_place, place};
pub use rounds::{
    the_keeping_fails, the_keeping_is_recorded, the_minutes_are_kept, the_minutes_are_over,
    the_minutes_may_be_booked, the_note_fails, they_leave_still,
};
pub use run::{Power, Run};
pub use settling::settle;
pub use turning::{Stretch, turn};
pub use withdrawing::{Withdrawal, pull, withdraw};
