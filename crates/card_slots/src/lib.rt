//! The two card slots of a unit (profile): which card is where, which action they refuse, and which card was present in
//! a minute.
#![tactic(auto)]

mod laws;
mod seats;
mod slots;

pub use laws::{
    agreeing_slots_refuse_alike, they_agree_on_a_card_put_in, they_agree_on_a_card_taken_out,
    they_agree_on_power_lost,
};
pub use log_model::SlotFault;
pub use seats::{Ended, Lefts, Present, Seat};
pub use slots::Slots;
