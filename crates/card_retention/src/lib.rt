//! Which days a card's string shows after a run of calls, and which may have been overwritten: definitions over lists
//! of days.
#![tactic(auto)]
