//! The days of a driver card, as definitions over its flat image (Annex IB, Appendix 1: CardDriverActivity and
//! CardActivityDailyRecord). `specs/` says which days an image holds, once as a test of given days and once as a walk
//! that finds them, where an image first fails that form, and what the calls on the string make of the list.
#![tactic(auto)]

pub mod lengths;
