//! What the days of a unit say of a minute, as they are filled and as the oldest go; and how a history with a lost
//! minute parts from the history (profile). Lemmas alone.
#![tactic(auto)]
