//! Runs on a unit and two cards, and what passes where a unit is downloaded behind one. Their calls are stopped before,
//! after and torn.
mod downloads;
mod hands;
mod matching;
mod ran;
mod rows;
mod running;
mod table;
