//! Runs on a unit alone, with a card of zeros in the place of each, as `record` goes where no line is a card's. Their
//! calls are stopped before, after and torn.
mod events;
mod rows;
mod running;
mod speeds;
