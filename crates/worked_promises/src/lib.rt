//! Worked rows of what a run promises: its course, notes, moves, stays, entries by hand and blocks, computed from the
//! lines of one trace and its run log; and of images by their bytes (profile). Rows alone.
#![tactic(auto)]
