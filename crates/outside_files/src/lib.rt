//! Files that are named by the words of a command line, and are read one behind another as one text (profile): which
//! words are names, and in which file, and where in it, a place or a line of the whole lies.
#![tactic(auto)]

mod lines;
mod names;
mod pieces;

pub use lines::{begins_behind, lines_begun};
pub use names::{is_name, words_before_names};
pub use pieces::piece_at;
