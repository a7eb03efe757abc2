//! Text between separators, and the numbers in it: what traces and the words of the command line are read with.
//!
//! Lines of hexadecimal digits (profile): the bytes that a line spells, and the line of some bytes.
#![tactic(auto)]

// text between separators
mod fields;
mod numbers;

// lines of hexadecimal digits
mod reading;
mod writing;

pub use fields::{first_piece, four_fields, is_word, one_field, three_fields, two_fields};
pub use numbers::{byte, number, number_between};
pub use reading::{LineFault, read_line};
pub use writing::{MOST, byte_digits, write_line};
