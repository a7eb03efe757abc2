//! Records of bytes as JSON: a table of named fields tells how each is shown (profile).
#![tactic(auto)]

mod codes;
mod fields;
mod kinds;
mod laws;
mod names;
mod tables;
mod times;
mod values;
mod writer;

pub use codes::Coding;
pub use fields::{Field, Form, Group, write_fields, write_record, write_records};
pub use kinds::Kind;
pub use laws::{
    a_list_is_json, a_record_is_json, a_text_is_printed_in_pieces, a_time_has_the_date_of_its_day,
    nothing_is_left_out, nothing_of_a_list_is_left_out,
};
pub use names::Name;
pub use values::{write_change, write_digits};
pub use writer::TextWriter;
