//! Fields and images of bytes and the numbers in them; the files of a driver card, as one flat image: their order,
//! identifiers, sizes and places (Annex IB, Appendix 2, section 4), and the file Application_Identification, which
//! tells the sizes; and its commands (section 3.6). The definitions stand in `specs/`; this crate holds the small types
//! that they speak of.
#![tactic(auto)]

mod command;
mod files;

pub use command::{CardState, Command, Directory, ElementaryFile};
pub use files::{
    APPLICATION_RANGE, Application, CardFile, FILE_HEAD, Fid, LARGEST, LARGEST_IMAGE, Range,
    STRING_LEAST, STRING_MOST,
};
