//! Whether the entries of a card file stand in a unit file (profile): each entry in its slot, with its activity and
//! crew.
#![tactic(auto)]

mod cases;
mod difference;
mod entries;
mod files;
mod text;
mod verdict;

pub use cases::Use;
pub use difference::{Difference, Instead};
pub use entries::compare_entries;
pub use files::{
    MatchFault, SourceFault, compare_files, compare_source, match_files, match_source,
};
pub use text::{differences_text, match_text};
pub use verdict::{Counts, Differences, Matched};
