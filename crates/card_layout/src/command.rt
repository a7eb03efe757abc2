//! The commands of a card, and what it goes by when it answers one (Annex IB, Appendix 2, section 3.6).
use crate::{Fid, Range};
use arrayvec::ArrayVec;

/// A command to a card (Appendix 2, section 3.6).
#[derive(Clone, Debug, Drop, PartialEq, Eq)]
pub enum Command {
    /// SELECT FILE by name: of the tachograph application.
    Application,
    /// SELECT FILE by file identifier.
    Select(Fid),
    /// READ BINARY: `len` bytes, 1 to 256, from `offset` on, below 32768.
    Read {
        offset: u16,
        len: u16,
    },
    /// UPDATE BINARY: these bytes, 1 to 255, at `offset`, below 32768.
    Update {
        offset: u16,
        bytes: ArrayVec<u8, 255>,
    },
}

/// A directory of a card.
#[derive(Clone, Copy, Debug, PartialEq, Eq)]
pub enum Directory {
    /// The master file, with ICC and IC.
    Master,
    /// DF Tachograph, with all the other files.
    Tachograph,
}

/// An elementary file as a command finds it: its range in the flat image, and whether it may be updated.
#[derive(Clone, Copy, Debug, PartialEq, Eq)]
pub struct ElementaryFile {
    pub fid: Fid,
    pub range: Range,
    pub updated: bool,
}

/// What a card goes by when it answers a command.
#[derive(Clone, Copy, Debug, PartialEq, Eq)]
pub struct CardState {
    /// The current directory.
    pub directory: Directory,
    /// The selected file.
    pub selected: Option<ElementaryFile>,
    /// The bytes of Application_Identification, once a command has needed the sizes that they tell.
    pub application: Option<[u8; 10]>,
}
