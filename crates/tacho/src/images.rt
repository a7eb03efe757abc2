//! The names in the working folder that the program knows, and which files have them.
use sector_medium::CopyNames;
use std::fs;
use std::os::unix::fs::MetadataExt;

/// The name of a device's file, and those of the copy of what it held before it was made anew.
#[derive(Clone, Copy)]
pub struct Image {
    pub path: &'static str,
    pub copy: CopyNames<'static>,
}

/// The unit's file.
pub const UNIT: Image = Image {
    path: "unit.img",
    copy: CopyNames {
        path: "unit.img.before",
        unfinished: "unit.img.before.part",
    },
};

/// The first card's file.
pub const CARD_A: Image = Image {
    path: "card-a.img",
    copy: CopyNames {
        path: "card-a.img.before",
        unfinished: "card-a.img.before.part",
    },
};

/// The second card's file.
pub const CARD_B: Image = Image {
    path: "card-b.img",
    copy: CopyNames {
        path: "card-b.img.before",
        unfinished: "card-b.img.before.part",
    },
};

/// The file of a download by packets.
const DOWNLOAD: &str = "unit.ddd";

/// A name that no file has.
pub const NO_FILE: &str = "";

/// Where a download by packets goes: to its file, or nowhere where that is a device's, which then is not cut.
pub fn download_name(rt: &HostRuntime) -> &'static str {
    match node_of(rt, DOWNLOAD) {
        Some(node) if is_device(rt, node) => NO_FILE,
        _ => DOWNLOAD,
    }
}

/// A file, by the device that it is on and by its number there.
#[derive(Clone, Copy, PartialEq, Eq)]
pub struct Node {
    device: u64,
    number: u64,
}

/// The file that a name leads to, through links, if it leads to one.
fn node_of(rt: &HostRuntime, path: &str) -> Option<Node> {
    match fs::metadata(rt, path) {
        Ok(metadata) => Some(Node {
            device: metadata.dev(),
            number: metadata.ino(),
        }),
        Err(_) => None,
    }
}

/// Whether a file is that of the unit or of a card.
fn is_device(rt: &HostRuntime, node: Node) -> bool {
    let unit = node_of(rt, UNIT.path);
    let card_a = node_of(rt, CARD_A.path);
    let card_b = node_of(rt, CARD_B.path);
    unit == Some(node) || card_a == Some(node) || card_b == Some(node)
}

/// The copies of what the unit and the cards held.
#[derive(Clone, Copy)]
pub struct Copies {
    pub unit: Option<Node>,
    pub card_a: Option<Node>,
    pub card_b: Option<Node>,
}

/// The copies that are there.
pub fn copies_of(rt: &HostRuntime) -> Copies {
    Copies {
        unit: node_of(rt, UNIT.copy.path),
        card_a: node_of(rt, CARD_A.copy.path),
        card_b: node_of(rt, CARD_B.copy.path),
    }
}
