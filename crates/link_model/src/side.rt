//! The two sides of the link.

/// A side of the link: of a frame the one that listens to it, or the one that sends it, as the call says.
#[derive(Clone, Copy, Debug, PartialEq, Eq)]
pub enum End {
    /// The unit, which answers.
    Unit,
    /// The loader, which asks: what downloads the unit.
    Loader,
}
