//! What may happen on a noisy link.

/// What happens on a noisy link. What is lost is delivered never, what is repeated again and again, what is late behind
/// others.
#[derive(Clone, Copy, Debug, PartialEq, Eq)]
pub enum Event {
    /// The loader's end sends.
    Send,
    /// The packet of this place in the order of sending, from 0, comes to the unit's end.
    ToUnit(u32),
    /// The answer of this place comes to the loader's end.
    ToLoader(u32),
}
