//! Why a download ends before it is finished.

/// Why a frame was not taken.
#[derive(Clone, Copy, Debug, PartialEq, Eq)]
pub enum LoadFault {
    /// A negative answer came that is not passed over: the service and the code.
    Negative(u8, u8),
    /// The frame is no answer to what was sent.
    Unexpected,
    /// A piece came out of its order: the counter that was wanted, and its own.
    Broken(u16, u16),
    /// The sink failed.
    WriteFault,
    /// There is no memory for a piece: the frame can be taken again.
    Memory,
}
