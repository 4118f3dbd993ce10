//! How a session over a link ends.

/// Why a session over a link has ended. `HasEnded` says what was taken and sent then.
#[derive(Clone, Copy, Debug, PartialEq, Eq)]
pub enum SessionEnd {
    /// The link ended behind a whole frame, or before the first.
    Closed,
    /// It ended within a frame.
    Torn,
    /// What came is no frame of a request, which was answered. The place is that of a byte, from the first that was taken.
    BadFrame { place: u64 },
    /// The link failed as more was to be taken.
    ReadFault,
    /// It failed as a reply was sent, which may have gone out in part.
    WriteFault,
    /// As many requests were answered as a session may have.
    Spent,
    /// There was no memory to begin with.
    Memory,
}
