//! What a stream of octets gives.

use crate::frame::Frame;

/// Why no frame begins at an octet, in the order in which it is tried.
#[derive(Clone, Copy)]
pub enum SkipReason {
    /// The start octets are not 05 64 hex.
    BadStart = 1,
    /// LENGTH is below 5.
    BadLength = 2,
    /// The header block's CRC is wrong.
    BadHeaderCrc = 3,
    /// A data block's CRC is wrong.
    BadBlockCrc = 4,
}

/// What the front of a stream shows.
#[derive(Clone, Copy)]
pub enum LinkEvent {
    /// A whole frame whose CRCs are right.
    Frame(Frame),
    /// One octet was dropped: no frame begins there.
    Skipped(SkipReason),
}
