//! What is wrong with the sequence numbers of a frame.

use thiserror::Error;

/// A sequence number that doesn't fit the counts, after which the connection is to be closed
/// (IEC 60870-5-104, 5.1).
#[derive(Clone, Copy, Debug, PartialEq, Error)]
pub enum WindowFault {
    /// N(S) isn't the number of I formats received.
    #[error("1 WrongSend")]
    WrongSend,
    /// N(R) acknowledges fewer I formats than before, or more than were sent.
    #[error("2 WrongReceive")]
    WrongReceive,
}
