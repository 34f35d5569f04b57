//! Why connections are closed.

/// Why a client's connection is closed (IEC 60870-5-104, 5.1 to 5.3).
#[derive(Clone, Copy, PartialEq)]
pub enum Why {
    /// N(S) isn't the number of I formats received, or N(R) names no I format that waits for it.
    Sequence = 1,
    /// An I format came, and data transfer isn't started.
    NotStarted = 2,
    /// The ASDU is shorter than its header, or has a known type and a wrong count, SQ or length.
    Malformed = 3,
    /// 32 confirmations wait already, or too few of the 32 places for answers are free.
    Flooded = 4,
    /// t1 has passed.
    Timer = 5,
}
