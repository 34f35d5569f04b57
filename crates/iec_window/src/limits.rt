//! The parameters of a connection.

/// The parameters k, w, t1, t2 and t3 of a connection (IEC 60870-5-104, 5.1, 5.2 and 5.5).
#[derive(Clone, Copy)]
pub struct Limits {
    /// How many I formats may be sent before one is acknowledged.
    pub k: u16,
    /// After how many I formats received an acknowledgement is due.
    pub w: u16,
    /// How long, in milliseconds, an I format or a TESTFR act may stay without its acknowledgement.
    pub t1: u64,
    /// How long, in milliseconds, an I format received may stay without an acknowledgement.
    pub t2: u64,
    /// After how long without a frame, in milliseconds, a TESTFR act is due.
    pub t3: u64,
}
