//! How an outstation is polled.

/// The times, in milliseconds, and the habits of the master towards one outstation.
#[derive(Clone, Copy)]
pub struct Poll {
    /// From one event poll to the next.
    pub poll_ms: u64,
    /// From one integrity poll to the next; 0 for never.
    pub integrity_ms: u64,
    /// How long a request waits for its answer.
    pub response_ms: u64,
    /// Unsolicited responses are enabled.
    pub unsolicited: bool,
    /// The clock is set by the procedure for a local network.
    pub lan_time: bool,
}
