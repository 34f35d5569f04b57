//! When the core tests a connection, and when it closes it.

/// What the core knows of a connection's time-outs.
#[derive(Clone, Copy)]
pub struct Timers {
    /// The moment of its last APDU, or of its beginning.
    heard: u64,
    /// The moment of the TESTFR act that isn't confirmed; never, where none is.
    tested: u64,
    /// By how much the next TESTFR act is late.
    late: u64,
}

impl Timers {
    /// Those of a connection that begins at a moment.
    pub fn new(now: u64, late: u64) -> Timers {
        Timers {
            heard: now,
            tested: u64::MAX,
            late,
        }
    }

    /// An APDU came, which confirms a TESTFR act or doesn't.
    pub fn hear(&mut self, now: u64, confirms: bool, late: u64) {
        self.heard = now;
        self.late = late;
        if confirms {
            self.tested = u64::MAX;
        }
    }

    /// A TESTFR act is sent.
    pub fn test(&mut self, now: u64) {
        self.tested = now;
    }

    /// Whether a test isn't confirmed.
    pub fn is_tested(&self) -> bool {
        self.tested != u64::MAX
    }

    /// When the connection is tested, or closed where a test isn't confirmed.
    pub fn due(&self, t1_ms: u64, t3_ms: u64) -> u64 {
        if self.is_tested() {
            self.tested.saturating_add(t1_ms)
        } else {
            self.heard.saturating_add(t3_ms).saturating_add(self.late)
        }
    }
}
