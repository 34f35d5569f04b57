//! The system's clocks.

use crate::times::Clock;
use std::io;
use std::rt::Clock as SystemTimes;
use std::time::Duration;

/// The system's monotonic clock, and its wall time. A clock that can't be read shows 0.
#[derive(Drop)]
pub struct SystemClock<'a, R> {
    rt: &'a R,
}

impl<'a, R> SystemClock<'a, R> {
    /// The clocks of a runtime.
    pub fn new(rt: &'a R) -> SystemClock<'a, R> {
        SystemClock { rt }
    }
}

/// The milliseconds that a clock shows.
fn milliseconds(shown: io::Result<Duration>) -> u64 {
    match shown {
        Ok(time) => u64::try_from(time.as_millis()).unwrap_or(0),
        Err(_) => 0,
    }
}

impl<'a, R: SystemTimes> Clock for SystemClock<'a, R> {
    fn moment(&self) -> u64 {
        milliseconds(self.rt.monotonic())
    }

    fn wall(&self) -> u64 {
        milliseconds(self.rt.since_1970())
    }
}
